//! What a session keeps between two reads, and how it answers the bytes of one read.
ghost use Rattle.std.specs.Prelude.{◌≡◌, ◌+◌, ◌<◌, ◌≤◌, ◌^◌, List, [], ◌∷◌, ◌++◌, length, OnOk, OnErr, IfOk, IfErr, vec_len, vec_capacity};
ghost use Rattle.std.specs.Io.KnownBytes.{Appends};
ghost use Rattle.hub_requests.specs.declared.bounds.TheConstants.{LONGEST_REPLY};
ghost use Rattle.hub_io.specs.Lines.{last_line};
ghost use Rattle.hub_io.specs.Telling.{Rises};
ghost use Rattle.hub_io.specs.Faults.{AppendsPart, write_faults};
ghost use Rattle.hub_front.specs.Serving.{AnswersLine, Served, BreaksOff};
ghost use Rattle.hub_front.specs.Pieces.{cut, complete_pieces, piece_left};

use hub_io::{FrontError, Sink, first_line, write_whole};
use hub_protocol::{parse, write_reply};
use hub_requests::{Desk, Enter, LONGEST_REPLY, Reply};
use std::alloc::{AllocError, Global};
use std::sync::Wait;

/// How many bytes of a line are kept: one more than a line may have, which is enough to know that it is too long.
pub const KEPT: usize = 513;

/// What a session keeps between two reads: the first 513 bytes of the unfinished line, room for the text of a reply,
/// and how many lines were answered.
#[derive(Drop)]
pub(crate) struct Session {
    alloc: Global,
    line: Vec<u8>,
    text: Vec<u8>,
    count: u64,
    ghost line_room: { 513 ≤ vec_capacity line },
    ghost text_room: { LONGEST_REPLY ≤ vec_capacity text },
    ghost short: { vec_len line ≤ 513 },
}

impl Session {
    pub(crate) fn new(alloc: Global) -> Result<Session, AllocError>
        ensures line { IfOk result (λ session. session.line.items ≡ []) }
        ensures count { IfOk result (λ session. session.count ≡ 0) }
    {
        let line = Vec::with_capacity(alloc, KEPT)?;
        let text = Vec::with_capacity(alloc, LONGEST_REPLY)?;
        Ok(Session {
            alloc,
            line,
            text,
            count: 0,
        })
    }

    /// Answers the lines that end within the bytes, and keeps the beginning of the unfinished line.
    pub(crate) fn take_bytes<H: Wait + Enter, D: Desk, W: Sink>(
        &mut self,
        rt: &H,
        desk: &mut D,
        writer: &mut W,
        bytes: &[u8],
    ) -> Result<(), FrontError>
        requires { self.old.count + length bytes.now < 2 ^ 64 }
        ensures ok { OnOk result
            (Served D.asks desk.old (complete_pieces bytes.now self.old.line.items)
            (W.contents writer.old) (W.contents writer.new) desk.new) }
        ensures line { OnOk result
            (self.new.line.items ≡ piece_left bytes.now self.old.line.items) }
        ensures count { OnOk result (self.new.count ≡ self.old.count + length
            (complete_pieces bytes.now self.old.line.items)) }
        ensures err { OnErr result
            (BreaksOff D.asks desk.old (complete_pieces bytes.now self.old.line.items)
            (W.contents writer.old) (W.contents writer.new) desk.new) }
        ensures fault { IfErr result (λ e. e ≡ FrontError.Write) }
        ensures told { Rises (W.faults writer.old) (W.faults writer.new) (write_faults result) }
    {
        let mut left = bytes;
        'lines: while let Some((end, rest)) = first_line(left) {
            self.keep(end);
            self.answer_line(rt, desk, writer)?;
            left = rest;
        }
        self.keep(left);
        Ok(())
    }

    // Keeps as much of the unfinished line's next bytes as there is room for.
    fn keep(&mut self, piece: &[u8])
        ensures line { self.new.line.items ≡ cut (self.old.line.items ++ piece.now) }
        ensures count { self.new.count ≡ self.old.count }
    {
        let fits = piece.len().min(KEPT - self.line.len());
        self.line.extend_from_slice(&piece[..fits]).unwrap();
    }

    /// Answers the unfinished last line of the input, if there is one. Returns how many lines were answered in all.
    pub(crate) fn finish<H: Wait + Enter, D: Desk, W: Sink>(
        mut self,
        rt: &H,
        desk: &mut D,
        writer: &mut W,
    ) -> Result<u64, FrontError>
        requires { self.count + 1 < 2 ^ 64 }
        ensures ok { OnOk result (Served D.asks desk.old (last_line self.line.items)
            (W.contents writer.old) (W.contents writer.new) desk.new) }
        ensures count { IfOk result (λ n. n ≡ self.count + length (last_line self.line.items)) }
        ensures err { OnErr result (BreaksOff D.asks desk.old (last_line self.line.items)
            (W.contents writer.old) (W.contents writer.new) desk.new) }
        ensures fault { IfErr result (λ e. e ≡ FrontError.Write) }
        ensures told { Rises (W.faults writer.old) (W.faults writer.new) (write_faults result) }
    {
        if !self.line.is_empty() {
            self.answer_line(rt, desk, writer)?;
        }
        Ok(self.count)
    }

    // Answers the line that was kept, writes the reply whole, and begins the next line.
    fn answer_line<H: Wait + Enter, D: Desk, W: Sink>(
        &mut self,
        rt: &H,
        desk: &mut D,
        writer: &mut W,
    ) -> Result<(), FrontError>
        requires { self.old.count + 1 < 2 ^ 64 }
        ensures ok { OnOk result (Served D.asks desk.old (self.old.line.items ∷ [])
            (W.contents writer.old) (W.contents writer.new) desk.new) }
        ensures line { OnOk result (self.new.line.items ≡ []) }
        ensures count { OnOk result (self.new.count ≡ self.old.count + 1) }
        ensures err { OnErr result (BreaksOff D.asks desk.old (self.old.line.items ∷ [])
            (W.contents writer.old) (W.contents writer.new) desk.new) }
        ensures fault { IfErr result (λ e. e ≡ FrontError.Write) }
        ensures told { Rises (W.faults writer.old) (W.faults writer.new) (write_faults result) }
    {
        let reply = reply_to(rt, self.alloc, desk, &self.line);
        reply.is_short();
        self.text.clear();
        write_reply(&reply, &mut self.text).unwrap();
        write_whole(writer, &self.text)?;
        self.line.clear();
        self.count += 1;
        Ok(())
    }
}

// The reply to a line: the desk's if it spells a request, and else the refusal of the first rule that it breaks.
fn reply_to<H: Wait + Enter, D: Desk>(rt: &H, alloc: Global, desk: &mut D, line: &[u8]) -> Reply
    ensures { AnswersLine D.asks desk.old line.now result desk.new }
{
    match parse(alloc, line) {
        Ok(request) => desk.ask(rt, &request),
        Err(refusal) => Reply::No(refusal),
    }
}
