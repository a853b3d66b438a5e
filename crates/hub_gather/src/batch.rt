//! What a session keeps between two reads, and how it answers the bytes of one read.
ghost use Rattle.std.specs.Prelude.{◌≡◌, ◌+◌, ◌<◌, ◌≤◌, ◌^◌, List, [], ◌∷◌, ◌++◌, length, OnOk, OnErr, IfOk, IfErr, IsTrue, vec_len, vec_capacity};
ghost use Rattle.hub_requests.specs.declared.bounds.TheConstants.{LONGEST_REPLY};
ghost use Rattle.std.specs.Io.KnownBytes.{Appends};
ghost use Rattle.hub_io.specs.Lines.{last_line};
ghost use Rattle.hub_io.specs.Telling.{Rises};
ghost use Rattle.hub_io.specs.Faults.{AppendsPart, write_faults};
ghost use Rattle.hub_front.specs.Serving.{Served};
ghost use Rattle.hub_front.specs.Pieces.{cut, complete_pieces, piece_left};
ghost use Rattle.hub_gather.specs.Gathering.{Loses};
ghost use Rattle.hub_gather.specs.Passing.{Gathers, Sends, Works, WorksOut, WorksUntil};
ghost use Rattle.hub_gather.specs.Steps.{MaySleep};
ghost use Rattle.hub_gather.specs.declared.batch.TheConstants.{MOST_HELD};

use crate::means::Means;
use crate::room::may_sleep;
use hub_front::KEPT;
use hub_io::{FrontError, first_line};
use hub_protocol::{parse, write_reply};
use hub_requests::{Enter, LONGEST_REPLY, Refusal, Request};
use std::alloc::{AllocError, Global};
use std::sync::Wait;

/// The most bytes of replies that a session holds back: 16 KiB.
pub const MOST_HELD: usize = 16_384;

/// What a session keeps between two reads: the first 513 bytes of the unfinished line, the texts of the replies that it holds back,
/// and how many lines were answered.
#[derive(Drop)]
pub(crate) struct Batch {
    alloc: Global,
    line: Vec<u8>,
    held: Vec<u8>,
    count: u64,
    /// Whether the request of the last line may have slept. Its client may have left meanwhile, and then its reply can't be written.
    slept: bool,
    ghost line_room: { 513 ≤ vec_capacity line },
    ghost held_room: { MOST_HELD ≤ vec_capacity held },
    ghost short: { vec_len line ≤ 513 },
    ghost few: { vec_len held ≤ MOST_HELD },
}

impl Batch {
    pub(crate) fn new(alloc: Global) -> Result<Batch, AllocError>
        ensures line { IfOk result (λ batch. batch.line.items ≡ []) }
        ensures held { IfOk result (λ batch. batch.held.items ≡ []) }
        ensures count { IfOk result (λ batch. batch.count ≡ 0) }
    {
        let line = Vec::with_capacity(alloc, KEPT)?;
        let held = Vec::with_capacity(alloc, MOST_HELD)?;
        Ok(Batch {
            alloc,
            line,
            held,
            count: 0,
            slept: false,
        })
    }

    /// Answers the lines that end within the bytes, keeps the beginning of the unfinished line, and writes all replies.
    pub(crate) fn take_bytes<H: Wait + Enter, D, R, W, M: Means<D, R, W>>(
        &mut self,
        rt: &H,
        means: &mut M,
        desk: &mut D,
        writer: &mut W,
        bytes: &[u8],
    ) -> Result<(), FrontError>
        requires count { self.old.count + length bytes.now < 2 ^ 64 }
        requires held { self.old.held.items ≡ [] }
        ensures ok { OnOk result
            (Served M.asks desk.old (complete_pieces bytes.now self.old.line.items)
            (M.contents writer.old) (M.contents writer.new) desk.new) }
        ensures held { OnOk result (self.new.held.items ≡ []) }
        ensures line { OnOk result
            (self.new.line.items ≡ piece_left bytes.now self.old.line.items) }
        ensures count { OnOk result (self.new.count ≡ self.old.count + length
            (complete_pieces bytes.now self.old.line.items)) }
        ensures err { OnErr result
            (Loses M.asks desk.old (complete_pieces bytes.now self.old.line.items) []
            (M.contents writer.old) (M.contents writer.new) desk.new) }
        ensures fault { IfErr result (λ e. e ≡ FrontError.Write) }
        ensures told { Rises (M.failed_writes writer.old) (M.failed_writes writer.new)
            (write_faults result) }
        ensures paces { WorksUntil (M.history means.old) (M.history means.new)
            self.old.count (self.old.count + length
            (complete_pieces bytes.now self.old.line.items)) result }
    {
        self.answer_lines::<H, D, R, W, M>(rt, means, desk, writer, bytes)?;
        self.write_held::<D, R, W, M>(means, writer)
    }

    /// Answers the unfinished last line of the input, if there is one, and writes its reply. Returns how many lines were answered in
    /// all.
    pub(crate) fn finish<H: Wait + Enter, D, R, W, M: Means<D, R, W>>(
        mut self,
        rt: &H,
        means: &mut M,
        desk: &mut D,
        writer: &mut W,
    ) -> Result<u64, FrontError>
        requires count { self.count + 1 < 2 ^ 64 }
        requires held { self.held.items ≡ [] }
        ensures ok { OnOk result (Served M.asks desk.old (last_line self.line.items)
            (M.contents writer.old) (M.contents writer.new) desk.new) }
        ensures count { IfOk result (λ n. n ≡ self.count + length (last_line self.line.items)) }
        ensures err { OnErr result (Loses M.asks desk.old (last_line self.line.items) []
            (M.contents writer.old) (M.contents writer.new) desk.new) }
        ensures fault { IfErr result (λ e. e ≡ FrontError.Write) }
        ensures told { Rises (M.failed_writes writer.old) (M.failed_writes writer.new)
            (write_faults result) }
        ensures paces { WorksUntil (M.history means.old) (M.history means.new)
            self.count (self.count + length (last_line self.line.items)) result }
    {
        if self.line.is_empty() {
            return Ok(self.count);
        }
        self.answer_line::<H, D, R, W, M>(rt, means, desk, writer)?;
        self.write_held::<D, R, W, M>(means, writer)?;
        Ok(self.count)
    }

    // Answers the lines that end within the bytes, and keeps the beginning of the unfinished line.
    fn answer_lines<H: Wait + Enter, D, R, W, M: Means<D, R, W>>(
        &mut self,
        rt: &H,
        means: &mut M,
        desk: &mut D,
        writer: &mut W,
        bytes: &[u8],
    ) -> Result<(), FrontError>
        requires { self.old.count + length bytes.now < 2 ^ 64 }
        ensures ok { OnOk result
            (Gathers M.asks desk.old (complete_pieces bytes.now self.old.line.items)
            self.old.held.items (M.contents writer.old) (M.contents writer.new)
            self.new.held.items desk.new) }
        ensures line { OnOk result
            (self.new.line.items ≡ piece_left bytes.now self.old.line.items) }
        ensures count { OnOk result (self.new.count ≡ self.old.count + length
            (complete_pieces bytes.now self.old.line.items)) }
        ensures err { OnErr result
            (Loses M.asks desk.old (complete_pieces bytes.now self.old.line.items)
            self.old.held.items (M.contents writer.old) (M.contents writer.new) desk.new) }
        ensures fault { IfErr result (λ e. e ≡ FrontError.Write) }
        ensures told { Rises (M.failed_writes writer.old) (M.failed_writes writer.new)
            (write_faults result) }
        ensures paces { OnOk result (Works (M.history means.old) (M.history means.new)
            self.old.count self.old.held.items self.new.count self.new.held.items) }
        ensures lost { OnErr result (WorksOut (M.history means.old) (M.history means.new)
            self.old.count self.old.held.items) }
    {
        let mut left = bytes;
        'lines: while let Some((end, rest)) = first_line(left) {
            self.keep(end);
            self.answer_line::<H, D, R, W, M>(rt, means, desk, writer)?;
            left = rest;
        }
        self.keep(left);
        Ok(())
    }

    // Keeps as much of the unfinished line's next bytes as there is room for.
    fn keep(&mut self, piece: &[u8])
        ensures line { self.new.line.items ≡ cut (self.old.line.items ++ piece.now) }
        ensures held { self.new.held.items ≡ self.old.held.items }
        ensures count { self.new.count ≡ self.old.count }
    {
        let fits = piece.len().min(KEPT - self.line.len());
        self.line.extend_from_slice(&piece[..fits]).unwrap();
    }

    // Answers the line that was kept, holds the reply back, and begins the next line.
    fn answer_line<H: Wait + Enter, D, R, W, M: Means<D, R, W>>(
        &mut self,
        rt: &H,
        means: &mut M,
        desk: &mut D,
        writer: &mut W,
    ) -> Result<(), FrontError>
        requires { self.old.count + 1 < 2 ^ 64 }
        ensures ok { OnOk result (Gathers M.asks desk.old (self.old.line.items ∷ [])
            self.old.held.items (M.contents writer.old) (M.contents writer.new)
            self.new.held.items desk.new) }
        ensures line { OnOk result (self.new.line.items ≡ []) }
        ensures count { OnOk result (self.new.count ≡ self.old.count + 1) }
        ensures err { OnErr result (Loses M.asks desk.old (self.old.line.items ∷ [])
            self.old.held.items (M.contents writer.old) (M.contents writer.new) desk.new) }
        ensures fault { IfErr result (λ e. e ≡ FrontError.Write) }
        ensures told { Rises (M.failed_writes writer.old) (M.failed_writes writer.new)
            (write_faults result) }
        ensures paces { OnOk result (Works (M.history means.old) (M.history means.new)
            self.old.count self.old.held.items self.new.count self.new.held.items) }
        ensures lost { OnErr result (WorksOut (M.history means.old) (M.history means.new)
            self.old.count self.old.held.items) }
    {
        let line = parse(self.alloc, &self.line);
        self.make_room::<D, R, W, M>(means, writer, &line)?;
        let reply = means.answer(rt, desk, &line);
        self.slept = may_sleep(&line);
        // Else the proof has a path for each kind of request with each kind of reply.
        drop(line);
        reply.is_short();
        write_reply(&reply, &mut self.held).unwrap();
        self.line.clear();
        self.count += 1;
        Ok(())
    }

    // Writes what is held back if this line's request may sleep, if that of the line before may have slept, or if its reply may have no
    // room. Else it does nothing. So no line is begun after a sleep in which the client left: that write fails.
    fn make_room<D, R, W, M: Means<D, R, W>>(
        &mut self,
        means: &mut M,
        writer: &mut W,
        line: &Result<Request, Refusal>,
    ) -> Result<(), FrontError>
        ensures ok { OnOk result (Sends self.old.held.items
            (M.contents writer.old) (M.contents writer.new) self.new.held.items) }
        ensures awake { OnOk result (MaySleep line.now → self.new.held.items ≡ []) }
        ensures woken { OnOk result (IsTrue self.old.slept → self.new.held.items ≡ []) }
        ensures room { OnOk result (vec_len self.new.held + LONGEST_REPLY ≤ MOST_HELD) }
        ensures line { OnOk result (self.new.line.items ≡ self.old.line.items) }
        ensures count { OnOk result (self.new.count ≡ self.old.count) }
        ensures err { OnErr result (AppendsPart (M.contents writer.old) (M.contents writer.new)
            self.old.held.items) }
        ensures fault { IfErr result (λ e. e ≡ FrontError.Write) }
        ensures told { Rises (M.failed_writes writer.old) (M.failed_writes writer.new)
            (write_faults result) }
        ensures paces { OnOk result (Works (M.history means.old) (M.history means.new)
            self.old.count self.old.held.items self.old.count self.new.held.items) }
        ensures lost { OnErr result (WorksOut (M.history means.old) (M.history means.new)
            self.old.count self.old.held.items) }
    {
        let has_room = self.held.len() <= MOST_HELD - LONGEST_REPLY;
        if self.slept || may_sleep(line) || !has_room {
            return self.write_held::<D, R, W, M>(means, writer);
        }
        Ok(())
    }

    // Writes what is held back, if there is something.
    fn write_held<D, R, W, M: Means<D, R, W>>(
        &mut self,
        means: &mut M,
        writer: &mut W,
    ) -> Result<(), FrontError>
        ensures ok { OnOk result (Appends (M.contents writer.old) (M.contents writer.new)
            self.old.held.items) }
        ensures held { OnOk result (self.new.held.items ≡ []) }
        ensures line { OnOk result (self.new.line.items ≡ self.old.line.items) }
        ensures count { OnOk result (self.new.count ≡ self.old.count) }
        ensures err { OnErr result (AppendsPart (M.contents writer.old) (M.contents writer.new)
            self.old.held.items) }
        ensures fault { IfErr result (λ e. e ≡ FrontError.Write) }
        ensures told { Rises (M.failed_writes writer.old) (M.failed_writes writer.new)
            (write_faults result) }
        ensures paces { OnOk result (Works (M.history means.old) (M.history means.new)
            self.old.count self.old.held.items self.old.count []) }
        ensures lost { OnErr result (WorksOut (M.history means.old) (M.history means.new)
            self.old.count self.old.held.items) }
    {
        if !self.held.is_empty() {
            means.write(writer, &self.held)?;
            self.held.clear();
        }
        Ok(())
    }
}
