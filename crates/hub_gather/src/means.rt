//! What a session may do with its client and its desk.
ghost use Rattle.std.specs.Prelude.{◌≡◌, ℕ, ◌<◌, List, [], ◌∷◌, length, Option, None, IfOk, IfErr, OnOk, OnErr};
ghost use Rattle.std.specs.Io.{ReadsAtMost};
ghost use Rattle.std.specs.Io.KnownBytes.{Appends, ReadConsumes};
ghost use Rattle.hub_requests.specs.Ranges.{IsInRange};
ghost use Rattle.hub_io.specs.Faults.{AppendsPart, write_faults};
ghost use Rattle.hub_io.specs.Telling.{Rises, faults_of_read};
ghost use Rattle.hub_front.specs.Serving.{Asking, AnswersRead};
ghost use Rattle.hub_gather.specs.Steps.{Step, Read, Answered, Wrote, Adds, AddsPart, bytes_read};

use hub_io::{FrontError, Sink, Source, write_whole};
use hub_requests::{Desk, Enter, Refusal, Reply, Request};
use std::io;
use std::sync::Wait;

/// All that a session may do with its desk, its reader and its writer. Each call is a step of one history, so a contract can say in
/// which order a session reads, answers and writes.
pub trait Means<D, R, W> {
    /// How the desk answers.
    ghost asks: { Asking D };

    /// The bytes that the reader has left, if they are known.
    ghost remaining: { R → Option (List ℕ) };

    /// How many reads were made, if that is known, and how many of them failed.
    ghost reads: { R → Option ℕ };

    ghost failed_reads: { R → Option ℕ };

    /// The bytes that the writer has got, if they are known.
    ghost contents: { W → Option (List ℕ) };

    /// How many writes have failed or taken no byte, if that is known.
    ghost failed_writes: { W → Option ℕ };

    /// What was done so far, in order, if that is known.
    ghost history: { Self → Option (List Step) };

    /// Reads once.
    fn read(&mut self, reader: &mut R, buf: &mut [u8]) -> io::Result<usize>
        ensures bound { ReadsAtMost result buf.new }
        ensures bytes { ReadConsumes (remaining reader.old) (remaining reader.new) result buf.new }
        ensures counted { Rises (reads reader.old) (reads reader.new) 1 }
        ensures told { Rises (failed_reads reader.old) (failed_reads reader.new)
            (faults_of_read result) }
        ensures step { Adds (history self.old) (history self.new)
            (Read (bytes_read result buf.new) ∷ []) };

    /// Answers a line: the desk answers the request that it spells, or the line is refused by the rule that it breaks.
    fn answer<H: Wait + Enter>(
        &mut self,
        rt: &H,
        desk: &mut D,
        line: &Result<Request, Refusal>,
    ) -> Reply
        requires { IfOk line.now IsInRange }
        ensures answer { AnswersRead asks desk.old line.now result desk.new }
        ensures step { Adds (history self.old) (history self.new) (Answered line.now result ∷ []) };

    /// Writes all of the bytes. It stops if the writer fails or takes no byte, and a prefix of the bytes is then written.
    fn write(&mut self, writer: &mut W, bytes: &[u8]) -> Result<(), FrontError>
        ensures ok { OnOk result (Appends (contents writer.old) (contents writer.new) bytes.now) }
        ensures err { OnErr result (AppendsPart (contents writer.old)
            (contents writer.new) bytes.now) }
        ensures fault { IfErr result (λ e. e ≡ FrontError.Write) }
        ensures told { Rises (failed_writes writer.old) (failed_writes writer.new)
            (write_faults result) }
        ensures step { OnOk result (Adds (history self.old) (history self.new)
            (Wrote bytes.now ∷ [])) }
        ensures part { OnErr result (AddsPart (history self.old) (history self.new) bytes.now) };
}

/// What wakes those who sleep until something changes that a session has changed.
pub trait Settles {
    /// Wakes them, if the session's requests don't.
    fn settle(&self);
}

/// Nobody sleeps, or each request wakes them.
#[derive(Clone, Copy, Debug, Drop)]
pub struct Awake;

impl Settles for Awake {
    fn settle(&self) {}
}

/// A real desk, reader and writer. Their history isn't known. Before each read and each write, which may wait for the client, those are
/// woken who sleep until something changes that the session has changed.
#[derive(Drop)]
pub struct Direct<'a, S> {
    settles: &'a S,
}

impl<S> Direct<'_, S> {
    pub(crate) fn new(settles: &S) -> Direct<'_, S> {
        Direct { settles }
    }
}

impl<D: Desk, R: Source, W: Sink, S: Settles> Means<D, R, W> for Direct<'_, S> {
    ghost asks = { D.asks };

    ghost remaining = { R.remaining };

    ghost reads = { R.reads };

    ghost failed_reads = { R.faults };

    ghost contents = { W.contents };

    ghost failed_writes = { W.faults };

    ghost history = { λ _. None };

    fn read(&mut self, reader: &mut R, buf: &mut [u8]) -> io::Result<usize> {
        self.settles.settle();
        reader.pull(buf)
    }

    fn answer<H: Wait + Enter>(
        &mut self,
        rt: &H,
        desk: &mut D,
        line: &Result<Request, Refusal>,
    ) -> Reply {
        match line {
            Ok(request) => desk.ask(rt, request),
            Err(refusal) => Reply::No(*refusal),
        }
    }

    fn write(&mut self, writer: &mut W, bytes: &[u8]) -> Result<(), FrontError> {
        self.settles.settle();
        write_whole(writer, bytes)
    }
}
