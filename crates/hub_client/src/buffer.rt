//! A buffer between a reader and a writer.
ghost use Rattle.std.specs.Prelude.{◌≡◌, ◌+◌, ◌-◌, ◌<◌, ◌≤◌, List, ℕ, [], ◌++◌, length, take, false, OnErr, IfOk, IfErr, MatchBool, vec_len};
ghost use Rattle.std.specs.Io.KnownBytes.{Appends, IsAtEnd};
ghost use Rattle.hub_io.specs.declared.reading.TheConstants.{CHUNK};
ghost use Rattle.hub_io.specs.Telling.{Rises};
ghost use Rattle.hub_io.specs.Faults.{read_faults, write_faults};
ghost use Rattle.hub_io.specs.Lines.{has_lf, IsLine};
ghost use Rattle.hub_client.specs.Passing.{Moves, slack_at, slack_when, EndsWhen, ComesAs, FailsAs, IsReady, IsShort};

use hub_io::{CHUNK, FrontError, Sink, Source, first_line, new_chunk, write_whole};
use std::alloc::{AllocError, Global};

/// What comes of a step between a reader and a writer.
pub(crate) type Fallible<T> = Result<T, FrontError>;

// What a read gave.
#[derive(Clone, Copy, Debug, PartialEq, Eq)]
enum Came {
    // Bytes with an LF among them.
    Lf,
    // Bytes without an LF.
    Bytes,
    // No byte: the stream has ended.
    End,
}

/// Bytes that were read and not passed on yet. They are from `start` to `end`.
#[derive(Drop)]
pub(crate) struct Buffer {
    bytes: Vec<u8>,
    start: usize,
    end: usize,
    ghost ordered: { start ≤ end },
    ghost within: { end ≤ vec_len bytes },
    ghost size: { vec_len bytes ≡ CHUNK },
}

// Whether there is an LF among the bytes.
#[tactic(auto, using(crate::proofs::Pieces::some_is))]
fn has_line(bytes: &[u8]) -> bool
    ensures { result ≡ has_lf bytes.now }
{
    first_line(bytes).is_some()
}

// How many bytes there are up to the first LF and including it, or in all, and whether there is an LF.
#[tactic(auto, using(crate::proofs::Pieces::line_within, crate::proofs::Pieces::line_piece))]
fn first_piece(bytes: &[u8]) -> (usize, bool)
    ensures piece { MatchBool result.1 (IsLine (take result.0 bytes.now))
        ((has_lf bytes.now ≡ false) × (result.0 ≡ length bytes.now)) }
    ensures within { result.0 ≤ length bytes.now }
{
    match first_line(bytes) {
        Some((line, _)) => (line.len() + 1, true),
        None => (bytes.len(), false),
    }
}

// Reads once, unless no read is left.
fn read_once<R: Source>(bytes: &mut [u8], reader: &mut R, left: &mut u64) -> Fallible<usize>
    requires some { 1 ≤ length bytes.old }
    requires few { length bytes.old ≤ CHUNK }
    ensures ok { IfOk result (λ n. (n ≤ length bytes.new) × (left.new < left.old)
        × Moves (R.remaining reader.old) (R.remaining reader.new)
        (R.reads reader.old) (R.reads reader.new)
        [] (take n bytes.new) left.old left.new (1 - n) []
        × (n ≡ 0 → IsAtEnd (R.remaining reader.new))) }
    ensures err { IfErr result (λ e.
        Moves (R.remaining reader.old) (R.remaining reader.new)
        (R.reads reader.old) (R.reads reader.new)
        [] [] left.old left.new (slack_at e) [] × FailsAs e [] left.new) }
    ensures told { Rises (R.faults reader.old) (R.faults reader.new) (read_faults result) }
{
    if *left == 0 {
        return Err(FrontError::Turns);
    }
    *left -= 1;
    match reader.pull(bytes) {
        Err(_) => Err(FrontError::Read),
        Ok(n) => Ok(n),
    }
}

impl Buffer {
    ghost use Rattle.hub_client.specs.Pending.{pending};

    pub(crate) fn new(alloc: Global) -> Result<Buffer, AllocError>
        ensures { IfOk result (λ buffer. pending buffer ≡ []) }
    {
        let bytes = new_chunk(alloc, CHUNK)?;
        Ok(Buffer {
            bytes,
            start: 0,
            end: 0,
        })
    }

    /// Reads on until an LF is pending or the buffer is full. Returns whether that came before the stream's end.
    pub(crate) fn gather<R: Source>(&mut self, reader: &mut R, left: &mut u64) -> Fallible<bool>
        ensures ok { IfOk result (λ ready. MatchBool ready
            (Moves (R.remaining reader.old) (R.remaining reader.new)
            (R.reads reader.old) (R.reads reader.new) (pending self.old) (pending self.new)
            left.old left.new 0 [] × IsReady (pending self.new))
            (Moves (R.remaining reader.old) (R.remaining reader.new)
            (R.reads reader.old) (R.reads reader.new) (pending self.old) (pending self.new)
            left.old left.new 1 [] × IsShort (pending self.new)
            × IsAtEnd (R.remaining reader.new))) }
        ensures err { IfErr result (λ e.
            Moves (R.remaining reader.old) (R.remaining reader.new)
            (R.reads reader.old) (R.reads reader.new) (pending self.old) (pending self.new)
            left.old left.new (slack_at e) [] × FailsAs e [] left.new
            × IsShort (pending self.new)) }
        ensures told { Rises (R.faults reader.old) (R.faults reader.new) (read_faults result) }
    {
        if has_line(&self.bytes[self.start..self.end]) {
            return Ok(true);
        }
        self.move_to_front();
        'reads: while self.end < CHUNK {
            match self.read_on(reader, left)? {
                Came::End => return Ok(false),
                Came::Lf => return Ok(true),
                Came::Bytes => {}
            }
        }
        Ok(true)
    }

    fn move_to_front(&mut self)
        ensures kept { pending self.new ≡ pending self.old }
        ensures front { self.new.start ≡ 0 }
    {
        let (start, end) = (self.start, self.end);
        self.bytes.copy_within(start..end, 0);
        self.start = 0;
        self.end = end - start;
    }

    // Reads once, and puts the bytes after those that are pending.
    fn read_on<R: Source>(&mut self, reader: &mut R, left: &mut u64) -> Fallible<Came>
        requires room { self.old.end < CHUNK }
        ensures ok { IfOk result (λ came.
            (moved : Moves (R.remaining reader.old) (R.remaining reader.new)
            (R.reads reader.old) (R.reads reader.new) (pending self.old) (pending self.new)
            left.old left.new (slack_when came) [])
            × ComesAs came moved.bytes × EndsWhen came (R.remaining reader.new)
            × (left.new < left.old)) }
        ensures err { IfErr result (λ e.
            Moves (R.remaining reader.old) (R.remaining reader.new)
            (R.reads reader.old) (R.reads reader.new) (pending self.old) (pending self.new)
            left.old left.new (slack_at e) [] × FailsAs e [] left.new) }
        ensures front { self.new.start ≡ self.old.start }
        ensures kept { OnErr result (pending self.new ≡ pending self.old) }
        ensures told { Rises (R.faults reader.old) (R.faults reader.new) (read_faults result) }
    {
        let end = self.end;
        let n = read_once(&mut self.bytes[end..], reader, left)?;
        self.end = end + n;
        Ok(Came::of(&self.bytes[end..end + n]))
    }

    /// Reads once if nothing is pending. Returns whether there is a byte to pass on: there is none if the stream has
    /// ended.
    pub(crate) fn fill<R: Source>(&mut self, reader: &mut R, left: &mut u64) -> Fallible<bool>
        ensures ok { IfOk result (λ ready. MatchBool ready
            (Moves (R.remaining reader.old) (R.remaining reader.new)
            (R.reads reader.old) (R.reads reader.new) (pending self.old) (pending self.new)
            left.old left.new 0 []
            × (1 ≤ length (pending self.new)) × (left.new < left.old + length (pending self.old)))
            (Moves (R.remaining reader.old) (R.remaining reader.new)
            (R.reads reader.old) (R.reads reader.new)
            (pending self.old) [] left.old left.new 1 []
            × (pending self.new ≡ []) × IsAtEnd (R.remaining reader.new))) }
        ensures err { IfErr result (λ e.
            Moves (R.remaining reader.old) (R.remaining reader.new)
            (R.reads reader.old) (R.reads reader.new)
            (pending self.old) [] left.old left.new (slack_at e) [] × FailsAs e [] left.new) }
        ensures told { Rises (R.faults reader.old) (R.faults reader.new) (read_faults result) }
    {
        if self.start < self.end {
            return Ok(true);
        }
        let n = read_once(&mut self.bytes, reader, left)?;
        self.start = 0;
        self.end = n;
        Ok(n > 0)
    }

    /// Passes the pending bytes on, up to the first LF and including it. Returns whether there was one.
    pub(crate) fn pass_piece<W: Sink>(&mut self, writer: &mut W) -> Fallible<bool>
        ensures ok { IfOk result (λ whole. (piece : List ℕ)
            × (pending self.old ≡ piece ++ pending self.new)
            × MatchBool whole (IsLine piece) ((has_lf piece ≡ false) × (pending self.new ≡ []))
            × Appends (W.contents writer.old) (W.contents writer.new) piece) }
        ensures err { OnErr result ((piece rest : List ℕ) × (pending self.old ≡ piece ++ rest)
            × (1 ≤ length rest)
            × (has_lf piece ≡ false)
            × Appends (W.contents writer.old) (W.contents writer.new) piece) }
        ensures fault { IfErr result (λ e. e ≡ FrontError.Write) }
        ensures told { Rises (W.faults writer.old) (W.faults writer.new) (write_faults result) }
    {
        let pending = &self.bytes[self.start..self.end];
        let (size, whole) = first_piece(pending);
        write_whole(writer, &pending[..size])?;
        self.start += size;
        Ok(whole)
    }
}

impl Came {
    fn of(bytes: &[u8]) -> Came
        ensures { ComesAs result bytes.now }
    {
        if bytes.is_empty() {
            Came::End
        } else if has_line(bytes) {
            Came::Lf
        } else {
            Came::Bytes
        }
    }
}
