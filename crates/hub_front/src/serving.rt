//! A session from its first read to its end.
ghost use Rattle.std.specs.Prelude.{◌≡◌, ◌≢◌, ◌+◌, ◌*◌, ◌≤◌, List, ℕ, [], length, Err, OnOk, IfOk, IfErr, vec_len};
ghost use Rattle.std.specs.Io.KnownBytes.{Consumes, IsAtEnd};
ghost use Rattle.hub_io.specs.Lines.{lines_of};
ghost use Rattle.hub_io.specs.Telling.{Rises};
ghost use Rattle.hub_io.specs.Faults.{read_faults, write_faults};
ghost use Rattle.hub_front.specs.Serving.{Finished, Stopped, StopsAt, Served, ReadsWithin, most_reads};
ghost use Rattle.hub_front.specs.Pieces.{IsUnderWay};

use crate::session::Session;
use crate::stay::{MANY_READS, Stay};
use hub_io::{CHUNK, FrontError, MAX_READS, Sink, Source, new_chunk};
use hub_requests::{Desk, Enter};
use std::alloc::{AllocError, Global};
use std::sync::Wait;

// Serves the lines that end in an LF, until the input ends.
fn serve_reads<H: Wait + Enter, D: Desk, R: Source, W: Sink>(
    rt: &H,
    reads: u64,
    desk: &mut D,
    reader: &mut R,
    writer: &mut W,
    session: &mut Session,
    chunk: &mut [u8],
) -> Result<(), FrontError>
    requires line { session.old.line.items ≡ [] }
    requires count { session.old.count ≡ 0 }
    requires some { 1 ≤ length chunk.old }
    requires chunk { length chunk.old ≤ CHUNK }
    requires most { reads ≤ MANY_READS }
    ensures under_way { OnOk result (IsUnderWay D.asks desk.old desk.new
        (W.contents writer.old) (W.contents writer.new)
        (R.remaining reader.old) (R.remaining reader.new)
        session.new.line.items session.new.count 0) }
    ensures few { OnOk result (session.new.count ≤ reads * CHUNK) }
    ensures end { OnOk result (IsAtEnd (R.remaining reader.new)) }
    ensures err { IfErr result (λ e. (input : List ℕ)
        × Consumes (R.remaining reader.old) (R.remaining reader.new) input
        × StopsAt reads D.asks desk.old input (W.contents writer.old) (W.contents writer.new)
        (R.remaining reader.new) desk.new e) }
    ensures memory { result ≢ Err FrontError.Memory }
    ensures reads { ReadsWithin reads (R.reads reader.old) (R.reads reader.new) result }
    ensures read_faults { Rises (R.faults reader.old) (R.faults reader.new) (read_faults result) }
    ensures write_faults { Rises (W.faults writer.old) (W.faults writer.new) (write_faults result) }
{
    'reads: for _read in 0..reads {
        let n = match reader.pull(chunk) {
            Err(_) => return Err(FrontError::Read),
            Ok(0) => return Ok(()),
            Ok(n) => n,
        };
        session.take_bytes(rt, desk, writer, &chunk[..n])?;
    }
    Err(FrontError::Turns)
}

// Serves all lines of the input, the last one too if it has no LF.
fn serve_lines<H: Wait + Enter, D: Desk, R: Source, W: Sink>(
    rt: &H,
    alloc: Global,
    stay: Stay,
    desk: &mut D,
    reader: &mut R,
    writer: &mut W,
) -> Result<u64, FrontError>
    ensures ok { IfOk result (λ n. (input : List ℕ)
        × Consumes (R.remaining reader.old) (R.remaining reader.new) input
        × IsAtEnd (R.remaining reader.new) × (n ≡ length (lines_of input))
        × Served D.asks desk.old (lines_of input)
        (W.contents writer.old) (W.contents writer.new) desk.new) }
    ensures err { IfErr result (λ e. (input : List ℕ)
        × Consumes (R.remaining reader.old) (R.remaining reader.new) input
        × StopsAt (most_reads stay) D.asks desk.old input
        (W.contents writer.old) (W.contents writer.new) (R.remaining reader.new) desk.new e) }
    ensures memory { result ≡ Err FrontError.Memory → (reader.new ≡ reader.old)
        × (writer.new ≡ writer.old) }
    ensures reads { ReadsWithin (most_reads stay) (R.reads reader.old) (R.reads reader.new) result }
    ensures read_faults { Rises (R.faults reader.old) (R.faults reader.new) (read_faults result) }
    ensures write_faults { Rises (W.faults writer.old) (W.faults writer.new) (write_faults result) }
{
    let mut session = Session::new(alloc)?;
    let mut chunk = new_chunk(alloc, stay.chunk())?;
    serve_reads(
        rt,
        stay.reads(),
        desk,
        reader,
        writer,
        &mut session,
        &mut chunk,
    )?;
    session.finish(rt, desk, writer)
}

/// Serves lines until the end of the input, or until the last read that the session may make, and returns how many they
/// were. Each reply is written whole, by itself, before the next line is answered. The desk is ended at every outcome.
pub fn serve_within<H: Wait + Enter, D: Desk, R: Source, W: Sink>(
    rt: &H,
    alloc: Global,
    stay: Stay,
    desk: &mut D,
    reader: &mut R,
    writer: &mut W,
) -> Result<u64, FrontError>
    // The texts of one reply for each line are written, however the reader cut its bytes.
    ensures finished { IfOk result (Finished D.asks D.ends desk.old desk.new
        (W.contents writer.old) (W.contents writer.new)
        (R.remaining reader.old) (R.remaining reader.new)) }
    ensures stopped { IfErr result (Stopped (most_reads stay) D.asks D.ends desk.old desk.new
        (W.contents writer.old) (W.contents writer.new)
        (R.remaining reader.old) (R.remaining reader.new)) }

    // Memory is allocated before the first read.
    ensures memory { result ≡ Err FrontError.Memory → (reader.new ≡ reader.old)
        × (writer.new ≡ writer.old) }

    // It makes no more reads than it may. An error is reported if its fault was counted, and only then.
    ensures reads { ReadsWithin (most_reads stay) (R.reads reader.old) (R.reads reader.new) result }
    ensures read_faults { Rises (R.faults reader.old) (R.faults reader.new) (read_faults result) }
    ensures write_faults { Rises (W.faults writer.old) (W.faults writer.new) (write_faults result) }
{
    let served = serve_lines(rt, alloc, stay, desk, reader, writer);
    desk.end(rt);
    served
}

/// Serves a session that may stay [`Short`](Stay::Short): [`serve_within`] at most [`MAX_READS`] reads.
pub fn serve<H: Wait + Enter, D: Desk, R: Source, W: Sink>(
    rt: &H,
    alloc: Global,
    desk: &mut D,
    reader: &mut R,
    writer: &mut W,
) -> Result<u64, FrontError>
    // The texts of one reply for each line are written, however the reader cut its bytes.
    ensures finished { IfOk result (Finished D.asks D.ends desk.old desk.new
        (W.contents writer.old) (W.contents writer.new)
        (R.remaining reader.old) (R.remaining reader.new)) }
    ensures stopped { IfErr result (Stopped MAX_READS D.asks D.ends desk.old desk.new
        (W.contents writer.old) (W.contents writer.new)
        (R.remaining reader.old) (R.remaining reader.new)) }

    // Memory is allocated before the first read.
    ensures memory { result ≡ Err FrontError.Memory → (reader.new ≡ reader.old)
        × (writer.new ≡ writer.old) }

    // It makes at most `MAX_READS` reads. An error is reported if its fault was counted, and only then.
    ensures reads { ReadsWithin MAX_READS (R.reads reader.old) (R.reads reader.new) result }
    ensures read_faults { Rises (R.faults reader.old) (R.faults reader.new) (read_faults result) }
    ensures write_faults { Rises (W.faults writer.old) (W.faults writer.new) (write_faults result) }
{
    serve_within(rt, alloc, Stay::Short, desk, reader, writer)
}
