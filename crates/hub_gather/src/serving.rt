//! A session from its first read to its end, by the means that it is given.
ghost use Rattle.std.specs.Prelude.{◌≡◌, ◌≢◌, ◌*◌, ◌≤◌, List, ℕ, [], length, Err, OnOk, IfOk, IfErr};
ghost use Rattle.std.specs.Io.KnownBytes.{Consumes, IsAtEnd};
ghost use Rattle.hub_io.specs.Lines.{lines_of};
ghost use Rattle.hub_io.specs.Telling.{Rises};
ghost use Rattle.hub_io.specs.Faults.{read_faults, write_faults};
ghost use Rattle.hub_front.specs.Serving.{Served, ReadsWithin, most_reads};
ghost use Rattle.hub_front.specs.Pieces.{IsUnderWay};
ghost use Rattle.hub_gather.specs.Gathering.{HaltsAt};
ghost use Rattle.hub_gather.specs.Passing.{PacesUntil, at};
ghost use Rattle.hub_gather.specs.Steps.{EndsPrompt};

use crate::batch::Batch;
use crate::means::Means;
use hub_front::{MANY_READS, Stay};
use hub_io::{CHUNK, FrontError, new_chunk};
use hub_requests::Enter;
use std::alloc::{AllocError, Global};
use std::sync::Wait;

// Serves the lines that end in an LF, until the input ends. After each read all replies are written.
fn serve_reads<H: Wait + Enter, D, R, W, M: Means<D, R, W>>(
    rt: &H,
    reads: u64,
    means: &mut M,
    desk: &mut D,
    reader: &mut R,
    writer: &mut W,
    batch: &mut Batch,
    chunk: &mut [u8],
) -> Result<(), FrontError>
    requires line { batch.old.line.items ≡ [] }
    requires held { batch.old.held.items ≡ [] }
    requires count { batch.old.count ≡ 0 }
    requires some { 1 ≤ length chunk.old }
    requires chunk { length chunk.old ≤ CHUNK }
    requires most { reads ≤ MANY_READS }
    ensures under_way { OnOk result (IsUnderWay M.asks desk.old desk.new
        (M.contents writer.old) (M.contents writer.new)
        (M.remaining reader.old) (M.remaining reader.new)
        batch.new.line.items batch.new.count 0) }
    ensures held { OnOk result (batch.new.held.items ≡ []) }
    ensures few { OnOk result (batch.new.count ≤ reads * CHUNK) }
    ensures end { OnOk result (IsAtEnd (M.remaining reader.new)) }
    ensures err { IfErr result (λ e. (input : List ℕ)
        × Consumes (M.remaining reader.old) (M.remaining reader.new) input
        × HaltsAt reads M.asks desk.old input (M.contents writer.old) (M.contents writer.new)
        (M.remaining reader.new) desk.new e) }
    ensures memory { result ≢ Err FrontError.Memory }
    ensures reads { ReadsWithin reads (M.reads reader.old) (M.reads reader.new) result }
    ensures failed_reads { Rises (M.failed_reads reader.old) (M.failed_reads reader.new)
        (read_faults result) }
    ensures failed_writes { Rises (M.failed_writes writer.old) (M.failed_writes writer.new)
        (write_faults result) }
    ensures paces { PacesUntil (M.history means.old) (M.history means.new)
        (at 0 0 []) (at batch.new.count batch.new.count []) result }
{
    'reads: for _read in 0..reads {
        let n = match means.read(reader, chunk) {
            Err(_) => return Err(FrontError::Read),
            Ok(0) => return Ok(()),
            Ok(n) => n,
        };
        batch.take_bytes::<H, D, R, W, M>(rt, means, desk, writer, &chunk[..n])?;
    }
    Err(FrontError::Turns)
}

/// Serves lines until the end of the input, or until the last read that the session may make, and returns how many they were. The
/// replies are written in batches. The desk isn't ended.
pub fn serve_by<H: Wait + Enter, D, R, W, M: Means<D, R, W>>(
    rt: &H,
    alloc: Global,
    stay: Stay,
    means: &mut M,
    desk: &mut D,
    reader: &mut R,
    writer: &mut W,
) -> Result<u64, FrontError>
    // The texts of one reply for each line are written, however the reader cut its bytes.
    ensures ok { IfOk result (λ n. (input : List ℕ)
        × Consumes (M.remaining reader.old) (M.remaining reader.new) input
        × IsAtEnd (M.remaining reader.new) × (n ≡ length (lines_of input))
        × Served M.asks desk.old (lines_of input)
        (M.contents writer.old) (M.contents writer.new) desk.new) }
    ensures err { IfErr result (λ e. (input : List ℕ)
        × Consumes (M.remaining reader.old) (M.remaining reader.new) input
        × HaltsAt (most_reads stay) M.asks desk.old input
        (M.contents writer.old) (M.contents writer.new) (M.remaining reader.new) desk.new e) }

    // Whatever the means are, all replies so far were written before each read and before each request that may sleep.
    ensures prompt { EndsPrompt (M.history means.old) (M.history means.new) result }

    // Memory is allocated before the first read.
    ensures memory { result ≡ Err FrontError.Memory → (reader.new ≡ reader.old)
        × (writer.new ≡ writer.old) }

    // It makes no more reads than it may. An error is reported if its fault was counted, and only then.
    ensures reads { ReadsWithin (most_reads stay) (M.reads reader.old) (M.reads reader.new) result }
    ensures failed_reads { Rises (M.failed_reads reader.old) (M.failed_reads reader.new)
        (read_faults result) }
    ensures failed_writes { Rises (M.failed_writes writer.old) (M.failed_writes writer.new)
        (write_faults result) }
{
    let mut batch = Batch::new(alloc)?;
    let mut chunk = new_chunk(alloc, stay.chunk())?;
    serve_reads::<H, D, R, W, M>(
        rt,
        stay.reads(),
        means,
        desk,
        reader,
        writer,
        &mut batch,
        &mut chunk,
    )?;
    batch.finish::<H, D, R, W, M>(rt, means, desk, writer)
}
