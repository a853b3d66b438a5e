//! A session over a real client and a real desk.
ghost use Rattle.std.specs.Prelude.{◌≡◌, IfOk, IfErr, Err};
ghost use Rattle.hub_io.specs.Telling.{Rises};
ghost use Rattle.hub_io.specs.Faults.{read_faults, write_faults};
ghost use Rattle.hub_front.specs.Serving.{Finished, ReadsWithin, most_reads};
ghost use Rattle.hub_front.specs.declared.stay.Stay.TheVariants.{Long};
ghost use Rattle.hub_gather.specs.Gathering.{Halted, StoppedIn};

use crate::means::{Direct, Settles};
use crate::serving::serve_by;
use hub_front::{Stay, serve_within};
use hub_io::{FrontError, Sink, Source};
use hub_requests::{Desk, Enter};
use std::alloc::Global;
use std::sync::Wait;

/// Serves a session that may stay [`Long`](Stay::Long), whose replies are written in batches. The desk is ended at every outcome, once all
/// replies are written that can be. Before each read and each write, those are woken who sleep until something changes.
pub fn serve_long<H: Wait + Enter, S: Settles, D: Desk, R: Source, W: Sink>(
    rt: &H,
    alloc: Global,
    settles: &S,
    desk: &mut D,
    reader: &mut R,
    writer: &mut W,
) -> Result<u64, FrontError>
    // The texts of one reply for each line are written, however the reader cut its bytes.
    ensures finished { IfOk result (Finished D.asks D.ends desk.old desk.new
        (W.contents writer.old) (W.contents writer.new)
        (R.remaining reader.old) (R.remaining reader.new)) }
    ensures halted { IfErr result (Halted (most_reads Long) D.asks D.ends desk.old desk.new
        (W.contents writer.old) (W.contents writer.new)
        (R.remaining reader.old) (R.remaining reader.new)) }

    // Memory is allocated before the first read.
    ensures memory { result ≡ Err FrontError.Memory → (reader.new ≡ reader.old)
        × (writer.new ≡ writer.old) }

    // It makes no more reads than it may. An error is reported if its fault was counted, and only then.
    ensures reads { ReadsWithin (most_reads Long) (R.reads reader.old) (R.reads reader.new) result }
    ensures read_faults { Rises (R.faults reader.old) (R.faults reader.new) (read_faults result) }
    ensures write_faults { Rises (W.faults writer.old) (W.faults writer.new) (write_faults result) }
{
    let served = serve_by::<H, D, R, W, Direct<'_, S>>(
        rt,
        alloc,
        Stay::Long,
        &mut Direct::new(settles),
        desk,
        reader,
        writer,
    );
    desk.end(rt);
    served
}

/// Serves a session that may stay so long. Each reply of a short one is written by itself ([`serve_within`]), and those of a long one are
/// written in batches ([`serve_long`]). The desk is ended at every outcome.
pub fn serve_staying<H: Wait + Enter, S: Settles, D: Desk, R: Source, W: Sink>(
    rt: &H,
    alloc: Global,
    stay: Stay,
    settles: &S,
    desk: &mut D,
    reader: &mut R,
    writer: &mut W,
) -> Result<u64, FrontError>
    ensures finished { IfOk result (Finished D.asks D.ends desk.old desk.new
        (W.contents writer.old) (W.contents writer.new)
        (R.remaining reader.old) (R.remaining reader.new)) }
    ensures stopped { IfErr result (StoppedIn stay D.asks D.ends desk.old desk.new
        (W.contents writer.old) (W.contents writer.new)
        (R.remaining reader.old) (R.remaining reader.new)) }
    ensures memory { result ≡ Err FrontError.Memory → (reader.new ≡ reader.old)
        × (writer.new ≡ writer.old) }
    ensures reads { ReadsWithin (most_reads stay) (R.reads reader.old) (R.reads reader.new) result }
    ensures read_faults { Rises (R.faults reader.old) (R.faults reader.new) (read_faults result) }
    ensures write_faults { Rises (W.faults writer.old) (W.faults writer.new) (write_faults result) }
{
    match stay {
        Stay::Short => serve_within(rt, alloc, stay, desk, reader, writer),
        Stay::Long => serve_long(rt, alloc, settles, desk, reader, writer),
    }
}
