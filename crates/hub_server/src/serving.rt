//! One session: it is served, told to a journal, and closed.
ghost use Rattle.hub_server.specs.Sessions.{IsEnded};
ghost use Rattle.hub_server.specs.Turns.{IsTold};

use crate::desks::Desks;
use crate::journal::Journal;
use crate::promise::Session;
use hub_front::Enter;
use hub_io::{FrontError, Sink, Source};
use std::alloc::Global;
use std::snapshot::Snapshot;
use std::sync::Wait;

/// Serves one session by a desk of its own, and tells the journal how it ended. If there was no memory for its desk and its buffers,
/// nothing of it was read, and it is tried again, at most `again` times: its client waits, and isn't turned away. The journal learns
/// of each such try. The session's reader and writer are dropped here.
pub(crate) fn serve_session<H, R, W, O, J>(
    rt: &H,
    alloc: Global,
    desks: &O,
    journal: &mut J,
    again: u64,
    mut reader: R,
    mut writer: W,
) -> Result<u64, FrontError>
where
    H: Wait + Enter,
    R: Source + Drop,
    W: Sink + Drop,
    O: Desks,
    J: Journal<R, W>,
    ensures { IsTold (record { numbers = J.numbers; tells = J.tells; fails = J.fails }) again
        (IsEnded (O.stay desks.now) (O.opens desks.now) O.asks O.ends
        (record { remaining = R.remaining; reads = R.reads; faults = R.faults })
        (record { contents = W.contents; faults = W.faults }))
        reader writer result journal.old journal.new }
{
    let session = Session {
        desks: Snapshot::of(desks),
        reader: Snapshot::of(&reader),
        writer: Snapshot::of(&writer),
    };
    let number = journal.begins();
    let mut ended = desks.serve(rt, alloc, &mut reader, &mut writer);
    'tries: for _try in 0..again {
        let Err(FrontError::Memory) = ended else {
            break;
        };
        journal.failed(rt);
        ended = desks.serve(rt, alloc, &mut reader, &mut writer);
    }
    journal.ended(rt, number, &session, ended, &reader, &writer);
    ended
}
