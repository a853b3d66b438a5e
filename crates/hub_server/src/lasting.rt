//! Sessions one after the other, without end.
ghost use Rattle.std.specs.Prelude.{◌↔◌, IsTrue};
ghost use Rattle.hub_server.specs.Sessions.{IsEnded};
ghost use Rattle.hub_server.specs.Turns.{IsLasting, LeavesMuch};

use crate::desks::Desks;
use crate::gate::{Gate, Next};
use crate::journal::Journal;
use crate::serving::serve_session;
use hub_front::Enter;
use hub_io::{FrontError, Sink, Source};
use std::alloc::Global;
use std::sync::Wait;

/// How often a session is tried again at most if there is no memory for it. The journal waits for a moment before each try.
const AGAIN: u64 = 599;

/// A session of more lines may leave so much behind that its thread isn't kept.
const FEW_LINES: u64 = 16;

// Whether a session that ended so may have left much in what the C library keeps for its thread. It isn't known how many lines a
// session had that stopped.
fn may_leave_much(ended: Result<u64, FrontError>) -> bool
    ensures { IsTrue result ↔ LeavesMuch ended }
{
    match ended {
        Ok(lines) => lines > FEW_LINES,
        Err(FrontError::Memory) => false,
        Err(_) => true,
    }
}

/// Serves the sessions of a gate, each after the one before it has ended, until the gate is over. It also returns after a session
/// that may have left much in what the C library keeps for the thread, since the thread's end gives that back.
pub fn serve_on<H, R, W, G, O, J>(rt: &H, alloc: Global, desks: &O, gate: &mut G, journal: &mut J)
where
    H: Wait + Enter,
    R: Source + Drop,
    W: Sink + Drop,
    G: Gate<R, W>,
    O: Desks,
    J: Journal<R, W>,
    // In each turn the gate is asked once. A session that it gives is served by a desk of its own, and the journal is told what
    // exactly this session ended with, once. If the gate failed, the journal is told that, once. Nothing is asked or told after
    // the gate is over, or after a session that may have left much.
    ensures { IsLasting G.gives
        (record { numbers = J.numbers; tells = J.tells; fails = J.fails })
        (IsEnded (O.stay desks.now) (O.opens desks.now) O.asks O.ends
        (record { remaining = R.remaining; reads = R.reads; faults = R.faults })
        (record { contents = W.contents; faults = W.faults }))
        gate.old journal.old gate.new journal.new }
{
    'turns: for _ in rt.forever() {
        match gate.next(rt) {
            Next::Session(reader, writer) => {
                let ended = serve_session(rt, alloc, desks, journal, AGAIN, reader, writer);
                if may_leave_much(ended) {
                    return;
                }
            }
            Next::Failed => journal.failed(rt),
            Next::Over => return,
        }
    }
    unreachable!()
}
