//! Sessions at the same time.
ghost use Rattle.std.specs.Prelude.{◌≡◌, ◌≤◌, [], IfOk, IfErr, OnOk, vec_len};
ghost use Rattle.hub_server.specs.Gates.{IsAsked, StopsEarly, ThenCloses};
ghost use Rattle.hub_server.specs.Promised.{AreOver, streams_of};
ghost use Rattle.hub_server.specs.Reports.{IsReport};
ghost use Rattle.hub_server.specs.Sessions.{IsResult};

use crate::desks::Desks;
use crate::gate::{Gate, Next};
use crate::journal::Untold;
use crate::promise::Session;
use crate::serving::serve_session;
use crate::started::{Started, join_over, results_of};
use hub_front::Enter;
use hub_io::{FrontError, Sink, Source};
use hub_reports::{NoThread, Report, ServeError, spawn_with};
use std::alloc::{AllocError, Global};
use std::snapshot::Snapshot;
use std::sync::atomic::{AtomicBool, Ordering};
use std::sync::{Arc, Wait};
use std::thread::Threads;

type Running<R, W, O> = Started<Result<u64, FrontError>, Session<R, W, O>>;

// Serves one session, of which no journal learns. Its share of the desks is dropped here too.
fn serve_untold<H: Wait + Enter + Drop, R: Source + Drop, W: Sink + Drop, O: Desks + Drop>(
    rt: H,
    alloc: Global,
    desks: O,
    reader: R,
    writer: W,
) -> Result<u64, FrontError>
    ensures { IsResult (O.stay desks) (O.opens desks) O.asks O.ends
        (record { remaining = R.remaining; reads = R.reads; faults = R.faults })
        (record { contents = W.contents; faults = W.faults })
        reader writer result }
{
    serve_session(&rt, alloc, &desks, &mut Untold, 0, reader, writer)
}

type Flag = Arc<AtomicBool, Global>;

// A flag that isn't set, for its thread and for who starts that.
fn new_flag(alloc: Global) -> Result<(Flag, Flag), AllocError> {
    let flag = Arc::new(alloc, AtomicBool::new(false))?;
    let told = Arc::try_clone(&flag)?;
    Ok((flag, told))
}

// Starts the thread of one session. The thread sets the flag as its last step.
fn start<H, R, W, O>(
    rt: &H,
    alloc: Global,
    desks: O,
    flag: (Flag, Flag),
    reader: R,
    writer: W,
) -> Result<Running<R, W, O>, NoThread>
where
    H: Threads + Wait + Enter + Copy + Send + 'static,
    R: Source + Send + Drop + 'static,
    W: Sink + Send + Drop + 'static,
    O: Desks + Send + Drop + 'static,
    ensures reader { IfOk result (λ started. started.reader.value ≡ reader) }
    ensures writer { IfOk result (λ started. started.writer.value ≡ writer) }
    ensures desks { IfOk result (λ started. started.desks.value ≡ desks) }
{
    let own = *rt;
    let (is_over, told) = flag;
    let session = Session {
        desks: Snapshot::of(&desks),
        reader: Snapshot::of(&reader),
        writer: Snapshot::of(&writer),
    };
    let began = Snapshot::of(&session);
    let thread = spawn_with(rt, session, move || {
        let result = serve_untold(own, alloc, desks, reader, writer);
        told.store(true, Ordering::Release);
        result
    })?;
    Ok(Started::new(began, thread, is_over))
}

// Starts the sessions that the gate gives, each as it comes. Returns whether the gate failed. It joins the threads that
// are over before it asks for the next session.
fn start_all<H, R, W, G, O>(
    rt: &H,
    alloc: Global,
    desks: &O,
    gate: &mut G,
    sessions: u64,
    started: &mut Vec<Running<R, W, O>>,
) -> Result<bool, ServeError>
where
    H: Threads + Wait + Enter + Copy + Send + 'static,
    R: Source + Send + Drop + 'static,
    W: Sink + Send + Drop + 'static,
    G: Gate<R, W>,
    O: Desks + Send + Drop + 'static,
    requires { started.old.items ≡ [] }
    ensures ok { IfOk result (λ failed. IsAsked
        G.gives sessions gate.old (streams_of started.new.items) failed gate.new) }
    ensures over { OnOk result (AreOver O.opens O.stay desks.now started.new.items) }
    ensures err { IfErr result (StopsEarly G.gives sessions gate.old gate.new) }
{
    'sessions: for _session in 0..sessions {
        join_over(rt, started);
        let room = started.reserve(1);
        let (Ok(()), Ok(own), Ok(flag)) = (room, desks.share(), new_flag(alloc)) else {
            return Err(ServeError::Memory);
        };
        match gate.next(rt) {
            Next::Session(reader, writer) => {
                let session = start(rt, alloc, own, flag, reader, writer)?;
                started.push_reserved(session);
            }
            Next::Failed => return Ok(true),
            Next::Over => return Ok(false),
        }
    }
    Ok(false)
}

/// Asks the gate for at most this many sessions, and serves each on a thread of its own, by a desk of its own. All run
/// at the same time, and all have ended when it returns. At an error their results are lost.
pub fn serve_each<H, R, W, G, O>(
    rt: &H,
    alloc: Global,
    desks: &O,
    gate: &mut G,
    sessions: u64,
) -> Result<Report, ServeError>
where
    H: Threads + Wait + Enter + Copy + Send + 'static,
    R: Source + Send + Drop + 'static,
    W: Sink + Send + Drop + 'static,
    G: Gate<R, W>,
    O: Desks + Send + Drop + 'static,
    // The gate isn't asked again after it failed or was over, and is closed once after the last asking. Each session
    // that it gave has a result, in the gate's order. The result is one of serving exactly that session's reader and
    // writer.
    ensures report { IfOk result (λ report. IsReport
        (O.stay desks.now) (O.opens desks.now) O.asks O.ends
        (record { remaining = R.remaining; reads = R.reads; faults = R.faults })
        (record { contents = W.contents; faults = W.faults })
        G.gives G.closes sessions gate.old gate.new report.results.items report.gate_failed) }
    ensures most { IfOk result (λ report. vec_len report.results ≤ sessions) }
    ensures err { IfErr result (λ error. ThenCloses G.closes
        (λ last. StopsEarly G.gives sessions gate.old last error) gate.new) }
{
    let mut started = Vec::new(alloc);
    let asked = start_all(rt, alloc, desks, gate, sessions, &mut started);
    // The gate is closed at once: no session is waited for before that.
    gate.close();
    let results = results_of(rt, alloc, started);
    let gate_failed = asked?;
    Ok(Report {
        results: results?,
        gate_failed,
    })
}
