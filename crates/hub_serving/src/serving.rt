//! The subcommand `serve`: sessions over a Unix socket.
ghost use Rattle.std.specs.Prelude.{◌≡◌, IfOk, IfErr, IsSome};
ghost use Rattle.hub_serving.specs.Serving.{FailsToServe};
ghost use Rattle.hub_endings.specs.declared.fault.Fault.TheVariants as fault;
ghost use Rattle.hub_front.specs.declared.stay.Stay.TheVariants.{Short};
ghost use Rattle.hub_endings.specs.declared.listen_fault.ListenFault.TheVariants.{Untold};
ghost use Rattle.hub_server.specs.Gates.{StopsEarly, ThenCloses};
ghost use Rattle.hub_server.specs.Reports.{IsReport};
ghost use Rattle.hub_server.specs.declared.door.Door.{Door as door};
ghost use Rattle.std.specs.declared.os.unix.net.UnixListener.{UnixListener as unix_listener};
ghost use Rattle.hub_names.specs.declared.hub.Hub.{Hub as hub};
ghost use Rattle.hub_shared.specs.Desks.{IsNewDesk};
ghost use Rattle.hub_wait.specs.declared.pause.Patience.{Patience as patience};

use crate::desks::serve_all;
use hub_endings::{Fault, ListenFault};
use hub_io::{Sink, Source};
use hub_requests::{Desk, Enter};
use hub_server::{Door, Gate, Report};
use hub_shared::{Hub, SharedDesk};
use hub_wait::Patience;
use std::alloc::Global;
use std::fs::Files;
use std::io::{Read, Write};
use std::net::Net;
use std::os::unix::net::{UnixListener, UnixStream};
use std::rt::Clock;
use std::sync::{Arc, Wait};
use std::thread::Threads;

/// Listens at the socket, once there is a hub: a client that could connect before would be cut off if there were no memory for it. An
/// empty path is refused: the system would choose an address that no client knows.
fn listen<H: Files + Net>(
    rt: &H,
    socket: &str,
    _hub: &Arc<Hub, Global>,
) -> Result<UnixListener, Fault>
    ensures { IfErr result (λ error. error ≡ fault.Listen Untold) }
{
    if socket.is_empty() {
        return Err(Fault::Listen(ListenFault::Untold));
    }
    UnixListener::bind(rt, socket).map_err(|_| Fault::Listen(ListenFault::Untold))
}

/// Accepts this many connections at the socket, and serves all of them at the same time, over one hub. After the last
/// accept, or after a failure, it closes the socket, and no client can connect any more. All sessions have ended when
/// it returns. The socket's file stays.
pub fn serve<H>(rt: &H, alloc: Global, socket: &str, sessions: u64) -> Result<Report, Fault>
where
    H: Files + Net + Clock + Threads + Wait + Enter + Copy + Send + 'static,
    // An open door was asked for this many connections. The report is that of `serve_all`, over one hub.
    ensures report { IfOk result (λ report. (one : hub) × (pause : patience H)
        × (opened closed : door unix_listener)
        × IsSome opened.listener × IsReport Short (IsNewDesk one pause)
        ⟦<SharedDesk<Patience<H>> as Desk>⟧.asks ⟦<SharedDesk<Patience<H>> as Desk>⟧.ends
        (record {
          remaining = ⟦<UnixStream as Read>⟧.remaining;
          reads = ⟦<UnixStream as Source>⟧.reads;
          faults = ⟦<UnixStream as Source>⟧.faults;
        })
        (record {
          contents = ⟦<UnixStream as Write>⟧.contents;
          faults = ⟦<UnixStream as Sink>⟧.faults;
        })
        ⟦<Door as Gate<UnixStream, UnixStream>>⟧.gives
        ⟦<Door as Gate<UnixStream, UnixStream>>⟧.closes
        sessions opened closed report.results.items report.gate_failed) }

    // Before the first session, it couldn't listen or memory ran out. An error of the sessions is that of `serve_all`,
    // and the door was closed.
    ensures err { IfErr result (FailsToServe (λ error. (opened closed : door unix_listener)
        × IsSome opened.listener
        × ThenCloses ⟦<Door as Gate<UnixStream, UnixStream>>⟧.closes
        (λ last. StopsEarly ⟦<Door as Gate<UnixStream, UnixStream>>⟧.gives sessions opened last
        error) closed)) }
{
    let Ok(hub) = Arc::new(alloc, Hub::new(alloc)?) else {
        return Err(Fault::Memory);
    };
    let mut door = Door {
        listener: Some(listen(rt, socket, &hub)?),
    };
    let pause = Patience::new(*rt);
    Ok(serve_all(rt, alloc, hub, &mut door, sessions, pause)?)
}
