//! What the program does with the words of its command line.
ghost use Rattle.std.specs.Prelude.{◌≡◌, option_map};
ghost use Rattle.hub_dialing.specs.Calls.{calling};
ghost use Rattle.hub_dialing.specs.Dialing.{dialing};
ghost use Rattle.hub_running.specs.Running.{CarriesOut, IsNamed, Judges, Runs, hub_of};

use crate::streams::open_missing;
use hub_arguments::{Plan, Start, begin, own_socket, own_words};
use hub_commands::{ask_words, hold_as_told, make_fifodirs, tell_state, wait_as_told};
use hub_dialing::{Dial, call};
use hub_endings::{BadWords, Ending, Fault, Unreached};
use hub_io::{Sink, Source};
use hub_reports::Report;
use hub_requests::Enter;
use hub_script::script;
use hub_serving::{serve, serve_forever};
use hub_showing::{follow_as_told, show_status};
use std::alloc::{AllocGlobal, Global};
use std::fs::{File, Files};
use std::io::ErrorKind;
use std::net::Net;
use std::rt::{Clock, Runtime};
use std::sync::Wait;
use std::thread::Threads;

// The exit status after sessions of which none stopped, or what is to be told of them.
fn judge(report: Report) -> Result<u8, Ending>
    ensures { Judges report result }
{
    if report.is_clean() {
        Ok(0)
    } else {
        Err(Ending::Stopped(report))
    }
}

// Does what the plan says, and returns the exit status.
fn carry_out<H, D, R, W, F>(
    rt: &H,
    alloc: Global,
    dialer: &mut D,
    plan: Plan<'_>,
    input: &mut R,
    output: &mut W,
    notes: &mut F,
) -> Result<u8, Ending>
where
    H: Files<File = File> + Net + Clock + Threads + Wait + Enter + Copy + Send + 'static,
    D: Dial,
    R: Source,
    W: Sink,
    F: Sink,
    // What the subcommand of the plan ensures, and what the plan doesn't need is as it was.
    ensures { CarriesOut
        (dialing D.reaches D.Receiver.remaining D.Sender.contents)
        (calling D.connects D.Incoming.remaining D.Incoming.reads D.Incoming.faults
        D.Outgoing.contents D.Outgoing.faults)
        (record { remaining = R.remaining; reads = R.reads; faults = R.faults })
        (record { contents = W.contents; faults = W.faults })
        (record { contents = F.contents; faults = F.faults })
        (record { dialer = dialer.old; input = input.old; output = output.old; notes = notes.old })
        (record { dialer = dialer.new; input = input.new; output = output.new; notes = notes.new })
        plan.entry result }
{
    match plan {
        Plan::Script => {
            script(rt, alloc, input, output)?;
            Ok(0)
        }
        Plan::Serve { socket, sessions } => judge(serve(rt, alloc, socket, sessions)?),
        Plan::ServeForever(options) => {
            serve_forever(rt, alloc, options, notes)?;
            Ok(0)
        }
        Plan::Call { socket } => {
            call(rt, alloc, dialer, socket, input, output)?;
            Ok(0)
        }
        Plan::Ask { socket, words } => {
            ask_words(rt, alloc, dialer, socket, &words, output, notes)
        }
        Plan::Wait { socket, wish } => {
            wait_as_told(rt, alloc, dialer, socket, &wish, output, notes)
        }
        Plan::Status {
            socket,
            names,
            is_json,
        } => show_status(rt, alloc, dialer, socket, is_json, &names, output, notes),
        Plan::Make {
            socket,
            names,
            shape,
        } => make_fifodirs(rt, alloc, dialer, socket, &names, shape, notes),
        Plan::Tell {
            socket,
            name,
            state,
        } => tell_state(rt, alloc, dialer, socket, name, state, notes),
        Plan::Hold { socket, hold } => hold_as_told(rt, alloc, dialer, socket, hold, input, notes),
        Plan::Follow { socket, follow } => {
            follow_as_told(rt, alloc, dialer, socket, follow, output, notes)
        }
    }
}

// The socket of the hub that the command asks. `call` names none: it says as little as ever.
fn hub_of<'a>(plan: &Plan<'a>) -> Option<&'a str>
    ensures { option_map (λ socket. socket.now) result ≡ hub_of plan.now }
{
    match plan {
        Plan::Ask { socket, .. }
        | Plan::Wait { socket, .. }
        | Plan::Status { socket, .. }
        | Plan::Follow { socket, .. }
        | Plan::Tell { socket, .. }
        | Plan::Hold { socket, .. }
        | Plan::Make { socket, .. } => Some(*socket),
        Plan::Script | Plan::Serve { .. } | Plan::ServeForever(_) | Plan::Call { .. } => None,
    }
}

// How the command ended, with the socket of a hub that it couldn't reach.
fn named(alloc: Global, ended: Result<u8, Ending>, socket: Option<&str>) -> Result<u8, Ending>
    ensures { IsNamed (option_map (λ socket. socket.now) socket.entry) ended result }
{
    match (ended, socket) {
        (Err(Ending::Failed(Fault::Reach(why))), Some(path)) => {
            let socket = String::from_str(alloc, path)?;
            Err(Ending::Unreached(Unreached { socket, why }))
        }
        (ended, _) => ended,
    }
}

/// Does what the words of the command line say, and returns the exit status. A standard stream of the program that is missing can be used
/// by nothing else from then on.
pub fn run<H, D, R, W, F>(
    rt: &H,
    alloc: Global,
    dialer: &mut D,
    input: &mut R,
    output: &mut W,
    notes: &mut F,
) -> Result<u8, Ending>
where
    H: Runtime
        + Files<File = File>
        + AllocGlobal
        + Net
        + Threads
        + Wait
        + Enter
        + Copy
        + Send
        + 'static,
    D: Dial,
    R: Source,
    W: Sink,
    F: Sink,
    // One plan is carried out, and the hub is named if it couldn't be reached. Or there is no plan, and everything is as it was.
    ensures { Runs
        (dialing D.reaches D.Receiver.remaining D.Sender.contents)
        (calling D.connects D.Incoming.remaining D.Incoming.reads D.Incoming.faults
        D.Outgoing.contents D.Outgoing.faults)
        (record { remaining = R.remaining; reads = R.reads; faults = R.faults })
        (record { contents = W.contents; faults = W.faults })
        (record { contents = F.contents; faults = F.faults })
        (record { dialer = dialer.old; input = input.old; output = output.old; notes = notes.old })
        (record { dialer = dialer.new; input = input.new; output = output.new; notes = notes.new })
        result }
{
    open_missing();
    let words = match own_words(rt, alloc) {
        Ok(words) => words,
        Err(error) if error.kind() == ErrorKind::OutOfMemory => return Err(Ending::Failed(
            Fault::Memory,
        )),
        Err(_) => return Err(Ending::Refused(BadWords::NotText)),
    };
    let known = own_socket(rt, alloc, libc::geteuid())?;
    match begin(rt, alloc, words.as_slice(), known.as_ref())? {
        Start::Run(plan) => {
            let socket = hub_of(&plan);
            let ended = carry_out(rt, alloc, dialer, plan, input, output, notes);
            named(alloc, ended, socket)
        }
        Start::NoSocket => Err(Ending::Refused(BadWords::NoSocket)),
        Start::End(status) => Ok(status),
    }
}
