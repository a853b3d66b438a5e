//! The subcommand `follow`: the letters of fifodirs as they come.
ghost use Rattle.std.specs.Prelude.{◌≡◌, ◌≤◌, Err, IfErr, IfOk, MatchOption, MatchResult, None, false, is_some, true};
ghost use Rattle.hub_ask.specs.declared.exchanging.TheConstants.{ANSWER};
ghost use Rattle.hub_ask.specs.declared.fault.AskError.TheVariants as ask;
ghost use Rattle.hub_ask.specs.declared.outcome.Outcome.TheVariants as outcome;
ghost use Rattle.hub_ask.specs.Streams.{IsToldTo};
ghost use Rattle.hub_showing.specs.Breaking.{follow_breaks};
ghost use Rattle.hub_dialing.specs.Dialing.{dialing};
ghost use Rattle.hub_showing.specs.Following.{FollowsAsTold, FollowsOn, FollowsThere, IsAbsence, IsReached, IsUntil, course, following_wanted, form_of, gone_line, is_end, some_of};
ghost use Rattle.hub_endings.specs.declared.fault.Fault.TheVariants as faults;

use hub_ask::{ANSWER, AskError, Deadline, Outcome, Replies, Requests, write_note};
use hub_client::RelayError;
use hub_dialing::Dial;
use hub_endings::{BadWords, Ending, Fault, any_breaks, breaks, limit_of};
use hub_io::Sink;
use hub_look::{Following, Form, Limited, Peer, are_there, follow};
use hub_options::Follow;
use std::alloc::Global;
use std::rt::Clock;
use std::sync::Wait;
use std::thread;
use std::time::Duration;

/// How many milliseconds pass before it connects again.
const PAUSE: u64 = 100;

const GONE: &[u8] = b"ftrighub: the hub ended; waiting for it\n";

// Whether the pattern or a name has a line feed.
fn follow_breaks(wanted: &Follow<'_>) -> bool
    ensures { result ≡ follow_breaks (λ word. word.now) wanted.now.pattern wanted.now.names.items }
{
    let in_names = any_breaks(&wanted.names);
    match wanted.pattern {
        Some(pattern) => breaks(pattern) || in_names,
        None => in_names,
    }
}

// How it is written.
fn form_of(wanted: &Follow<'_>) -> Form
    ensures { result ≡ form_of wanted.now.is_plain wanted.now.is_json }
{
    match (wanted.is_plain, wanted.is_json) {
        (true, _) => Form::Plain,
        (false, true) => Form::Json,
        (false, false) => Form::Line,
    }
}

// By when it has to end, if it has a limit of so many milliseconds.
fn until_of<C: Clock>(clock: &C, limit: Option<u64>) -> Option<Deadline>
    ensures { is_some result ≡ is_some limit }
{
    match limit {
        Some(millis) => Some(Deadline::after(clock, millis)),
        None => None,
    }
}

// What is followed.
fn following_of(wanted: Follow<'_>, until: Option<Deadline>) -> Following<'_>
    ensures { result ≡ following_wanted wanted.entry until false }
{
    Following {
        form: form_of(&wanted),
        names: wanted.names,
        pattern: wanted.pattern,
        is_once: wanted.is_once,
        until,
        is_again: false,
    }
}

// How many milliseconds connecting may take of those that are left.
fn allowed(left: u64) -> u64
    ensures { result ≤ ANSWER }
{
    left.min(ANSWER)
}

// Connects to the hub. All that goes over the connection ends by the deadline.
fn reach<H: Clock + Copy, D: Dial>(
    rt: &H,
    dialer: &mut D,
    socket: &str,
    millis: u64,
    until: Option<Deadline>,
) -> Result<Peer<Limited<D::Receiver, H>, Limited<D::Sender, H>>, Fault>
    ensures ok { IfOk result (λ peer. IsReached
        (dialing D.reaches D.Receiver.remaining D.Sender.contents) dialer.old dialer.new socket.now
        millis peer.begun.value.inner (D.Sender.contents peer.client.sender.inner)
        (D.Receiver.remaining peer.client.receiver.inner)) }
    ensures err { IfErr result (λ fault.
        D.reaches dialer.old socket.now millis (Err fault) dialer.new) }
{
    let (receive, send) = dialer.dial(socket, millis)?;
    let receiver = Limited::new(receive, *rt, until);
    let sender = Limited::new(send, *rt, until);
    Ok(Peer::new(receiver, sender))
}

// What becomes of a connection that couldn't be made. A hub that was there before is waited for.
fn unreached<C: Clock>(
    clock: &C,
    following: &Following<'_>,
    fault: Fault,
) -> Result<Option<Outcome>, Fault>
    ensures { MatchResult result
        (λ it. MatchOption it ((following.now.is_again ≡ true) × IsAbsence fault)
        (λ went. (went ≡ outcome.Late) × (is_some following.now.until ≡ true)
        × (fault ≡ faults.Ask ask.NoAnswer)))
        (λ it. it ≡ fault) }
{
    match fault {
        Fault::Reach(_) | Fault::Ask(AskError::NoAnswer) if following.is_again => Ok(None),
        Fault::Ask(AskError::NoAnswer) if following.millis_left(clock).is_none() => Ok(Some(
            Outcome::Late,
        )),
        fault => Err(fault),
    }
}

// Whether a connection ended, or can't be used any more.
fn is_end(error: AskError) -> bool
    ensures { result ≡ is_end error }
{
    matches!(
        error,
        AskError::Relay(RelayError::Ended | RelayError::Send | RelayError::Receive)
    )
}

// Whether they can be followed: the first time at once, and again if the hub has all of them. If it ends, or doesn't answer, it
// hasn't yet.
fn may_follow<H: Wait, SR: Replies, SW: Requests>(
    rt: &H,
    alloc: Global,
    following: &Following<'_>,
    peer: &mut Peer<SR, SW>,
) -> Result<bool, AskError>
    ensures begun { peer.new.begun ≡ peer.old.begun }
    ensures first { following.now.is_again ≡ false → peer.new ≡ peer.old }
    ensures again { MatchResult result
        (λ may. may ≡ false → following.now.is_again ≡ true)
        (λ _. following.now.is_again ≡ true) }
{
    if !following.is_again {
        return Ok(true);
    }
    match are_there(rt, alloc, &following.names, peer) {
        Err(error) if is_end(error) || error == AskError::NoAnswer => Ok(false),
        there => there,
    }
}

// Says that the hub ended, if the next one is to be waited for. An error is another one, or isn't waited out.
fn wait_out<F: Sink>(error: AskError, is_patient: bool, notes: &mut F) -> Result<(), Fault>
    ensures { MatchResult result
        (λ _. (is_patient ≡ true) × (is_end error ≡ true)
        × IsToldTo (F.contents notes.old) (F.contents notes.new)
        (F.faults notes.old) (F.faults notes.new) gone_line)
        (λ it. (it ≡ faults.Ask error) × (notes.new ≡ notes.old)) }
{
    if !is_patient || !is_end(error) {
        return Err(Fault::Ask(error));
    }
    write_note(GONE, notes);
    Ok(())
}

// Follows over one connection. None if it is to be tried again.
fn follow_there<H: Wait + Clock + Copy, D: Dial, W: Sink, F: Sink>(
    rt: &H,
    alloc: Global,
    dialer: &mut D,
    socket: &str,
    following: &Following<'_>,
    is_patient: bool,
    output: &mut W,
    notes: &mut F,
) -> Result<Option<Outcome>, Fault>
    ensures { FollowsThere (course (dialing D.reaches D.Receiver.remaining D.Sender.contents)
        socket.now (record { contents = F.contents; faults = F.faults }) following.now is_patient)
        (record { dialer = dialer.old; notes = notes.old; held = W.contents output.old })
        (record { dialer = dialer.new; notes = notes.new; held = W.contents output.new }) result }
{
    let Some(left) = following.millis_left(rt) else {
        return Ok(Some(Outcome::Late));
    };
    let mut peer = match reach(rt, dialer, socket, allowed(left), following.until) {
        Ok(peer) => peer,
        Err(fault) => return unreached(rt, following, fault),
    };
    match may_follow(rt, alloc, following, &mut peer) {
        Ok(true) => {}
        Ok(false) => return Ok(None),
        Err(error) => return Err(Fault::Ask(error)),
    }
    match follow(rt, alloc, following, &mut peer, output, notes) {
        Ok(outcome) => Ok(Some(outcome)),
        Err(error) => {
            wait_out(error, is_patient, notes)?;
            Ok(None)
        }
    }
}

// Pauses before it connects again.
fn pause<C: Clock>(clock: &C, following: &Following<'_>) {
    let left = following.millis_left(clock).unwrap_or(0);
    thread::sleep(clock, Duration::from_millis(left.min(PAUSE)));
}

// Follows over one connection after another, until one of them has an outcome.
fn follow_on<H: Wait + Clock + Copy, D: Dial, W: Sink, F: Sink>(
    rt: &H,
    alloc: Global,
    dialer: &mut D,
    socket: &str,
    wanted: Follow<'_>,
    until: Option<Deadline>,
    output: &mut W,
    notes: &mut F,
) -> Result<Outcome, Fault>
    requires { IsUntil wanted.timeout until }
    ensures { FollowsOn (dialing D.reaches D.Receiver.remaining D.Sender.contents) socket.now
        (record { contents = F.contents; faults = F.faults }) wanted.entry
        (record { dialer = dialer.old; notes = notes.old; held = W.contents output.old })
        (record { dialer = dialer.new; notes = notes.new; held = W.contents output.new })
        (some_of result) }
{
    let is_patient = wanted.is_patient;
    let mut following = following_of(wanted, until);
    'connections: for _ in rt.forever() {
        match follow_there(
            rt, alloc, dialer, socket, &following, is_patient, output, notes,
        )? {
            Some(outcome) => return Ok(outcome),
            None => following.is_again = true,
        }
        pause(rt, &following);
    }
    unreachable!()
}

/// Writes the letters of these fifodirs of the hub at the socket as they come, and returns the exit status. `notes` gets a line on
/// what the hub refuses. A pattern or names with a line feed are refused, and so is a duration that a wait can't have.
pub fn follow_as_told<H: Wait + Clock + Copy, D: Dial, W: Sink, F: Sink>(
    rt: &H,
    alloc: Global,
    dialer: &mut D,
    socket: &str,
    wanted: Follow<'_>,
    output: &mut W,
    notes: &mut F,
) -> Result<u8, Ending>
    // If the words are refused, no connection is made, and nothing is written. Else connections are made, one after another: a
    // further one only if the end of a hub is to be waited out, and the one before it ended, or the hub or a fifodir isn't there
    // again. Over each only looks go. The letters of what a hub replies are written.
    ensures { FollowsAsTold (dialing D.reaches D.Receiver.remaining D.Sender.contents) socket.now
        (record { contents = F.contents; faults = F.faults })
        (record { dialer = dialer.old; notes = notes.old; held = W.contents output.old })
        (record { dialer = dialer.new; notes = notes.new; held = W.contents output.new })
        wanted.entry (output.new ≡ output.old) result }
{
    if follow_breaks(&wanted) {
        return Err(Ending::Refused(BadWords::Word));
    }
    let limit = limit_of(alloc, wanted.timeout)?;
    let until = until_of(rt, limit);
    let outcome = follow_on(rt, alloc, dialer, socket, wanted, until, output, notes)?;
    Ok(outcome.status())
}
