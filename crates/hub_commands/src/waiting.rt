//! The subcommand `wait`: one wait for services, for which the hub and the names may come to be there first.
ghost use Rattle.std.specs.Prelude.{◌≡◌, ◌≤◌, ◌+◌, length, true, false, IfSome, MatchBool};
ghost use Rattle.std.specs.List.{list_all};
ghost use Rattle.hub_ask.specs.Lines.{bytes_of, joined};
ghost use Rattle.hub_ask.specs.Waiting.{AsksAbout, wait_words};
ghost use Rattle.hub_requests.specs.declared.bounds.TheConstants.{MOST_TURNS};
ghost use Rattle.hub_ask.specs.declared.waiting.TheConstants.{GRACE};
ghost use Rattle.hub_client.specs.Passing.{has_lf};
ghost use Rattle.hub_requests.specs.Names.{is_name};
ghost use Rattle.hub_dialing.specs.Dialing.{dialing};
ghost use Rattle.hub_commands.specs.Sayings.{AreSaid};
ghost use Rattle.hub_commands.specs.Waiting.{AreJudged, AsksAfterTry, Begins, Delays, EndsTry, GoesOn, IsPart, IsRestart, IsTried, WaitsAsTold, WaitsOn, wishing};

use crate::saying::Sayings;
use hub_ask::{
    AskError, Client, Deadline, GRACE, Line, Outcome, Replies, Requests, delay_of, end_wait,
    wait_line,
};
use hub_dialing::Dial;
use hub_endings::{BadWords, Ending, Fault, limit_of};
use hub_io::Sink;
use hub_options::Wish;
use hub_protocol::LONGEST_LINE;
use hub_requests::{MOST_SERVICES, MOST_TURNS, Name};
use std::alloc::{AllocError, Global};
use std::rt::Clock;
use std::sync::Wait;
use std::thread;
use std::time::Duration;

/// How many milliseconds pass before another try.
const PAUSE: u64 = 100;

/// For what the next try has to wait.
#[derive(Clone, Copy, Debug, PartialEq, Eq)]
enum Delay {
    /// A hub has to be there, with room for one more connection.
    Hub,
    /// Names have to be made.
    Names,
    /// Nothing: the longest wait of a hub is over.
    Time,
}

// Whether a service has to go down during the wait, so that two waits one after the other aren't one.
fn is_restart(want: &str) -> bool
    ensures { MatchBool result (IsRestart want.now) (IsRestart want.now → ⊥) }
{
    matches!(want, "restarted" | "restarted-ready")
}

// How many turns the first line has. A wait for a restart that is longer than one wait may be is refused.
fn first_turns(limit: Option<u64>, want: &str) -> Result<u64, Ending>
    ensures { Begins want.now limit result }
{
    let Some(millis) = limit else {
        return Ok(MOST_TURNS);
    };
    if millis > MOST_TURNS && is_restart(want) {
        return Err(Ending::Refused(BadWords::Restart));
    }
    Ok(millis.min(MOST_TURNS))
}

/// What came of one try: a reply to the line, or a fault.
type Tried<SR, SW> = Result<(Client<SR, SW>, Vec<u8>), Fault>;

fn are_names(texts: &[&str]) -> bool
    ensures { result ≡ list_all (λ text. is_name text.now) texts.now }
{
    texts.iter().all(|text| Name::is_name(text.as_bytes()))
}

// Sees whether these are names, and few enough for one wait, whose first line this is.
fn check_names(names: &[&str], line: &Line) -> Result<(), Ending>
    ensures { AreJudged (list_all (λ name. is_name name.now) names.now) (length names.now)
        (length (bytes_of line.now)) result }
{
    if !are_names(names) {
        return Err(Ending::Refused(BadWords::NotName));
    }
    if names.len() > MOST_SERVICES {
        return Err(Ending::Refused(BadWords::Many));
    }
    if line.as_bytes().len() > LONGEST_LINE {
        return Err(Ending::Refused(BadWords::Many));
    }
    Ok(())
}

// Connects, and with `is_now` goes on trying to while the hub has no room.
fn reach<D: Dial>(
    dialer: &mut D,
    socket: &str,
    is_now: bool,
    millis: u64,
) -> Result<(D::Receiver, D::Sender), Fault>
    ensures { D.reaches dialer.old socket.now millis result dialer.new }
{
    if is_now {
        dialer.dial(socket, millis)
    } else {
        dialer.dial_at_once(socket, millis)
    }
}

// Connects once, and sends the line.
fn try_once<H: Wait, D: Dial>(
    rt: &H,
    alloc: Global,
    dialer: &mut D,
    socket: &str,
    is_now: bool,
    line: &Line,
    turns: u64,
) -> Tried<D::Receiver, D::Sender>
    requires { turns ≤ MOST_TURNS }
    ensures { IsTried (dialing D.reaches D.Receiver.remaining D.Sender.contents)
        dialer.old dialer.new socket.now (turns + GRACE) (bytes_of line.now)
        (λ reply. reply.items) result }
{
    let (receiver, sender) = reach(dialer, socket, is_now, turns + GRACE)?;
    let mut client = Client::new(receiver, sender);
    let reply = client.send(rt, alloc, line)?;
    Ok((client, reply))
}

// Whether a wait goes on though a line of so many turns had no outcome: it was one of the longest, and isn't for a restart.
fn is_part(want: &str, turns: u64) -> bool
    ensures { MatchBool result (IsPart want.now turns) (IsPart want.now turns → ⊥) }
{
    turns == MOST_TURNS && !is_restart(want)
}

// For what a wait goes on after this reply to a line of so many turns. None if it is the end of the wait.
fn delay_after(reply: &[u8], want: &str, turns: u64) -> Option<Delay>
    ensures { IfSome result (λ _. Delays want.now turns reply.now) }
{
    match delay_of(reply)? {
        hub_ask::Delay::Missing => Some(Delay::Names),
        hub_ask::Delay::Late if is_part(want, turns) => Some(Delay::Time),
        hub_ask::Delay::Late => None,
    }
}

// For what a wait goes on after this try of so many turns. None if that was its last one.
fn goes_on<SR, SW>(tried: &Tried<SR, SW>, wish: &Wish<'_>, turns: u64) -> Option<Delay>
    ensures { IfSome result (λ _. GoesOn wish.now.is_now wish.now.want.now turns
        (λ reply. reply.items) tried.now) }
{
    if wish.is_now {
        return None;
    }
    match tried {
        Ok((_, reply)) => delay_after(reply, wish.want, turns),
        Err(Fault::Reach(why)) if why.is_absence() => Some(Delay::Hub),
        Err(Fault::Ask(AskError::NoAnswer)) if is_part(wish.want, turns) => Some(Delay::Time),
        Err(_) => None,
    }
}

// Pauses before the next try. False if the time is over.
fn has_paused<C: Clock>(clock: &C, deadline: &Option<Deadline>) -> bool {
    let pause = Duration::from_millis(PAUSE);
    let left = match deadline {
        Some(deadline) => deadline.left(clock),
        None => Some(pause),
    };
    let Some(left) = left else {
        return false;
    };
    thread::sleep(clock, left.min(pause));
    true
}

// How many turns the next line has: no more than these.
fn next_turns<C: Clock>(clock: &C, deadline: &Option<Deadline>, turns: u64) -> u64
    ensures { result ≤ turns }
{
    let Some(deadline) = deadline else {
        return turns;
    };
    let left = deadline.left(clock).unwrap_or(Duration::ZERO);
    u64::try_from(left.as_millis()).unwrap_or(turns).min(turns)
}

// Ends a wait by this try: by its reply, or its fault.
fn end<H: Wait, SR: Replies + Drop, SW: Requests + Drop, W: Sink, F: Sink>(
    rt: &H,
    alloc: Global,
    tried: Tried<SR, SW>,
    wish: &Wish<'_>,
    output: &mut W,
    notes: &mut F,
) -> Result<u8, Ending>
    ensures ended { EndsTry SR.remaining SW.contents (length wish.now.names.items) wish.now.is_quiet
        (AsksAbout wish.now.want.now (λ name. name.now) wish.now.names.items)
        (output.new ≡ output.old)
        (W.contents output.old) (W.contents output.new) (λ reply. reply.items) tried result }
    ensures quiet { wish.now.is_quiet ≡ true
        → (output.new ≡ output.old) × (notes.new ≡ notes.old) }
{
    let (mut client, reply) = match tried {
        Ok(both) => both,
        Err(fault) => return Err(Ending::Failed(fault)),
    };
    let (want, names) = (wish.want, wish.names.as_slice());
    if wish.is_quiet {
        let outcome = Outcome::of_wait(&reply, names.len()).ok_or(AskError::Unknown)?;
        return Ok(outcome.status());
    }
    let outcome = end_wait(rt, alloc, &reply, want, names, &mut client, output, notes)?;
    Ok(outcome.status())
}

// Waits for so many turns at first. What isn't the end of the wait is tried again, until the deadline.
fn wait_on<H: Wait + Clock, D: Dial, W: Sink, F: Sink>(
    rt: &H,
    alloc: Global,
    dialer: &mut D,
    socket: &str,
    wish: &Wish<'_>,
    deadline: &Option<Deadline>,
    first: u64,
    output: &mut W,
    notes: &mut F,
) -> Result<u8, Ending>
    requires few { first ≤ MOST_TURNS }
    requires cut { has_lf (wait_words wish.now.span.now wish.now.want.now first
        (joined (λ name. name.now) wish.now.names.items)) ≡ false }
    ensures goes { WaitsOn (dialing D.reaches D.Receiver.remaining D.Sender.contents)
        (wishing socket.now wish.now) first dialer.old dialer.new (output.new ≡ output.old)
        (W.contents output.old) (W.contents output.new) result }
    ensures quiet { wish.now.is_quiet ≡ true
        → (output.new ≡ output.old) × (notes.new ≡ notes.old) }
{
    let names = wish.names.as_slice();
    let mut sayings = Sayings::new(wish.is_quiet);
    let mut turns = first;
    'tries: for _ in rt.forever() {
        let Some(line) = wait_line(alloc, wish.span, wish.want, turns, names)? else {
            unreachable!()
        };
        let mut tried = try_once(rt, alloc, dialer, socket, wish.is_now, &line, turns);
        let Some(delay) = next_try(rt, &tried, wish, deadline, turns) else {
            return end(rt, alloc, tried, wish, output, notes);
        };
        say(
            rt,
            alloc,
            &mut sayings,
            delay,
            &mut tried,
            wish,
            socket,
            notes,
        )?;
        turns = next_turns(rt, deadline, turns);
    }
    unreachable!()
}

// For what the next try has to wait, after a pause. None if there is no next one.
fn next_try<C: Clock, SR, SW>(
    clock: &C,
    tried: &Tried<SR, SW>,
    wish: &Wish<'_>,
    deadline: &Option<Deadline>,
    turns: u64,
) -> Option<Delay>
    ensures { IfSome result (λ _. GoesOn wish.now.is_now wish.now.want.now turns
        (λ reply. reply.items) tried.now) }
{
    let delay = goes_on(tried, wish, turns)?;
    if has_paused(clock, deadline) {
        Some(delay)
    } else {
        None
    }
}

// Says for what is waited after this try, if it is time for that.
fn say<H: Wait + Clock, SR: Replies, SW: Requests, F: Sink>(
    rt: &H,
    alloc: Global,
    sayings: &mut Sayings,
    delay: Delay,
    tried: &mut Tried<SR, SW>,
    wish: &Wish<'_>,
    socket: &str,
    notes: &mut F,
) -> Result<(), AllocError>
    ensures said { AreSaid sayings.old sayings.new }
    ensures asked { AsksAfterTry SW.contents tried.old tried.new }
    ensures quiet { sayings.old.hub.is_said ≡ true → sayings.old.names.is_said ≡ true
        → notes.new ≡ notes.old }
{
    match (delay, tried) {
        (Delay::Hub, _) => sayings.say_hub(rt, alloc, socket, notes),
        (Delay::Names, Ok((client, _))) => {
            sayings.say_names(rt, alloc, &wish.names, client, notes)
        }
        _ => Ok(()),
    }
}

/// Waits as the wish says at the hub at the socket, writes the reply, and returns the exit status for it. Unless the wish says
/// otherwise, a hub that isn't there and names that aren't made are waited for. `notes` gets a line about what is waited for, and one for
/// each service that isn't as wanted. What isn't a duration is refused, and so are texts that are no names, and too many names.
pub fn wait_as_told<H: Wait + Clock, D: Dial, W: Sink, F: Sink>(
    rt: &H,
    alloc: Global,
    dialer: &mut D,
    socket: &str,
    wish: &Wish<'_>,
    output: &mut W,
    notes: &mut F,
) -> Result<u8, Ending>
    // If the words are refused, no connection is made, and nothing is written. Else connections are made to this socket one after the
    // other, until a reply is the end of the wait. Over each the line goes once, with no more turns than before. Only the last reply is
    // written, and has the status. After it at most the questions about its services follow.
    ensures waits { WaitsAsTold (dialing D.reaches D.Receiver.remaining D.Sender.contents)
        (wishing socket.now wish.now) (λ text. text.now) wish.now.timeout dialer.old dialer.new
        (output.new ≡ output.old) (W.contents output.old) (W.contents output.new)
        ((output.new ≡ output.old) × (notes.new ≡ notes.old)) result }
    // If it is to be quiet, nothing is written.
    ensures quiet { wish.now.is_quiet ≡ true
        → (output.new ≡ output.old) × (notes.new ≡ notes.old) }
{
    let limit = limit_of(alloc, wish.timeout)?;
    let turns = first_turns(limit, wish.want)?;
    let names = wish.names.as_slice();
    let Some(line) = wait_line(alloc, wish.span, wish.want, turns, names)? else {
        return Err(Ending::Refused(BadWords::Name));
    };
    check_names(names, &line)?;
    let deadline = limit.map(|millis| Deadline::after(rt, millis));
    wait_on(
        rt, alloc, dialer, socket, wish, &deadline, turns, output, notes,
    )
}
