//! The subcommand `hold`: a will for a service, for as long as standard input goes on.
ghost use Rattle.std.specs.Prelude.{◌≡◌, ◌<◌, length, IfOk, IfErr, OnOk};
ghost use Rattle.hub_ask.specs.Streams.{streams};
ghost use Rattle.hub_dialing.specs.Dialing.{dialing};
ghost use Rattle.hub_commands.specs.Holding.{FailsToAskEach, FailsToLeave, FailsToRead, FailsToSay, HoldsAsTold, IsAsked, IsHeld, IsLeftSo, IsReadOut, IsSaid, request_of};

use crate::making::made_told;
use crate::noting::note_refusal;
use crate::requesting::ask_once;
use crate::telling::tell;
use hub_ask::{ANSWER, AskError, Client, Outcome, Replies, Requests};
use hub_client::RelayError;
use hub_dialing::{Dial, Tie};
use hub_endings::{BadWords, Ending};
use hub_io::{CHUNK, Sink, Source, new_chunk};
use hub_letters::State;
use hub_options::Hold;
use hub_requests::{Name, Request};
use std::alloc::{AllocError, Global};
use std::sync::Wait;

// Leaves the will, and returns how that went. A refusal is noted under this name.
fn leave<H: Wait, SR: Replies, SW: Requests, F: Sink>(
    rt: &H,
    alloc: Global,
    name: &str,
    will: Request,
    client: &mut Client<SR, SW>,
    notes: &mut F,
) -> Result<Outcome, AskError>
    ensures ok { IfOk result (IsLeftSo
        (streams SW.contents SR.remaining F.contents F.faults client.old notes.old)
        (streams SW.contents SR.remaining F.contents F.faults client.new notes.new)
        will name.now) }
    ensures err { IfErr result (FailsToLeave
        (streams SW.contents SR.remaining F.contents F.faults client.old notes.old)
        (streams SW.contents SR.remaining F.contents F.faults client.new notes.new)
        will) }
{
    let heard = ask_once(rt, alloc, will, client)?;
    match made_told(heard.reply()) {
        Some(Ok(())) => Ok(Outcome::Done),
        Some(Err(refusal)) => {
            note_refusal(alloc, name.as_bytes(), refusal, notes)?;
            Ok(Outcome::Refused)
        }
        None => Err(AskError::Unknown),
    }
}

// Says where the service is, if that is to be said.
fn say<H: Wait, SR: Replies, SW: Requests, F: Sink>(
    rt: &H,
    alloc: Global,
    name: &str,
    told: Option<Request>,
    client: &mut Client<SR, SW>,
    notes: &mut F,
) -> Result<Outcome, AskError>
    ensures ok { IfOk result (IsSaid
        (streams SW.contents SR.remaining F.contents F.faults client.old notes.old)
        (streams SW.contents SR.remaining F.contents F.faults client.new notes.new)
        told name.now) }
    ensures err { IfErr result (FailsToSay
        (streams SW.contents SR.remaining F.contents F.faults client.old notes.old)
        (streams SW.contents SR.remaining F.contents F.faults client.new notes.new)
        told) }
{
    match told {
        Some(request) => tell(rt, alloc, name, request, client, notes),
        None => Ok(Outcome::Done),
    }
}

// Leaves the will first: if the session ends before the other request, nothing was said that no will takes back.
#[tactic(auto, using(crate::proofs::Held::asked_both, crate::proofs::Held::asked_in_vain))]
fn ask_each<H: Wait, SR: Replies, SW: Requests, F: Sink>(
    rt: &H,
    alloc: Global,
    name: &str,
    will: Request,
    told: Option<Request>,
    client: &mut Client<SR, SW>,
    notes: &mut F,
) -> Result<Outcome, AskError>
    ensures ok { IfOk result (IsAsked
        (streams SW.contents SR.remaining F.contents F.faults client.old notes.old)
        (streams SW.contents SR.remaining F.contents F.faults client.new notes.new)
        will told name.now) }
    ensures err { IfErr result (FailsToAskEach
        (streams SW.contents SR.remaining F.contents F.faults client.old notes.old)
        (streams SW.contents SR.remaining F.contents F.faults client.new notes.new)
        will told) }
{
    match leave(rt, alloc, name, will, client, notes) {
        Ok(Outcome::Done) => say(rt, alloc, name, told, client, notes),
        left => {
            // So no exit drops it, which would be a path for each kind of request in the proof.
            drop(told);
            left
        }
    }
}

// Reads the input to its end, or until the hub ends the connection.
fn read_out<H: Wait, T: Tie, R: Source>(
    rt: &H,
    tie: &T,
    chunk: &mut [u8],
    input: &mut R,
) -> Result<(), AskError>
    requires { 0 < length chunk.old }
    ensures ok { OnOk result (IsReadOut (R.remaining input.old) (R.remaining input.new)
        (R.faults input.old) (R.faults input.new)) }
    ensures err { IfErr result (FailsToRead (R.remaining input.old) (R.remaining input.new)
        (R.faults input.old) (R.faults input.new)) }
{
    'reads: for _ in rt.forever() {
        if !tie.awaits_input(rt) {
            return Err(AskError::Relay(RelayError::Ended));
        }
        match input.pull(chunk) {
            Ok(0) => return Ok(()),
            Ok(_) => {}
            Err(_) => return Err(AskError::Relay(RelayError::Input)),
        }
    }
    unreachable!()
}

// Reads the input to its end if both requests were carried out.
#[tactic(auto, using(crate::proofs::Held::is_not_read))]
fn hold_on<H: Wait, T: Tie, R: Source>(
    rt: &H,
    tie: &T,
    chunk: &mut [u8],
    outcome: Outcome,
    input: &mut R,
) -> Result<(), AskError>
    requires { 0 < length chunk.old }
    ensures ok { OnOk result (IsHeld
        (record { remaining = R.remaining; reads = R.reads; faults = R.faults })
        input.old input.new outcome) }
    ensures err { IfErr result (λ it. (outcome ≡ Outcome.Done)
        × FailsToRead (R.remaining input.old) (R.remaining input.new)
        (R.faults input.old) (R.faults input.new) it) }
{
    match outcome {
        Outcome::Done => read_out(rt, tie, chunk, input),
        _ => Ok(()),
    }
}

// The request that says where the service is, if that is to be said.
fn request_of(told: Option<State>, name: &Name) -> Result<Option<Request>, AllocError>
    ensures { IfOk result (λ it. it ≡ request_of told name.now) }
{
    match told {
        Some(state) => Ok(Some(Request::Tell {
            name: name.copy()?,
            state,
        })),
        None => Ok(None),
    }
}

/// Leaves a will for a service at the hub at the socket, says where the service is if that is to be said, and stays connected until
/// the input ends. Returns the exit status. `notes` gets a line if the hub refuses one of both. A text that is no name is refused.
pub fn hold_as_told<H: Wait, D: Dial, R: Source, F: Sink>(
    rt: &H,
    alloc: Global,
    dialer: &mut D,
    socket: &str,
    hold: Hold<'_>,
    input: &mut R,
    notes: &mut F,
) -> Result<u8, Ending>
    // If the text is no name, no connection is made. Else one connection is made, over which the one will goes, and then the one
    // `tell`, if there is one. The input is read only after both were carried out, and then to its end. Only a refusal is noted.
    ensures { HoldsAsTold
        (dialing D.reaches D.Receiver.remaining D.Sender.contents) dialer.old dialer.new socket.now
        (record { contents = F.contents; faults = F.faults }) notes.old notes.new
        (record { remaining = R.remaining; reads = R.reads; faults = R.faults }) input.old input.new
        hold.entry.name.now hold.entry.will hold.entry.told result }
{
    let Some(named) = Name::of(alloc, hold.name.as_bytes())? else {
        return Err(Ending::Refused(BadWords::NotName));
    };
    let mut chunk = new_chunk(alloc, CHUNK)?;
    let told = request_of(hold.told, &named)?;
    let will = Request::Will {
        name: named,
        state: hold.will,
    };
    let ((receiver, sender), tie) = dialer.tie(socket, ANSWER)?;
    let mut client = Client::new(receiver, sender);
    let outcome = ask_each(rt, alloc, hold.name, will, told, &mut client, notes)?;
    hold_on(rt, &tie, &mut chunk, outcome, input)?;
    Ok(outcome.status())
}
