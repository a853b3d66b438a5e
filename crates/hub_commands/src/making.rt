//! The subcommand `make`: fifodirs as they are wanted.
ghost use Rattle.std.specs.Prelude.{◌≡◌, ◌≢◌, map, false, MatchBool, IfOk, IfErr, IfSome, IfNone};
ghost use Rattle.std.specs.List.{list_all};
ghost use Rattle.hub_ask.specs.Streams.{streams};
ghost use Rattle.hub_requests.specs.Names.{is_name};
ghost use Rattle.hub_requests.specs.declared.reply.Refusal.TheVariants.{Exists};
ghost use Rattle.hub_dialing.specs.Dialing.{dialing};
ghost use Rattle.hub_commands.specs.Making.{FailsToLook, FailsToMake, FailsToMakeEach, IsCompared, IsJudged, IsMade, MakesAsTold, MakesEach, about_told, made_told, outcome_after};

use crate::noting::note_refusal;
use crate::requesting::ask_once;
use crate::shaping::{is_alike, request_for, unlike_text};
use hub_ask::{ANSWER, AskError, Client, Outcome, Replies, Requests, note};
use hub_dialing::Dial;
use hub_endings::{BadWords, Ending};
use hub_io::Sink;
use hub_options::Shape;
use hub_protocol::BorrowedReply;
use hub_requests::{About, Name, Refusal, Request};
use std::alloc::{AllocError, Global};
use std::sync::Wait;

/// What a hub says to a `dir`, a `svc` or a `will`: that it is done, or why not. None if it says something else.
pub(crate) fn made_told(read: BorrowedReply<'_>) -> Option<Result<(), Refusal>>
    ensures { result ≡ made_told read.entry }
{
    match read {
        BorrowedReply::Done => Some(Ok(())),
        BorrowedReply::No(refusal) => Some(Err(refusal)),
        _ => None,
    }
}

// What a hub says to an `about`. None if it says something else.
fn about_told(read: BorrowedReply<'_>) -> Option<Result<About, Refusal>>
    ensures { result ≡ about_told read.entry }
{
    match read {
        BorrowedReply::About(about) => Some(Ok(about)),
        BorrowedReply::No(refusal) => Some(Err(refusal)),
        _ => None,
    }
}

// Whether a hub refuses since something is there.
fn is_there(refusal: Refusal) -> bool
    ensures { MatchBool result (refusal ≡ Exists) (refusal ≢ Exists) }
{
    matches!(refusal, Refusal::Exists)
}

// Judges what is there by what is wanted. If it is another, both are noted.
fn judge<F: Sink>(
    alloc: Global,
    name: &Name,
    there: About,
    wanted: Shape,
    notes: &mut F,
) -> Result<Outcome, AllocError>
    ensures ok { IfOk result (IsJudged (F.contents notes.old) (F.contents notes.new)
        (F.faults notes.old) (F.faults notes.new) name.now there wanted) }
    ensures err { IfErr result (λ _. notes.new ≡ notes.old) }
{
    if is_alike(there, wanted) {
        return Ok(Outcome::Done);
    }
    let text = unlike_text(alloc, there, wanted)?;
    note(alloc, name.bytes(), &text, notes)?;
    Ok(Outcome::Refused)
}

// Looks at what is there, and compares it with what is wanted.
fn compare<H: Wait, SR: Replies, SW: Requests, F: Sink>(
    rt: &H,
    alloc: Global,
    name: &Name,
    wanted: Shape,
    client: &mut Client<SR, SW>,
    notes: &mut F,
) -> Result<Outcome, AskError>
    ensures ok { IfOk result (IsCompared
        (streams SW.contents SR.remaining F.contents F.faults client.old notes.old)
        (streams SW.contents SR.remaining F.contents F.faults client.new notes.new)
        name.now wanted) }
    ensures err { IfErr result (FailsToLook
        (streams SW.contents SR.remaining F.contents F.faults client.old notes.old)
        (streams SW.contents SR.remaining F.contents F.faults client.new notes.new)
        name.now) }
{
    let look = Request::About { name: name.copy()? };
    let heard = ask_once(rt, alloc, look, client)?;
    match about_told(heard.reply()) {
        Some(Ok(about)) => Ok(judge(alloc, name, about, wanted, notes)?),
        Some(Err(refusal)) => {
            note_refusal(alloc, name.bytes(), refusal, notes)?;
            Ok(Outcome::Refused)
        }
        None => Err(AskError::Unknown),
    }
}

// Makes one fifodir, or sees that it is there as it is wanted.
fn make<H: Wait, SR: Replies, SW: Requests, F: Sink>(
    rt: &H,
    alloc: Global,
    name: &Name,
    wanted: Shape,
    client: &mut Client<SR, SW>,
    notes: &mut F,
) -> Result<Outcome, AskError>
    ensures ok { IfOk result (IsMade
        (streams SW.contents SR.remaining F.contents F.faults client.old notes.old)
        (streams SW.contents SR.remaining F.contents F.faults client.new notes.new)
        wanted name.now) }
    ensures err { IfErr result (FailsToMake
        (streams SW.contents SR.remaining F.contents F.faults client.old notes.old)
        (streams SW.contents SR.remaining F.contents F.faults client.new notes.new)
        wanted name.now) }
{
    let request = request_for(wanted, name.copy()?);
    let heard = ask_once(rt, alloc, request, client)?;
    match made_told(heard.reply()) {
        Some(Ok(())) => Ok(Outcome::Done),
        Some(Err(refusal)) => {
            if is_there(refusal) {
                return compare(rt, alloc, name, wanted, client, notes);
            }
            note_refusal(alloc, name.bytes(), refusal, notes)?;
            Ok(Outcome::Refused)
        }
        None => Err(AskError::Unknown),
    }
}

// How a command goes on that went so, after one more went so.
fn outcome_after(outcome: Outcome, next: Outcome) -> Outcome
    ensures { result ≡ outcome_after outcome next }
{
    match next {
        Outcome::Done => outcome,
        _ => Outcome::Refused,
    }
}

// Makes each of these, one after another.
fn make_each<H: Wait, SR: Replies, SW: Requests, F: Sink>(
    rt: &H,
    alloc: Global,
    names: &[Name],
    wanted: Shape,
    client: &mut Client<SR, SW>,
    notes: &mut F,
) -> Result<Outcome, AskError>
    ensures ok { IfOk result (MakesEach
        (streams SW.contents SR.remaining F.contents F.faults client.old notes.old)
        (streams SW.contents SR.remaining F.contents F.faults client.new notes.new)
        wanted names.now) }
    ensures err { IfErr result (FailsToMakeEach
        (streams SW.contents SR.remaining F.contents F.faults client.old notes.old)
        (streams SW.contents SR.remaining F.contents F.faults client.new notes.new)
        wanted names.now) }
{
    let mut outcome = Outcome::Done;
    'names: for name in names {
        let next = make(rt, alloc, name, wanted, client, notes)?;
        outcome = outcome_after(outcome, next);
    }
    Ok(outcome)
}

// The names of these texts. None if one of them isn't a name.
fn names_of(alloc: Global, texts: &[&str]) -> Result<Option<Vec<Name>>, AllocError>
    ensures some { IfOk result (λ it. IfSome it (λ names. names.items
        ≡ map (λ text. text.now) texts.now)) }
    ensures none { IfOk result (λ it. IfNone it
        (list_all (λ text. is_name text.now) texts.now ≡ false)) }
{
    let mut names = Vec::with_capacity(alloc, texts.len())?;
    'texts: for text in texts {
        let Some(name) = Name::of(alloc, text.as_bytes())? else {
            return Ok(None);
        };
        names.push(name)?;
    }
    Ok(Some(names))
}

/// Makes fifodirs of this shape at the hub at the socket, or sees that they are there, and returns the exit status. `notes` gets a line
/// for each that isn't as wanted. A text that is no name is refused.
pub fn make_fifodirs<H: Wait, D: Dial, F: Sink>(
    rt: &H,
    alloc: Global,
    dialer: &mut D,
    socket: &str,
    names: &[&str],
    shape: Shape,
    notes: &mut F,
) -> Result<u8, Ending>
    // If a text is no name, no connection is made, and nothing is noted. Else one connection is made, over which each is made in order,
    // and one that is there is looked at. Each that isn't as wanted has a note.
    ensures { MakesAsTold
        (dialing D.reaches D.Receiver.remaining D.Sender.contents) dialer.old dialer.new socket.now
        (record { contents = F.contents; faults = F.faults }) notes.old notes.new
        (λ name. name.now) names.now shape result }
{
    let Some(names) = names_of(alloc, names)? else {
        return Err(Ending::Refused(BadWords::NotName));
    };
    let (receiver, sender) = dialer.dial(socket, ANSWER)?;
    let mut client = Client::new(receiver, sender);
    let outcome = make_each(rt, alloc, &names, shape, &mut client, notes)?;
    Ok(outcome.status())
}
