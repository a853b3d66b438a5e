//! A wait, and how each service is that isn't as wanted in the end.
ghost use Rattle.std.specs.Prelude.{◌≡◌, ◌∷◌, [], length, true, IfOk, IfErr, IfSome, IfNone, OnOk, OnErr};
ghost use Rattle.std.specs.Io.KnownBytes.{Appends};
ghost use Rattle.hub_letters.specs.declared.span.Span.TheVariants as span;
ghost use Rattle.hub_requests.specs.declared.request.Request.TheVariants as request;
ghost use Rattle.hub_client.specs.Passing.{has_lf};
ghost use Rattle.hub_protocol.specs.Spelling.{form_of, spelling};
ghost use Rattle.hub_ask.specs.Asking.{FailsToHear, Hears};
ghost use Rattle.hub_ask.specs.Lines.{bytes_of, joined};
ghost use Rattle.hub_ask.specs.Sending.{SendsFront, lines_of_requests};
ghost use Rattle.hub_ask.specs.Waiting.{AsksAbout, AsksAll, FailsToEnd, IsEnded, questions, questions_about, reply_of, wait_words};
ghost use Rattle.hub_requests.specs.Texts.{text_of};

use crate::client::Client;
use crate::fault::AskError;
use crate::heard::Heard;
use crate::line::Line;
use crate::notes::{tell_state, want_of};
use crate::outcome::Outcome;
use crate::peer::{Replies, Requests};
use hub_client::RelayError;
use hub_io::{Sink, write_whole};
use hub_letters::{Span, Want};
use hub_protocol::{BorrowedReply, read_reply};
use hub_requests::{Name, Names, Refusal, Request};
use std::alloc::{AllocError, Global};
use std::io::Write;
use std::sync::Wait;

/// How many milliseconds a hub has for the reply of a wait after the wait's own time, and then for what is asked about the services.
pub const GRACE: u64 = 1_000;

/// The line of a wait. None if a word has an LF.
pub fn wait_line(
    alloc: Global,
    span: &str,
    want: &str,
    turns: u64,
    names: &[&str],
) -> Result<Option<Line>, AllocError>
    ensures line { IfOk result (λ it. IfSome it (λ line. bytes_of line
        ≡ wait_words span.now want.now turns (joined (λ name. name.now) names.now))) }
    ensures none { IfOk result (λ it. IfNone it (has_lf (wait_words span.now want.now turns
        (joined (λ name. name.now) names.now)) ≡ true)) }
{
    let turns = turns.to_string(alloc)?;
    let names = names.join(alloc, " ")?;
    Line::of(alloc, &["wait", span, want, turns.as_str(), names.as_str()])
}

// The request whether the service is as wanted.
fn now(alloc: Global, want: Want, name: Name) -> Result<Request, AllocError>
    ensures { IfOk result (λ it. it ≡ request.Wait span.All want 0 (name ∷ [])) }
{
    let mut names = Vec::new(alloc);
    names.push(name)?;
    Ok(Request::Wait {
        span: Span::All,
        want,
        turns: 0,
        names: Names::of(names),
    })
}

// Sends the request, and returns the reply, as `Client::hear` does. It takes the request, so that its caller doesn't have to drop it.
fn hear_once<H: Wait, SR: Replies, SW: Requests>(
    rt: &H,
    alloc: Global,
    request: Request,
    client: &mut Client<SR, SW>,
) -> Result<Option<Heard>, AskError>
    ensures ok { IfOk result (Hears
        (SW.contents client.old.sender) (SW.contents client.new.sender)
        (SR.remaining client.old.receiver) (SR.remaining client.new.receiver)
        (spelling (form_of request))) }
    ensures err { IfErr result (FailsToHear
        (SW.contents client.old.sender) (SW.contents client.new.sender)
        (SR.remaining client.old.receiver) (SR.remaining client.new.receiver)
        (spelling (form_of request)) client.new.is_broken) }
{
    client.hear(rt, alloc, &request)
}

// Asks whether the service is as wanted and how it is, and writes a line if it isn't as wanted.
fn explain_one<H: Wait, SR: Replies, SW: Requests, F: Write>(
    rt: &H,
    alloc: Global,
    want: Want,
    name: Name,
    text: &str,
    client: &mut Client<SR, SW>,
    notes: &mut F,
) -> Result<(), AskError>
    ensures ok { OnOk result (Appends
        (SW.contents client.old.sender) (SW.contents client.new.sender)
        (lines_of_requests (questions_about want name))) }
    ensures err { OnErr result (SendsFront
        (SW.contents client.old.sender) (SW.contents client.new.sender)
        (questions_about want name)) }
{
    let met = hear_once(rt, alloc, now(alloc, want, name.copy()?)?, client)?;
    let status = hear_once(rt, alloc, Request::Status { name }, client);
    tell_state(alloc, want, text, &met, &status, notes)?;
    match status {
        Ok(_) => Ok(()),
        Err(error) => Err(error),
    }
}

// Does so for each of the services whose names are some.
fn explain_each<H: Wait, SR: Replies, SW: Requests, F: Write>(
    rt: &H,
    alloc: Global,
    want: Want,
    names: &[&str],
    client: &mut Client<SR, SW>,
    notes: &mut F,
) -> Result<(), AskError>
    ensures asked { SendsFront (SW.contents client.old.sender) (SW.contents client.new.sender)
        (questions want (λ name. name.now) names.now) }
    ensures all { OnOk result (Appends (SW.contents client.old.sender) (SW.contents client.new.sender)
        (lines_of_requests (questions want (λ name. name.now) names.now))) }
{
    'names: for text in names {
        if let Some(name) = Name::of(alloc, text.as_bytes())? {
            explain_one(rt, alloc, want, name, text, client, notes)?;
        }
    }
    Ok(())
}

// Asks how the services are, for so long as is left for that, and writes a line for each that isn't as wanted.
fn explain<H: Wait, SR: Replies, SW: Requests, F: Write>(
    rt: &H,
    alloc: Global,
    want: &str,
    names: &[&str],
    client: &mut Client<SR, SW>,
    notes: &mut F,
) -> Result<(), AskError>
    ensures asked { AsksAbout want.now (λ name. name.now) names.now
        (SW.contents client.old.sender) (SW.contents client.new.sender) }
    ensures all { OnOk result (AsksAll want.now (λ name. name.now) names.now
        (SW.contents client.old.sender) (SW.contents client.new.sender)) }
{
    let Some(want) = want_of(want) else {
        return Ok(());
    };
    client.allow(GRACE);
    explain_each(rt, alloc, want, names, client, notes)
}

/// Why a reply isn't the end of a wait that may go on.
#[derive(Clone, Copy, Debug, PartialEq, Eq)]
pub enum Delay {
    /// A name isn't made yet.
    Missing,
    /// The time of this line is over.
    Late,
}

/// Why the reply line isn't the end of a wait that may go on. None if it is.
pub fn delay_of(reply: &[u8]) -> Option<Delay>
    ensures { IfSome result (λ delay. reply.now ≡ text_of (reply_of delay)) }
{
    match read_reply(reply)? {
        BorrowedReply::No(Refusal::Name) => Some(Delay::Missing),
        BorrowedReply::Late => Some(Delay::Late),
        _ => None,
    }
}

/// Writes the reply line of a wait, and tells how the wait went; only a `yes` is done. If it was refused, `never` or `late`, it asks how
/// each service is, and writes a line to `notes` for each that isn't as wanted. What goes wrong then isn't told.
pub fn end_wait<H: Wait, SR: Replies, SW: Requests, W: Sink, F: Write>(
    rt: &H,
    alloc: Global,
    reply: &[u8],
    want: &str,
    names: &[&str],
    client: &mut Client<SR, SW>,
    output: &mut W,
    notes: &mut F,
) -> Result<Outcome, AskError>
    // Only these questions are sent, and only if it was refused, `never` or `late`.
    ensures ok { IfOk result (IsEnded (length names.now)
        (SW.contents client.old.sender) (SW.contents client.new.sender)
        (SR.remaining client.old.receiver) (SR.remaining client.new.receiver)
        (W.contents output.old) (W.contents output.new) reply.now
        (AsksAbout want.now (λ name. name.now) names.now)) }
    // Without an outcome nothing is sent.
    ensures err { IfErr result (FailsToEnd (length names.now)
        (W.contents output.old) (W.contents output.new) reply.now) }
    ensures kept { OnErr result (client.new ≡ client.old) }
{
    if write_whole(output, reply).is_err() {
        return Err(AskError::Relay(RelayError::Output));
    }
    let outcome = Outcome::of_wait(reply, names.len()).ok_or(AskError::Unknown)?;
    match outcome {
        Outcome::Refused | Outcome::Never | Outcome::Late => {
            let _: Result<(), AskError> = explain(rt, alloc, want, names, client, notes);
        }
        Outcome::Done | Outcome::Nothing => {}
    }
    Ok(outcome)
}
