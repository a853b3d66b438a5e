//! Why a command ends before its work is done.
ghost use Rattle.std.specs.Prelude.{◌≡◌, ◌++◌, ◌∷◌, [], IfErr, OnOk, MatchResult};
ghost use Rattle.std.specs.Io.KnownBytes.{Appends};
ghost use Rattle.hub_io.specs.Faults.{AppendsPart};
ghost use Rattle.hub_ask.specs.Streams.{IsToldTo, note_of};
ghost use Rattle.hub_look.specs.Tables.{reason_of};
ghost use Rattle.hub_ask.specs.declared.fault.AskError.TheVariants as ask;
ghost use Rattle.hub_client.specs.declared.fault.RelayError.TheVariants as relay;
ghost use Rattle.hub_look.specs.declared.stop.Stop.TheVariants as stops;

use hub_ask::{AskError, Outcome, note, note_on, write_note};
use hub_client::RelayError;
use hub_io::{Sink, write_whole};
use hub_protocol::write_reply;
use hub_requests::{Refusal, Reply};
use std::alloc::{AllocError, Global};

/// Why a command ends before its work is done.
#[derive(Clone, Copy)]
pub(crate) enum Stop {
    /// A fault.
    Fault(AskError),
    /// A reply that ends it, and how it went by that reply.
    Reply(Outcome),
}

impl Stop {
    /// How the command that stopped so went.
    pub(crate) fn outcome(self) -> Result<Outcome, AskError>
        ensures { MatchResult result (λ it. self ≡ stops.Reply it)
            (λ error. self ≡ stops.Fault error) }
    {
        match self {
            Stop::Fault(error) => Err(error),
            Stop::Reply(outcome) => Ok(outcome),
        }
    }
}

impl From<AskError> for Stop {
    ghost from_gives = { λ error it. it ≡ stops.Fault error };

    fn from(error: AskError) -> Stop {
        Stop::Fault(error)
    }
}

impl From<AllocError> for Stop {
    ghost from_gives = { λ _ it. it ≡ stops.Fault (ask.Relay relay.Memory) };

    fn from(_error: AllocError) -> Stop {
        Stop::Fault(AskError::Relay(RelayError::Memory))
    }
}

/// Writes the text whole.
pub(crate) fn write_text<W: Sink>(output: &mut W, text: &[u8]) -> Result<(), Stop>
    ensures ok { OnOk result (Appends (W.contents output.old) (W.contents output.new) text.now) }
    ensures err { IfErr result (λ stop. (stop ≡ stops.Fault (ask.Relay relay.Output))
        × AppendsPart (W.contents output.old) (W.contents output.new) text.now) }
{
    match write_whole(output, text) {
        Ok(()) => Ok(()),
        Err(_) => Err(Stop::Fault(AskError::Relay(RelayError::Output))),
    }
}

// Puts a line that says why the hub refuses something behind these bytes.
fn put_reason(refusal: Refusal, line: &mut Vec<u8>) -> Result<(), AllocError>
    ensures { OnOk result (line.new.items ≡ line.old.items ++ (reason_of refusal ++ 10 ∷ [])) }
{
    match refusal {
        Refusal::Right => {
            line.extend_from_slice(b"this socket only looks: ask at the hub's own socket\n")
        }
        Refusal::Name => line.extend_from_slice(b"no such fifodir\n"),
        Refusal::Closed => line.extend_from_slice(b"closed\n"),
        _ => write_reply(&Reply::No(refusal), line),
    }
}

/// Writes a line that says what the hub refuses of this name.
pub(crate) fn tell_refusal<F: Sink>(
    alloc: Global,
    name: &str,
    refusal: Refusal,
    notes: &mut F,
) -> Result<(), AllocError>
    ensures ok { OnOk result (IsToldTo (F.contents notes.old) (F.contents notes.new)
        (F.faults notes.old) (F.faults notes.new) (note_of name.now (reason_of refusal))) }
{
    let mut note = note_on(alloc, name.as_bytes())?;
    put_reason(refusal, &mut note)?;
    write_note(&note, notes);
    Ok(())
}

/// Writes a line on this name.
pub(crate) fn tell<F: Sink>(
    alloc: Global,
    name: &str,
    what: &str,
    notes: &mut F,
) -> Result<(), AllocError>
    ensures ok { OnOk result (IsToldTo (F.contents notes.old) (F.contents notes.new)
        (F.faults notes.old) (F.faults notes.new) (note_of name.now what.now)) }
{
    note(alloc, name.as_bytes(), what.as_bytes(), notes)
}
