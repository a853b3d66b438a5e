//! One line to a peer, and its reply.
ghost use Rattle.std.specs.Prelude.{◌≡◌, ◌≢◌, ◌++◌, ◌∷◌, [], ℕ, List, false, Result, Err, IfOk, OnErr};
ghost use Rattle.hub_io.specs.Lines.{lines_of};
ghost use Rattle.hub_client.specs.Passing.{has_lf};
ghost use Rattle.hub_io.specs.Telling.{Rises};
ghost use Rattle.hub_client.specs.Faults.{send_faults, receive_faults};
ghost use Rattle.hub_client.specs.declared.fault.RelayError.{RelayError as relay_error};
ghost use Rattle.hub_client.specs.declared.fault.RelayError.TheVariants as relay;
ghost use Rattle.hub_ask.specs.declared.fault.AskError.TheVariants as ask;
ghost use Rattle.hub_ask.specs.Asking.{IsAnswered, IsBrokenOff};
ghost use Rattle.hub_ask.specs.Faults.{IsToldAs, of_exchange};
ghost use Rattle.hub_ask.specs.Lines.{bytes_of};

use crate::fault::AskError;
use crate::line::Line;
use crate::peer::{Halt, Replies, Requests};
use hub_client::{RelayError, relay};
use std::alloc::Global;
use std::sync::Wait;

/// How many milliseconds a hub has for an answer, besides the time that the request itself asks for.
pub const ANSWER: u64 = 10_000;

// The line as an input of the relay, which adds an LF to a last line that has none. An empty input has no line.
fn as_input(line: &[u8]) -> &[u8]
    requires { has_lf line.now ≡ false }
    ensures one { lines_of result.now ≡ line.now ∷ [] }
    ensures prefix { (rest : List ℕ) × (line.now ++ 10 ∷ [] ≡ result.now ++ rest) }
{
    if line.is_empty() { b"\n" } else { line }
}

// The error of an exchange whose relay stopped so: the reply is written to memory. `is_late` says whether the writer to the peer was
// late, and `halt` why the reader of its replies gave no more.
fn of_relay(fault: RelayError, is_late: bool, halt: Option<Halt>) -> AskError
    ensures { result ≡ of_exchange fault is_late halt }
{
    match (fault, halt) {
        (RelayError::Send, _) if is_late => AskError::NoAnswer,
        (RelayError::Receive, Some(Halt::Late)) => AskError::NoAnswer,
        (RelayError::Receive, Some(Halt::Overlong)) => AskError::Unknown,
        (RelayError::Output, _) => AskError::Relay(RelayError::Memory),
        (other, _) => AskError::Relay(other),
    }
}

/// Sends the line with an LF, and returns the peer's next line, with its LF. An error is never of the input, the output or the
/// words. It is `NoAnswer` if one of the streams is late, and `Unknown` if the reply is too long.
pub fn exchange<H: Wait, SR: Replies, SW: Requests>(
    rt: &H,
    alloc: Global,
    line: &Line,
    receiver: &mut SR,
    sender: &mut SW,
) -> Result<Vec<u8>, AskError>
    ensures ok { IfOk result (λ reply. IsAnswered
        (SW.contents sender.old) (SW.contents sender.new)
        (SR.remaining receiver.old) (SR.remaining receiver.new)
        (bytes_of line.now) reply.items) }
    ensures err { OnErr result (IsBrokenOff
        (SW.contents sender.old) (SW.contents sender.new)
        (SR.remaining receiver.old) (SR.remaining receiver.new)
        (bytes_of line.now)) }
    ensures output { result ≢ Err (ask.Relay relay.Output) }
    ensures input { result ≢ Err (ask.Relay relay.Input) }
    ensures words { result ≢ Err ask.Words }
    // An error is told of a stream if its fault was counted, and only then.
    ensures told { (outcome : Result ℕ relay_error) × IsToldAs outcome result
        × Rises (SW.faults sender.old) (SW.faults sender.new) (send_faults outcome)
        × Rises (SR.faults receiver.old) (SR.faults receiver.new) (receive_faults outcome) }
{
    let mut reply = Vec::new(alloc);
    let mut request = as_input(line.as_bytes());
    match relay(rt, alloc, &mut request, &mut reply, receiver, sender) {
        Ok(_) => Ok(reply),
        Err(fault) => Err(of_relay(fault, sender.is_late(), receiver.halt())),
    }
}
