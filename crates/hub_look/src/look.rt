//! The requests that only look.
ghost use Rattle.std.specs.Prelude.{◌≡◌, IfOk, IfErr, MatchBool, MatchResult};
ghost use Rattle.hub_requests.specs.declared.reply.Refusal.TheVariants as refusal;
ghost use Rattle.hub_client.specs.declared.fault.RelayError.TheVariants as relay;
ghost use Rattle.hub_ask.specs.declared.fault.AskError.TheVariants as ask;
ghost use Rattle.hub_ask.specs.Lines.{joined};
ghost use Rattle.hub_look.specs.Looking.{IsLook, LooksBy};

use hub_ask::AskError;
use hub_client::RelayError;
use hub_protocol::parse;
use hub_requests::{Refusal, Request};
use std::alloc::Global;

// Whether the request publishes nothing, and makes and closes no fifodir.
fn is_look(request: &Request) -> bool
    ensures { MatchBool result (IsLook request.now) (IsLook request.now → ⊥) }
{
    match request {
        Request::Names { .. }
        | Request::Status { .. }
        | Request::About { .. }
        | Request::Sub { .. }
        | Request::Listen { .. }
        | Request::Next { .. }
        | Request::Cancel { .. } => true,
        _ => false,
    }
}

// The request, if it only looks. Another one has no word of a look.
fn only_look(request: Request) -> Result<Request, Refusal>
    ensures { MatchResult result (λ it. (it ≡ request) × IsLook it)
        (λ it. (it ≡ refusal.Word) × (IsLook request → ⊥)) }
{
    if is_look(&request) {
        Ok(request)
    } else {
        Err(Refusal::Word)
    }
}

/// The look that the line of these words spells, or why a hub refuses the line. A line that spells another request has no word of a
/// look.
pub(crate) fn look_of(alloc: Global, words: &[&str]) -> Result<Result<Request, Refusal>, AskError>
    ensures ok { IfOk result (LooksBy (joined (λ word. word.now) words.now)) }
    ensures err { IfErr result (λ error. error ≡ ask.Relay relay.Memory) }
{
    let line = words.join(alloc, " ")?;
    match parse(alloc, line.as_bytes()) {
        Ok(request) => Ok(only_look(request)),
        Err(Refusal::Memory) => Err(AskError::Relay(RelayError::Memory)),
        Err(refusal) => Ok(Err(refusal)),
    }
}
