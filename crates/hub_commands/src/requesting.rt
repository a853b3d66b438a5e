//! One request over a connection.
ghost use Rattle.std.specs.Prelude.{IfOk, IfErr};
ghost use Rattle.hub_ask.specs.Asking.{FailsToAsk, IsAnswered};
ghost use Rattle.hub_ask.specs.Hearing.{line_of};
ghost use Rattle.hub_protocol.specs.Spelling.{form_of, spelling};

use hub_ask::{AskError, Client, Heard, Replies, Requests};
use hub_requests::Request;
use std::alloc::Global;
use std::sync::Wait;

/// Sends the request, and returns the hub's reply. It takes the request, so that its caller has nothing to drop but the reply.
pub(crate) fn ask_once<H: Wait, SR: Replies, SW: Requests>(
    rt: &H,
    alloc: Global,
    request: Request,
    client: &mut Client<SR, SW>,
) -> Result<Heard, AskError>
    ensures ok { IfOk result (λ heard. IsAnswered
        (SW.contents client.old.sender) (SW.contents client.new.sender)
        (SR.remaining client.old.receiver) (SR.remaining client.new.receiver)
        (spelling (form_of request)) (line_of heard)) }
    ensures err { IfErr result (FailsToAsk
        (SW.contents client.old.sender) (SW.contents client.new.sender)
        (SR.remaining client.old.receiver) (SR.remaining client.new.receiver)
        (spelling (form_of request)) client.new.is_broken) }
{
    client.ask(rt, alloc, &request)
}
