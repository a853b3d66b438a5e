//! A hub that is only looked at.
ghost use Rattle.std.specs.Prelude.{◌≡◌, false, IfOk, IfErr};
ghost use Rattle.hub_protocol.specs.Spelling.{form_of, spelling};
ghost use Rattle.hub_ask.specs.Asking.{FailsToAsk, IsAnswered};
ghost use Rattle.hub_ask.specs.Hearing.{line_of};
ghost use Rattle.hub_look.specs.Looking.{IsLook};
ghost use Rattle.hub_look.specs.Looks.{AsksWhole, OnlyLooks};

use hub_ask::{AskError, Client, Heard, Replies, Requests};
use hub_io::Sink;
use hub_requests::Request;
use std::alloc::Global;
use std::snapshot::Snapshot;
use std::sync::Wait;

/// A hub that is sent nothing but looks, as a [`Client`] sends them: after one that broke off, nothing any more.
#[derive(Drop)]
pub struct Peer<SR, SW: Sink> {
    /// Through which it is asked.
    pub client: Client<SR, SW>,
    /// The sender as it was given.
    pub begun: Snapshot<SW>,
    ghost only: { ∥ OnlyLooks (SW.contents begun.value) (SW.contents client.sender) ∥₁ },
    ghost whole: { client.is_broken ≡ false
        → ∥ AsksWhole (SW.contents begun.value) (SW.contents client.sender) ∥₁ },
}

impl<SR: Replies, SW: Requests> Peer<SR, SW> {
    /// A hub that is reached by these streams.
    pub fn new(receiver: SR, sender: SW) -> Peer<SR, SW>
        ensures begun { result.begun.value ≡ sender }
        ensures sent { SW.contents result.client.sender ≡ SW.contents sender }
        ensures had { SR.remaining result.client.receiver ≡ SR.remaining receiver }
    {
        let begun = Snapshot::of(&sender);
        Peer {
            client: Client::new(receiver, sender),
            begun,
        }
    }

    /// Sends a look, and returns the reply.
    pub(crate) fn ask<H: Wait>(
        &mut self,
        rt: &H,
        alloc: Global,
        request: &Request,
    ) -> Result<Heard, AskError>
        requires { IsLook request.now }
        ensures begun { self.new.begun ≡ self.old.begun }
        ensures ok { IfOk result (λ heard. IsAnswered
            (SW.contents self.old.client.sender) (SW.contents self.new.client.sender)
            (SR.remaining self.old.client.receiver) (SR.remaining self.new.client.receiver)
            (spelling (form_of request.now)) (line_of heard)) }
        ensures err { IfErr result (FailsToAsk
            (SW.contents self.old.client.sender) (SW.contents self.new.client.sender)
            (SR.remaining self.old.client.receiver) (SR.remaining self.new.client.receiver)
            (spelling (form_of request.now)) self.new.client.is_broken) }
    {
        self.client.ask(rt, alloc, request)
    }
}
