//! A hub that is asked.
ghost use Rattle.std.specs.Prelude.{◌≡◌, ◌≢◌, Err, true, false, IsErr, IfOk, IfErr, OnOk, OnErr};
ghost use Rattle.hub_client.specs.Passing.{has_lf};
ghost use Rattle.hub_client.specs.declared.fault.RelayError.TheVariants as relay;
ghost use Rattle.hub_ask.specs.declared.fault.AskError.TheVariants as ask;
ghost use Rattle.hub_ask.specs.Asking.{FailsToAsk, FailsToHear, Hears, IsAnswered, IsBrokenOff};
ghost use Rattle.hub_ask.specs.Hearing.{line_of};
ghost use Rattle.hub_ask.specs.Lines.{bytes_of};
ghost use Rattle.hub_protocol.specs.Spelling.{form_of, spelling};

use crate::duration::turns_of_request;
use crate::exchanging::{ANSWER, exchange};
use crate::fault::AskError;
use crate::heard::Heard;
use crate::line::Line;
use crate::peer::{Replies, Requests};
use hub_client::RelayError;
use hub_requests::Request;
use std::alloc::Global;
use std::sync::Wait;

/// A hub that is asked over two streams. After an exchange that broke off, it is sent nothing any more.
#[derive(Drop)]
pub struct Client<SR, SW> {
    /// What it replies.
    pub receiver: SR,
    /// What it is sent.
    pub sender: SW,
    /// Whether an exchange broke off.
    pub is_broken: bool,
}

impl<SR: Replies, SW: Requests> Client<SR, SW> {
    /// A hub that is reached by these streams.
    pub fn new(receiver: SR, sender: SW) -> Client<SR, SW>
        ensures { result ≡ record { receiver = receiver; sender = sender; is_broken = false } }
    {
        Client {
            receiver,
            sender,
            is_broken: false,
        }
    }

    /// From now on, a hub has so many milliseconds in all.
    pub fn allow(&mut self, millis: u64)
        ensures sent { SW.contents self.new.sender ≡ SW.contents self.old.sender }
        ensures had { SR.remaining self.new.receiver ≡ SR.remaining self.old.receiver }
        ensures broken { self.new.is_broken ≡ self.old.is_broken }
    {
        self.receiver.allow(millis);
        self.sender.allow(millis);
    }

    /// Sends the line with an LF, and returns the peer's next line, with its LF. An error is never of the input, the output or the
    /// words.
    pub fn send<H: Wait>(&mut self, rt: &H, alloc: Global, line: &Line) -> Result<Vec<u8>, AskError>
        ensures ok { IfOk result (λ reply. IsAnswered
            (SW.contents self.old.sender) (SW.contents self.new.sender)
            (SR.remaining self.old.receiver) (SR.remaining self.new.receiver)
            (bytes_of line.now) reply.items) }
        ensures whole { OnOk result (self.new.is_broken ≡ false) }
        ensures err { OnErr result (IsBrokenOff
            (SW.contents self.old.sender) (SW.contents self.new.sender)
            (SR.remaining self.old.receiver) (SR.remaining self.new.receiver)
            (bytes_of line.now)) }
        ensures breaks { OnErr result (self.new.is_broken ≡ true) }
        // After an exchange that broke off, nothing is sent or read.
        ensures broken { self.old.is_broken ≡ true
            → (result ≡ Err (ask.Relay relay.Ended)) × (self.new ≡ self.old) }
        ensures output { result ≢ Err (ask.Relay relay.Output) }
        ensures input { result ≢ Err (ask.Relay relay.Input) }
        ensures words { result ≢ Err ask.Words }
    {
        if self.is_broken {
            return Err(AskError::Relay(RelayError::Ended));
        }
        self.is_broken = true;
        let reply = exchange(rt, alloc, line, &mut self.receiver, &mut self.sender)?;
        self.is_broken = false;
        Ok(reply)
    }

    /// Sends the request, and returns the hub's reply, in the time that is left of what was allowed. None if the peer's line is no reply
    /// of a hub.
    pub fn hear<H: Wait>(
        &mut self,
        rt: &H,
        alloc: Global,
        request: &Request,
    ) -> Result<Option<Heard>, AskError>
        // The request's one line was sent, once and whole. The reply is that of the first line that came.
        ensures ok { IfOk result (Hears
            (SW.contents self.old.sender) (SW.contents self.new.sender)
            (SR.remaining self.old.receiver) (SR.remaining self.new.receiver)
            (spelling (form_of request.now))) }
        ensures whole { OnOk result (self.new.is_broken ≡ false) }
        ensures err { IfErr result (FailsToHear
            (SW.contents self.old.sender) (SW.contents self.new.sender)
            (SR.remaining self.old.receiver) (SR.remaining self.new.receiver)
            (spelling (form_of request.now)) self.new.is_broken) }
        // Nor is anything sent after an exchange that broke off, or of a request that is several lines.
        ensures broken { self.old.is_broken ≡ true → IsErr result × (self.new ≡ self.old) }
        ensures cut { has_lf (spelling (form_of request.now)) ≡ true
            → IsErr result × (self.new ≡ self.old) }
    {
        let Some(line) = Line::of_request(alloc, request)? else {
            return Err(AskError::Words);
        };
        let reply = self.send(rt, alloc, &line)?;
        Ok(Heard::of(reply))
    }

    /// Sends the request, and returns the hub's reply. The hub has [`ANSWER`] milliseconds, and the time that the request itself asks
    /// for.
    pub fn ask<H: Wait>(
        &mut self,
        rt: &H,
        alloc: Global,
        request: &Request,
    ) -> Result<Heard, AskError>
        ensures ok { IfOk result (λ heard. IsAnswered
            (SW.contents self.old.sender) (SW.contents self.new.sender)
            (SR.remaining self.old.receiver) (SR.remaining self.new.receiver)
            (spelling (form_of request.now)) (line_of heard)) }
        ensures whole { OnOk result (self.new.is_broken ≡ false) }
        ensures err { IfErr result (FailsToAsk
            (SW.contents self.old.sender) (SW.contents self.new.sender)
            (SR.remaining self.old.receiver) (SR.remaining self.new.receiver)
            (spelling (form_of request.now)) self.new.is_broken) }
        // Nothing is sent or read after an exchange that broke off, or of a request that is several lines.
        ensures broken { self.old.is_broken ≡ true → IsErr result
            × (SW.contents self.new.sender ≡ SW.contents self.old.sender)
            × (SR.remaining self.new.receiver ≡ SR.remaining self.old.receiver)
            × (self.new.is_broken ≡ true) }
        ensures cut { has_lf (spelling (form_of request.now)) ≡ true → IsErr result
            × (SW.contents self.new.sender ≡ SW.contents self.old.sender)
            × (SR.remaining self.new.receiver ≡ SR.remaining self.old.receiver) }
    {
        self.allow(turns_of_request(request).saturating_add(ANSWER));
        match self.hear(rt, alloc, request)? {
            Some(heard) => Ok(heard),
            None => Err(AskError::Unknown),
        }
    }
}
