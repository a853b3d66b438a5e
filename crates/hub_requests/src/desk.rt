//! The trait of a desk.
ghost use Rattle.hub_requests.specs.Ranges.{IsInRange};
ghost use Rattle.hub_requests.specs.declared.reply.Reply.{Reply};
ghost use Rattle.hub_requests.specs.declared.request.Request.{Request};

use crate::reply::Reply;
use crate::request::Request;
use hub_record::Enter;
use std::sync::Wait;

/// A desk answers the requests of one session, each by what the requests before it have left.
pub trait Desk {
    /// `asks old request reply new`: a desk in the state `old` may answer the request with this reply, and is then in
    /// the state `new`.
    ghost asks: { Self → Request → Reply → Self → Type 0 };

    /// `ends old new`: the end of a desk in the state `old` may leave it in the state `new`.
    ghost ends: { Self → Self → Type 0 };

    /// Answers a request whose numbers are in their ranges.
    fn ask<H: Wait + Enter>(&mut self, rt: &H, request: &Request) -> Reply
        requires { IsInRange request.now }
        ensures { asks self.old request.now result self.new };

    /// Releases all that the session holds. The fifodirs stay. The desk has no handles afterwards, and can be used
    /// again.
    fn end<H: Wait>(&mut self, rt: &H)
        ensures { ends self.old self.new };
}
