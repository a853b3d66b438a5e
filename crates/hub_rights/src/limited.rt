//! A desk that makes at most so many fifodirs.
ghost use Rattle.std.specs.Prelude.{◌≡◌};
ghost use Rattle.hub_rights.specs.Limits.{IsOverTheShare, left_after, left_of};

use crate::asking::ask_about;
use hub_requests::{Desk, Enter, Name, Refusal, Reply, Request};
use std::sync::Wait;

/// A desk whose session may make at most so many fifodirs, so that one session can't use up the names of a hub. A `dir` or a `svc`
/// beyond that is refused as [`Refusal::Many`], or as [`Refusal::Exists`] if there is such a fifodir.
pub struct Limited<D> {
    pub below: D,
    /// How many fifodirs the session may still make.
    left: u64,
}

// How many fifodirs a session may still make after a request that makes one was replied to.
fn left_after(left: u64, reply: &Reply) -> u64
    ensures { result ≡ left_after left reply.now }
{
    match reply {
        Reply::Done => left.saturating_sub(1),
        _ => left,
    }
}

impl<D: Desk> Limited<D> {
    /// A session that may make this many fifodirs at the desk.
    pub fn over(below: D, names: u64) -> Limited<D>
        ensures below { result.below ≡ below }
        ensures left { left_of result ≡ names }
    {
        Limited { below, left: names }
    }

    /// The desk below, for who takes it back once the session is over.
    pub fn into_below(self) -> D
        ensures { result ≡ self.below }
    {
        let Limited { below, left: _ } = self;
        below
    }

    // Refuses to make one more fifodir.
    fn refuse<H: Wait + Enter>(&mut self, rt: &H, name: &Name) -> Reply
        ensures asked { IsOverTheShare D.asks self.old.below name.now result self.new.below }
        ensures left { self.new.left ≡ self.old.left }
    {
        let Ok(name) = name.copy() else {
            return Reply::No(Refusal::Memory);
        };
        match ask_about(rt, &mut self.below, name) {
            Reply::About(_) => Reply::No(Refusal::Exists),
            Reply::No(refusal) if refusal != Refusal::Name => Reply::No(refusal),
            _ => Reply::No(Refusal::Many),
        }
    }
}

impl<D: Desk> Desk for Limited<D> {
    ghost use Rattle.hub_rights.specs.Limits.{StaysWithin};

    ghost asks = { λ old request reply new.
        StaysWithin D.asks old.left old.below request reply new.left new.below };

    ghost ends = { λ old new. D.ends old.below new.below × (new.left ≡ old.left) };

    fn ask<H: Wait + Enter>(&mut self, rt: &H, request: &Request) -> Reply {
        match request {
            Request::Dir { name, .. } | Request::Svc { name, .. } => {
                if self.left == 0 {
                    return self.refuse(rt, name);
                }
                let reply = self.below.ask(rt, request);
                self.left = left_after(self.left, &reply);
                reply
            }
            _ => self.below.ask(rt, request),
        }
    }

    fn end<H: Wait>(&mut self, rt: &H) {
        self.below.end(rt);
    }
}
