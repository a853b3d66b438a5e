//! The desk of a session that only looks.
ghost use Rattle.std.specs.Prelude.{◌≡◌, IfErr, OnOk};
ghost use Rattle.hub_rights.specs.Looking.{MayNotSubscribe, MaySubscribe};

use crate::asking::ask_about;
use hub_record::Policy;
use hub_requests::{Desk, Enter, Name, Refusal, Reply, Request};
use std::sync::Wait;

/// A desk that only looks at what the desk below has. It refuses `dir`, `svc`, `pub`, `tell`, `will` and `close` as
/// [`Refusal::Right`], before anything else is looked at, so that nobody learns by them which names there are. It subscribes, and
/// listens, only at a fifodir that evicts who is slow: at another one a subscription of its own would hold publishers up. All else it
/// asks the desk below.
pub struct Onlooker<D> {
    pub below: D,
}

impl<D: Desk> Onlooker<D> {
    /// A session that looks at what this desk has.
    pub fn over(below: D) -> Onlooker<D>
        ensures { result.below ≡ below }
    {
        Onlooker { below }
    }

    // Asks about the fifodir of this name whether a session may subscribe there that only looks, or why not.
    fn may_subscribe<H: Wait + Enter>(&mut self, rt: &H, name: &Name) -> Result<(), Refusal>
        ensures ok { OnOk result (MaySubscribe D.asks self.old.below name.now self.new.below) }
        ensures err { IfErr result (MayNotSubscribe D.asks self.old.below name.now self.new.below) }
    {
        let Ok(name) = name.copy() else {
            return Err(Refusal::Memory);
        };
        match ask_about(rt, &mut self.below, name) {
            Reply::About(about) if about.policy == Policy::Evict => Ok(()),
            Reply::No(refusal) => Err(refusal),
            _ => Err(Refusal::Right),
        }
    }
}

impl<D: Desk> Desk for Onlooker<D> {
    ghost use Rattle.hub_rights.specs.Looking.{OnlyLooks};

    ghost asks = { λ old request reply new. OnlyLooks D.asks old.below request reply new.below };

    ghost ends = { λ old new. D.ends old.below new.below };

    fn ask<H: Wait + Enter>(&mut self, rt: &H, request: &Request) -> Reply {
        match request {
            Request::Dir { .. }
            | Request::Svc { .. }
            | Request::Pub { .. }
            | Request::Tell { .. }
            | Request::Will { .. }
            | Request::Close { .. } => Reply::No(Refusal::Right),
            Request::Sub { name } | Request::Listen { name, .. } => {
                match self.may_subscribe(rt, name) {
                    Ok(()) => self.below.ask(rt, request),
                    Err(refusal) => Reply::No(refusal),
                }
            }
            Request::Take { .. }
            | Request::Cancel { .. }
            | Request::Status { .. }
            | Request::About { .. }
            | Request::Poll { .. }
            | Request::Await { .. }
            | Request::Next { .. }
            | Request::Wait { .. }
            | Request::Names { .. } => self.below.ask(rt, request),
        }
    }

    fn end<H: Wait>(&mut self, rt: &H) {
        self.below.end(rt);
    }
}
