//! The request for the names of fifodirs.
ghost use Rattle.std.specs.Prelude.{false};
ghost use Rattle.hub_local.specs.Representing.{AsksWith};
ghost use Rattle.hub_requests.specs.declared.request.Request.TheVariants.{Names};

use crate::local_desk::LocalDesk;
use hub_requests::{Refusal, Reply, names_reply};

impl LocalDesk {
    /// The names from place `from` on, as many as fit in one reply.
    pub(super) fn list(&self, from: u64) -> Reply
        ensures { AsksWith false self.now (Names from) result self.now }
    {
        match names_reply(self.alloc, self.fifodirs.keys().as_slice(), from) {
            Ok(reply) => reply,
            Err(_) => Reply::No(Refusal::Memory),
        }
    }
}
