//! The request that takes or polls as soon as something comes.
ghost use Rattle.std.specs.Prelude.{◌≡◌, ℕ, false, nat_eq};
ghost use Rattle.std.specs.Map.{lookup};
ghost use Rattle.hub_local.specs.Desks.{is_listeners};
ghost use Rattle.hub_local.specs.Representing.{AsksWith, PollsOn};
ghost use Rattle.hub_requests.specs.declared.request.Request.TheVariants.{Next};

use crate::local_desk::LocalDesk;
use hub_letters::MOST_GATHERED;
use hub_requests::Reply;

impl LocalDesk {
    /// Answers a next at once: while this desk waits, nothing can come.
    pub(super) fn next(&mut self, id: u64) -> Reply
        ensures { (turns : ℕ) → AsksWith false self.old (Next id turns) result self.new }
    {
        if self.hears(id) {
            self.poll_on(id).or_late()
        } else {
            self.take(id, MOST_GATHERED as u64).or_late()
        }
    }

    /// Polls, and once more if the answer is `none`, which may be for want of room for a further letter.
    fn poll_on(&mut self, id: u64) -> Reply
        ensures { PollsOn self.old id result self.new }
    {
        match self.poll(id) {
            Reply::Nothing => self.poll(id),
            reply => reply,
        }
    }

    /// Whether the handle is a listener's.
    fn hears(&self, id: u64) -> bool
        ensures { result ≡ is_listeners (lookup (nat_eq id) self.now.holdings) }
    {
        match self.holdings.get(&id) {
            Some(holding) => holding.hearing.is_some(),
            None => false,
        }
    }
}
