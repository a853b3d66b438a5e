//! The request that asks whether a handle's next take or poll has something to do.
ghost use Rattle.std.specs.Prelude.{◌≡◌, ℕ, Some, false};
ghost use Rattle.hub_record.specs.Kept.{Represents};
ghost use Rattle.hub_record.specs.World.{World, Subscription, subscription_in};
ghost use Rattle.hub_local.specs.Awaits.{has_something, holds_letter};
ghost use Rattle.hub_local.specs.Representing.{AsksWith};
ghost use Rattle.hub_requests.specs.declared.request.Request.TheVariants.{Await};

use crate::local_desk::{Holding, LocalDesk, LocalListener};
use hub_record::Record;
use hub_requests::{Refusal, Reply};

impl LocalDesk {
    /// Answers an await at once: while this desk waits, nothing can come.
    pub(super) fn look(&self, id: u64) -> Reply
        ensures { (turns : ℕ) → AsksWith false self.now (Await id turns) result self.now }
    {
        let Some(holding) = self.holdings.get(&id) else {
            return Reply::No(Refusal::Id);
        };
        let Some(fifodir) = self.fifodirs.get(&holding.name) else {
            unreachable!()
        };
        if has_something(holding, &fifodir.kept) {
            Reply::Done
        } else {
            Reply::Late
        }
    }
}

/// Whether the next take or poll of the handle has something to do.
fn has_something(holding: &Holding, kept: &Record) -> bool
    ensures { (w : World) (s : Subscription) → Represents kept.now w
        → subscription_in w holding.now.id ≡ Some s → result ≡ has_something holding.now w }
{
    holds_letter(&holding.hearing) || kept.closed() || kept.waiting(holding.id) != Some(0)
}

fn holds_letter(hearing: &Option<LocalListener>) -> bool
    ensures { result ≡ holds_letter hearing.now }
{
    match hearing {
        Some(hearing) => hearing.held.is_some(),
        None => false,
    }
}
