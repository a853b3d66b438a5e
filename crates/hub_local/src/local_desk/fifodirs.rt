//! The requests about a fifodir: make one, publish to it, close it, and report its status, or what it is and how much is there.
ghost use Rattle.std.specs.Prelude.{◌≡◌, ◌≢◌, Some, false, true};
ghost use Rattle.hub_record.specs.Kept.{Represents};
ghost use Rattle.hub_record.specs.World.{World, after_publish};
ghost use Rattle.hub_local.specs.Replies.{publish_reply};
ghost use Rattle.hub_requests.specs.Refusals.{reply_to_publish};
ghost use Rattle.hub_requests.specs.declared.reply.Reply.TheVariants.{No};
ghost use Rattle.hub_requests.specs.declared.reply.Refusal.TheVariants.{Memory};
ghost use Rattle.hub_local.specs.DeskAnswers.{about_in, make_answer, refusal_to_make};
ghost use Rattle.hub_local.specs.Representing.{CarriesOut, AsksWith, Unchanged};
ghost use Rattle.hub_requests.specs.declared.request.Request.TheVariants.{About as Describe, Pub, Tell, Close, Status as Show};

use crate::local_desk::{LocalDesk, LocalFifodir};
use hub_letters::{Letter, State};
use hub_record::{Closed, Kind, Letters, Limits, Record, Status};
use hub_requests::{About, MOST_NAMES, Name, Refusal, Reply};

/// The publisher's number in a desk's own records.
pub(super) const PUBLISHER: u64 = 1;

impl LocalDesk {
    pub(super) fn make(
        &mut self,
        name: &Name,
        kind: Kind,
        reports: Option<bool>,
        limits: Limits,
    ) -> Reply
        ensures { CarriesOut self.old true (λ desk. refusal_to_make desk name.now)
            (λ desk. make_answer desk name.now kind reports
            (Some limits)) Unchanged result self.new }
    {
        if self.fifodirs.contains_key(name) {
            return Reply::No(Refusal::Exists);
        }
        if self.fifodirs.len() >= MOST_NAMES {
            return Reply::No(Refusal::Many);
        }
        let Ok(key) = name.copy() else {
            return Reply::No(Refusal::Memory);
        };
        let Ok(kept) = Record::new(self.alloc, kind, limits) else {
            return Reply::No(Refusal::Memory);
        };
        match self.fifodirs.insert(key, LocalFifodir { kept, reports }) {
            Ok(_) => Reply::Done,
            Err(_) => Reply::No(Refusal::Memory),
        }
    }

    pub(super) fn publish(&mut self, name: &Name, letters: &Letters) -> Reply
        ensures { AsksWith false self.old (Pub name.now letters.now) result self.new }
    {
        let Some(fifodir) = self.fifodirs.get_mut(name) else {
            return Reply::No(Refusal::Name);
        };
        fifodir.publish(letters.items())
    }

    pub(super) fn tell(&mut self, name: &Name, state: State) -> Reply
        ensures { AsksWith false self.old (Tell name.now state) result self.new }
    {
        let Some(fifodir) = self.fifodirs.get_mut(name) else {
            return Reply::No(Refusal::Name);
        };
        match fifodir.kept.kind() {
            Kind::Plain => Reply::No(Refusal::Kind),
            Kind::Service => {
                let word = fifodir.kept.word(state);
                fifodir.publish(word.letters())
            }
        }
    }

    pub(super) fn close(&mut self, name: &Name) -> Reply
        ensures { AsksWith false self.old (Close name.now) result self.new }
    {
        let Some(fifodir) = self.fifodirs.get_mut(name) else {
            return Reply::No(Refusal::Name);
        };
        match fifodir.kept.close() {
            Ok(()) => Reply::Done,
            Err(Closed) => Reply::No(Refusal::Closed),
        }
    }

    pub(super) fn status(&self, name: &Name) -> Reply
        ensures { AsksWith false self.now (Show name.now) result self.now }
    {
        let Some(fifodir) = self.fifodirs.get(name) else {
            return Reply::No(Refusal::Name);
        };
        let status = Status {
            number: fifodir.kept.end(),
            flags: fifodir.kept.flags(),
            closed: fifodir.kept.closed(),
        };
        Reply::State(status)
    }

    pub(super) fn about(&self, name: &Name) -> Reply
        ensures { AsksWith false self.now (Describe name.now) result self.now }
    {
        let Some(fifodir) = self.fifodirs.get(name) else {
            return Reply::No(Refusal::Name);
        };
        Reply::About(fifodir.about())
    }
}

impl LocalFifodir {
    /// What it is, and how much is there. The desk's own publisher isn't counted.
    fn about(&self) -> About
        ensures { (w : World) → Represents self.now.kept w → result ≡ about_in self.now.reports w }
    {
        let limits = self.kept.limits();
        About {
            kind: self.kept.kind(),
            notifies: self.reports.unwrap_or(false),
            waiting: limits.waiting,
            total: limits.total,
            policy: limits.policy,
            subscriptions: self.kept.active() as u64,
            publishers: 0,
            pending: self.kept.load(),
        }
    }

    /// Publishes letters by the desk's publisher.
    pub(super) fn publish(&mut self, letters: &[Letter]) -> Reply
        ensures reply { (w : World) → Represents self.old.kept w
            → result ≡ reply_to_publish (publish_reply w letters.now) }
        ensures after { (w : World) → Represents self.old.kept w
            → Represents self.new.kept (after_publish w 1 letters.now (publish_reply w letters.now)) }
        ensures reports { self.new.reports ≡ self.old.reports }
        ensures real { result ≢ No Memory }
    {
        Reply::to_publish(self.kept.publish(PUBLISHER, letters))
    }
}
