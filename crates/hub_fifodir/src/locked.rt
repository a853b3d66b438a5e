//! The value behind the lock.
ghost use Rattle.std.specs.Prelude.{◌≡◌, ◌++◌, [], length, drop, IfOk, OnErr};
ghost use Rattle.hub_letters.specs.States.{word_behind};
ghost use Rattle.hub_record.specs.declared.Kind.TheVariants.{Service};
ghost use Rattle.hub_record.specs.World.{World, empty_world, letters, last_publisher, SubscribeReply, after_subscribe, PublishReply, after_publish};
ghost use Rattle.hub_record.specs.World.{take_reply, take_events, after_take};
ghost use Rattle.hub_record.specs.World.{cancel_reply, after_cancel, close_reply, after_close};
ghost use Rattle.hub_fifodir.specs.Locks.{RepresentsWorld, status_of, usage_of, is_half_full, numbers_of, given_by};
ghost use Rattle.hub_fifodir.specs.Locks.{PublisherReply, IsAfterPublisher, HasLeft, KeepsPublishers, KeepsRecord, IsCounted};

use crate::PassError;
use crate::usage::Usage;
use hub_letters::{Letter, State, Word};
use hub_record::{
    Closed, Event, Kind, Limits, MOST_PASSES, NoId, PubError, Record, Status, SubError, Taken,
};
use indexmap::IndexSet;
use std::alloc::{AllocError, Global};

/// A record, the numbers of the current publishers, and how many numbers were given. Its calls are those of a
/// `Fifodir`, for one thread, with ids and numbers in place of passes.
#[derive(Drop)]
pub struct Locked {
    /// In a box, so that little is moved when a call takes the value out of the table and puts it back.
    kept: Box<Record>,
    /// How many numbers may be given in all.
    ids: u64,
    /// The numbers of the current publishers.
    active: IndexSet<u64>,
    /// How many numbers were given so far.
    given: u64,
}

impl Locked {
    /// An open record without events, and no publisher.
    pub fn new(alloc: Global, kind: Kind, limits: Limits) -> Result<Locked, AllocError>
        ensures { IfOk result (λ b. RepresentsWorld b (empty_world kind limits)
            × (numbers_of b ≡ []) × (given_by b ≡ 0)) }
    {
        Ok(Locked {
            kept: Box::new(alloc, Record::new(alloc, kind, limits)?)?,
            ids: limits.ids,
            active: IndexSet::new(alloc),
            given: 0,
        })
    }

    /// Gives the next number, to a publisher that is current from now on.
    pub fn publisher(&mut self) -> Result<u64, PassError>
        ensures reply { PublisherReply self.old result }
        ensures after { IsAfterPublisher self.old result self.new }
        ensures counted { IsCounted self.old → IsCounted self.new }
        ensures record { KeepsRecord self.old self.new }
    {
        if self.active.len() >= MOST_PASSES {
            return Err(PassError::Many);
        }
        if self.given >= self.ids {
            return Err(PassError::Spent);
        }
        let number = self.given + 1;
        match self.active.insert(number) {
            Ok(_) => {
                self.given = number;
                Ok(number)
            }
            Err(_) => Err(PassError::Memory),
        }
    }

    /// Gives the next id, and its mark: the number of events so far.
    #[tactic(auto, using(crate::proofs::Boxes::same_if_refused))]
    pub fn subscribe(&mut self) -> Result<(u64, u64), SubError>
        ensures reply { (w : World) → RepresentsWorld self.old w → SubscribeReply w result }
        ensures world { (w : World) → RepresentsWorld self.old w
            → RepresentsWorld self.new (after_subscribe w result) }
        ensures others { KeepsPublishers self.old self.new }
        ensures err { OnErr result (self.new ≡ self.old) }
    {
        self.kept.subscribe()
    }

    /// Adds the whole message, or nothing. It doesn't check whether the publisher is current.
    #[tactic(auto, using(crate::proofs::Boxes::same_if_refused))]
    pub fn publish(&mut self, number: u64, letters: &[Letter]) -> Result<u64, PubError>
        ensures reply { (w : World) → RepresentsWorld self.old w
            → PublishReply w letters.now result }
        ensures world { (w : World) → RepresentsWorld self.old w
            → RepresentsWorld self.new (after_publish w number letters.now result) }
        ensures others { KeepsPublishers self.old self.new }
        ensures err { OnErr result (self.new ≡ self.old) }
    {
        self.kept.publish(number, letters)
    }

    /// The letters that bring the service to a state: none if it is there already.
    pub fn word(&self, state: State) -> Word
        requires { self.now.kept.value.kind ≡ Service }
        ensures { (w : World) → RepresentsWorld self.now w
            → result ≡ word_behind state (letters w.events) }
    {
        self.kept.word(state)
    }

    /// The number of the publisher of the last event. None if there is no event.
    pub fn last_publisher(&self) -> Option<u64>
        ensures { (w : World) → RepresentsWorld self.now w → result ≡ last_publisher w.events }
    {
        self.kept.last_publisher()
    }

    /// Takes what is pending behind a cursor, as far as it fits. An error says that the id has no cursor.
    #[tactic(auto, using(crate::proofs::Boxes::same_if_refused))]
    pub fn take_into(&mut self, id: u64, out: &mut [Event]) -> Result<Taken, NoId>
        ensures reply { (w : World) → RepresentsWorld self.old w
            → result ≡ take_reply w id (length out.old) }
        ensures world { (w : World) → RepresentsWorld self.old w
            → RepresentsWorld self.new (after_take w id (length out.old)) }
        ensures filled { (w : World) → RepresentsWorld self.old w
            → out.new ≡ take_events w id (length out.old) ++ drop
            (length (take_events w id (length out.old))) out.old }
        ensures others { KeepsPublishers self.old self.new }
        ensures err { OnErr result (self.new ≡ self.old) }
    {
        self.kept.take_into(id, out)
    }

    /// Ends a subscription. An error says that the id has no subscription.
    #[tactic(auto, using(crate::proofs::Boxes::same_if_refused))]
    pub fn cancel(&mut self, id: u64) -> Result<(), NoId>
        ensures reply { (w : World) → RepresentsWorld self.old w → result ≡ cancel_reply w id }
        ensures world { (w : World) → RepresentsWorld self.old w
            → RepresentsWorld self.new (after_cancel w id) }
        ensures others { KeepsPublishers self.old self.new }
        ensures err { OnErr result (self.new ≡ self.old) }
    {
        self.kept.cancel(id)
    }

    /// Ends a publisher. If it isn't current, nothing changes.
    pub fn leave(&mut self, number: u64)
        ensures left { HasLeft self.old number self.new }
        ensures counted { IsCounted self.old → IsCounted self.new }
        ensures record { KeepsRecord self.old self.new }
    {
        self.active.shift_remove(&number);
    }

    /// Closes the record for good. An error says that it was closed before.
    #[tactic(auto, using(crate::proofs::Boxes::same_if_refused))]
    pub fn close(&mut self) -> Result<(), Closed>
        ensures reply { (w : World) → RepresentsWorld self.old w → result ≡ close_reply w }
        ensures world { (w : World) → RepresentsWorld self.old w
            → RepresentsWorld self.new (after_close w) }
        ensures others { KeepsPublishers self.old self.new }
        ensures err { OnErr result (self.new ≡ self.old) }
    {
        self.kept.close()
    }

    /// The number of events, the flags and whether the record is closed.
    pub fn status(&self) -> Status
        ensures { (w : World) → RepresentsWorld self.now w → result ≡ status_of w }
    {
        Status {
            number: self.kept.end(),
            flags: self.kept.flags(),
            closed: self.kept.closed(),
        }
    }

    /// How many subscriptions and publishers there are, and how many events are pending for the slowest subscription.
    pub fn usage(&self) -> Usage
        ensures { (w : World) → RepresentsWorld self.now w → result ≡ usage_of self.now w }
    {
        Usage {
            subscriptions: self.kept.active() as u64,
            publishers: self.active.len() as u64,
            pending: self.kept.load(),
            evicted: self.kept.evicted() as u64,
        }
    }

    /// Whether more events are pending for the slowest subscription than there is room for besides.
    pub fn is_half_full(&self) -> bool
        ensures { (w : World) → RepresentsWorld self.now w → result ≡ is_half_full w }
    {
        let pending = self.kept.load();
        pending > self.kept.limits().waiting.saturating_sub(pending)
    }

    /// The number of events so far.
    pub fn front(&self) -> u64
        ensures { (w : World) → RepresentsWorld self.now w → result ≡ length w.events }
    {
        self.kept.end()
    }
}
