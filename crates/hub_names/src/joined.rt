//! A fifodir that a session found, with the session's publisher there.
ghost use Rattle.std.specs.Prelude.{◌≡◌, None, Some, IfErr, IfOk, IfNone, IfSome, OnErr};
ghost use Rattle.std.specs.Arc.{arc_value};
ghost use Rattle.hub_fifodir.specs.Passes.{IsPublisherOf, HasSoundSight, publisher_view};
ghost use Rattle.hub_fifodir.specs.declared.publisher.Publisher.{Publisher};
ghost use Rattle.hub_names.specs.Refusals.{refusal_of_pass};
ghost use Rattle.hub_names.specs.Says.{about_of, says_closed, says_published, says_status};
ghost use Rattle.hub_requests.specs.Wills.{wills_in};

use crate::hub::{Found, Made};
use crate::last_word::{is_lost, tell_as_last};
use hub_fifodir::{Enter, Fifodir, PassError, Pause, Publisher, Usage};
use hub_letters::State;
use hub_record::{Closed, Kind, Letters};
use hub_requests::{About, Name, Refusal, Reply, Will, Wills};
use std::mem;
use std::sync::Wait;

/// A fifodir that a session found, with the session's publisher there once it was made. It isn't `Drop`, and only `leave`
/// takes it.
pub struct Joined {
    found: Found,
    publisher: Option<Publisher>,
    ghost of: { (p : Publisher) → publisher ≡ Some p → IsPublisherOf (arc_value found.dir) p },
    ghost sound: { (p : Publisher) → publisher ≡ Some p → ∥ HasSoundSight (publisher_view p) ∥₁ },
}

impl Joined {
    ghost use Rattle.hub_names.specs.Speaking.{AsksAsPublisher, Describes, IsSpeaker, Tells, fifodir_of, found_of, publisher_of};
    ghost use Rattle.hub_names.specs.Wills.{MayTell, ReadiesForWill, wills_after};

    /// A fifodir that a session found, and at which it has no publisher yet.
    pub fn new(found: Found) -> Joined
        ensures found { found_of result ≡ found }
        ensures silent { publisher_of result ≡ None }
    {
        Joined {
            found,
            publisher: None,
        }
    }

    /// Its fifodir, to be kept beside a pass.
    pub fn copy(&self) -> Result<Made, Refusal>
        ensures dir { IfOk result (λ made. arc_value made.dir ≡ fifodir_of self.now) }
        ensures notifies { IfOk result (λ made. made.notifies ≡ (found_of self.now).notifies) }
        ensures err { IfErr result (λ refusal. refusal ≡ Refusal.Memory) }
    {
        match self.found.copy() {
            Ok(made) => Ok(made),
            Err(_) => Err(Refusal::Memory),
        }
    }

    /// Takes out the publisher that it keeps, or a new one.
    fn speaker<H: Wait + Enter>(&mut self, rt: &H) -> Result<Publisher, PassError>
        ensures found { self.new.found ≡ self.old.found }
        ensures silent { self.new.publisher ≡ None }
        ensures of { IfOk result (λ p. IsPublisherOf (arc_value self.old.found.dir) p) }
        ensures sound { IfOk result (λ p. ∥ HasSoundSight (publisher_view p) ∥₁) }
        ensures ok { IfOk result (λ p. IsSpeaker
            (arc_value self.old.found.dir) self.old.publisher p) }
        ensures err { OnErr result (self.old.publisher ≡ None) }
    {
        match self.publisher.take() {
            Some(publisher) => Ok(publisher),
            None => self.found.dir.publisher(rt),
        }
    }

    /// Keeps the publisher that was taken out.
    fn keep(&mut self, publisher: Publisher)
        requires silent { self.old.publisher ≡ None }
        requires of { IsPublisherOf (arc_value self.old.found.dir) publisher }
        requires sound { ∥ HasSoundSight (publisher_view publisher) ∥₁ }
        ensures found { self.new.found ≡ self.old.found }
        ensures kept { self.new.publisher ≡ Some publisher }
    {
        let before = mem::replace(&mut self.publisher, Some(publisher));
        let None = before else { unreachable!() };
    }

    /// Publishes by the publisher that it keeps, or by a new one, which it keeps from then on.
    pub fn publish<H: Wait + Enter>(&mut self, rt: &H, letters: &Letters) -> Reply
        ensures { AsksAsPublisher (says_published letters.now) self.old result self.new }
    {
        let mut publisher = match self.speaker(rt) {
            Ok(publisher) => publisher,
            Err(error) => return Reply::No(refusal_of_pass(error)),
        };
        let published = self.found.dir.publish(rt, &mut publisher, letters.items());
        self.keep(publisher);
        Reply::to_publish(published)
    }

    /// Tells where the service is, by the publisher that it keeps, or by a new one, which it keeps from then on. A plain
    /// fifodir gets no publisher.
    pub fn tell<H: Wait + Enter>(&mut self, rt: &H, state: State) -> Reply
        ensures { Tells state self.old result self.new }
    {
        match self.found.dir.kind() {
            Kind::Plain => return Reply::No(Refusal::Kind),
            Kind::Service => {}
        }
        let mut publisher = match self.speaker(rt) {
            Ok(publisher) => publisher,
            Err(error) => return Reply::No(refusal_of_pass(error)),
        };
        let told = self.found.dir.tell(rt, &mut publisher, state);
        self.keep(publisher);
        Reply::to_publish(told)
    }

    /// Gives the service a will, which its publisher is to carry out: the one that it keeps, or a new one, which it keeps from then
    /// on. A plain fifodir gets neither.
    pub fn will<H: Wait + Enter>(
        &mut self,
        rt: &H,
        wills: &mut Wills,
        name: &Name,
        will: Will,
    ) -> Reply
        ensures readies { ReadiesForWill self.old result self.new }
        ensures given { wills_in wills.new
            ≡ wills_after name.now will result (wills_in wills.old) }
    {
        let Kind::Service = self.found.dir.kind() else {
            return Reply::No(Refusal::Kind);
        };
        let Ok(key) = wills.room_for(name) else {
            return Reply::No(Refusal::Memory);
        };
        let publisher = match self.speaker(rt) {
            Ok(publisher) => publisher,
            Err(error) => return Reply::No(refusal_of_pass(error)),
        };
        self.keep(publisher);
        wills.put(key, will);
        Reply::Done
    }

    /// Tells where the service is, if its last event is the publisher's own. Returns whether this was refused, though the fifodir
    /// is open.
    pub fn carry_out<H: Wait, P: Pause + Copy>(&mut self, rt: &H, state: State, pause: P) -> bool
        ensures { MayTell state self.old result self.new }
    {
        let Kind::Service = self.found.dir.kind() else {
            return false;
        };
        let Some(mut publisher) = self.publisher.take() else {
            return false;
        };
        let told = tell_as_last(rt, &self.found.dir, &mut publisher, state, pause);
        self.keep(publisher);
        is_lost(told)
    }

    /// Closes the fifodir by the publisher that it keeps, or by a new one, which it keeps from then on.
    pub fn close<H: Wait + Enter>(&mut self, rt: &H) -> Reply
        ensures { AsksAsPublisher says_closed self.old result self.new }
    {
        let mut publisher = match self.speaker(rt) {
            Ok(publisher) => publisher,
            Err(error) => return Reply::No(refusal_of_pass(error)),
        };
        let closed = self.found.dir.close(rt, &mut publisher);
        self.keep(publisher);
        match closed {
            Ok(()) => Reply::Done,
            Err(Closed) => Reply::No(Refusal::Closed),
        }
    }

    /// Tells what the fifodir is, and how much is there. It makes no publisher.
    pub fn about<H: Wait + Enter>(&self, rt: &H) -> Reply
        ensures { Describes self.now result self.now }
    {
        let usage = self.found.dir.usage(rt);
        Reply::About(about_of(&self.found.dir, self.found.notifies, usage))
    }

    /// Answers the status by the publisher that it keeps. None if it keeps none. It gets no `rt`, and so can't wait for the
    /// lock.
    pub fn status(&mut self) -> Option<Reply>
        ensures step { IfSome result (λ reply. AsksAsPublisher says_status
            self.old reply self.new) }
        ensures none { IfNone result ((publisher_of self.old ≡ None) × (self.new ≡ self.old)) }
    {
        let Some(mut publisher) = self.publisher.take() else {
            return None;
        };
        let status = self.found.dir.status(&mut publisher);
        self.keep(publisher);
        Some(Reply::State(status))
    }

    /// Answers the status by the publisher that it keeps, or by a new one, which it keeps from then on.
    pub fn first_status<H: Wait + Enter>(&mut self, rt: &H) -> Reply
        ensures { AsksAsPublisher says_status self.old result self.new }
    {
        let mut publisher = match self.speaker(rt) {
            Ok(publisher) => publisher,
            Err(error) => return Reply::No(refusal_of_pass(error)),
        };
        let status = self.found.dir.status(&mut publisher);
        self.keep(publisher);
        Reply::State(status)
    }

    /// Ends the publisher, if there is one.
    pub fn leave<H: Wait>(self, rt: &H) {
        let Joined { found, publisher } = self;
        if let Some(publisher) = publisher {
            found.dir.leave(rt, publisher);
        }
    }
}

fn about_of(dir: &Fifodir, notifies: bool, usage: Usage) -> About
    ensures { result ≡ about_of dir.now notifies usage }
{
    let limits = dir.limits();
    About {
        kind: dir.kind(),
        notifies,
        waiting: limits.waiting,
        total: limits.total,
        policy: limits.policy,
        subscriptions: usage.subscriptions,
        publishers: usage.publishers,
        pending: usage.pending,
    }
}

fn refusal_of_pass(error: PassError) -> Refusal
    ensures { result ≡ refusal_of_pass error }
{
    match error {
        PassError::Many => Refusal::Many,
        PassError::Spent => Refusal::Spent,
        PassError::Memory => Refusal::Memory,
    }
}
