//! A session's subscriptions.
ghost use Rattle.std.specs.Prelude.{◌≡◌, ◌≤◌, length, vec_len, vec_capacity, Err, IfErr, IfOk, IfNone, IfSome, MatchBool};
ghost use Rattle.hub_letters.specs.declared.mode.TheConstants.{MOST_GATHERED};
ghost use Rattle.std.specs.Arc.{arc_value};
ghost use Rattle.hub_fifodir.specs.Passes.{IsTicketOf, HasSoundSight, MayRefuseTicket, ticket_view};
ghost use Rattle.hub_requests.specs.declared.bounds.TheConstants.{MOST_TAKEN};

use crate::room::Room;
use hub_fifodir::{Enter, Fifodir, Pause, Ticket};
use hub_letters::{Letter, MOST_GATHERED};
use hub_record::{Event, SubError, Taken};
use hub_requests::{Name, Refusal, Reply, letters_of};
use std::alloc::Global;
use std::snapshot::Snapshot;
use std::sync::{Arc, Wait};

/// A ticket beside its fifodir. It isn't `Drop`, and only `cancel` takes it.
pub struct Subscription {
    /// The name that it was asked for by, as contracts see it.
    name: Snapshot<Name>,
    dir: Arc<Fifodir, Global>,
    ticket: Ticket,
    ghost of: { IsTicketOf (arc_value dir) ticket },
    ghost sound: { ∥ HasSoundSight (ticket_view ticket) ∥₁ },
}

impl Subscription {
    ghost use Rattle.hub_handles.specs.Awaiting.{HasMoreToTake, HasNoneToTake};
    ghost use Rattle.hub_handles.specs.Nexts.{TakesWaiting, waiting_for};
    ghost use Rattle.hub_handles.specs.Taking.{Begins, HasLooked, HasPending, Takes, TakesFrom, TakesOne};

    /// Subscribes to the fifodir. An error says why it gave no ticket.
    pub fn new<H: Wait + Enter>(
        rt: &H,
        name: &Name,
        dir: Arc<Fifodir, Global>,
    ) -> Result<Subscription, SubError>
        ensures ok { IfOk result (λ s. Begins name.now (arc_value dir) s) }
        ensures refused { IfErr result (MayRefuseTicket (arc_value dir)) }
    {
        let ticket = dir.subscribe(rt)?;
        Ok(Subscription {
            name: Snapshot::of(name),
            dir,
            ticket,
        })
    }

    /// Takes at most `max` events through the room, and answers their letters. If none waits, it takes no memory.
    pub fn take<H: Wait>(&mut self, rt: &H, alloc: Global, max: usize, room: &mut Room) -> Reply
        requires { max ≤ MOST_TAKEN }
        ensures { Takes max self.old result self.new }
    {
        if let Some(reply) = self.look() {
            return reply;
        }
        match Vec::with_capacity(alloc, max) {
            Ok(letters) => self.take_through(rt, max, &mut room.events, letters),
            Err(_) => Reply::No(Refusal::Memory),
        }
    }

    /// Takes at most `max` events, and answers their letters in a list that has room for them.
    fn take_through<H: Wait>(
        &mut self,
        rt: &H,
        max: usize,
        events: &mut [Event],
        letters: Vec<Letter>,
    ) -> Reply
        requires few { max ≤ MOST_GATHERED }
        requires places { max ≤ length events.old }
        requires empty { vec_len letters ≡ 0 }
        requires fits { max ≤ vec_capacity letters }
        ensures { TakesFrom max self.old result self.new }
    {
        match self.dir.take_into(rt, &mut self.ticket, &mut events[..max]) {
            Taken::Got(count) => Reply::Got(letters_of(&events[..count], letters)),
            Taken::Nothing => Reply::Nothing,
            Taken::End => Reply::End,
            Taken::Evicted => Reply::Evicted,
        }
    }

    /// Waits until something comes, for at most so many turns, and then takes all that waits, as far as one reply shows it. If
    /// none waits, it takes no memory.
    pub fn next<H: Wait, P: Pause>(
        &mut self,
        rt: &H,
        alloc: Global,
        turns: u64,
        pause: &mut P,
        room: &mut Room,
    ) -> Reply
        ensures { TakesWaiting self.old result self.new }
    {
        self.await_more(rt, turns, pause);
        self.take_waiting(rt, alloc, room)
    }

    /// Takes what waits at its first look. Many events go through a room of their own, which no session keeps.
    fn take_waiting<H: Wait>(&mut self, rt: &H, alloc: Global, room: &mut Room) -> Reply
        ensures { TakesWaiting self.old result self.new }
    {
        let count = match self.count_waiting() {
            Ok(waiting) => waiting.min(MOST_GATHERED as u64) as usize,
            Err(reply) => return reply,
        };
        let Ok(letters) = Vec::with_capacity(alloc, count) else {
            return Reply::No(Refusal::Memory);
        };
        if count <= room.events.len() {
            return self.take_through(rt, count, &mut room.events, letters);
        }
        match room.larger(alloc, count) {
            Ok(mut events) => self.take_through(rt, count, &mut events, letters),
            Err(_) => Reply::No(Refusal::Memory),
        }
    }

    /// What a take is answered if nothing waits. None if an event waits. It takes no memory.
    pub fn look(&mut self) -> Option<Reply>
        ensures looked { HasLooked self.old self.new }
        ensures idle { IfSome result (λ reply. TakesOne self.old (Err reply) self.new) }
        ensures waits { IfNone result (HasPending self.new) }
    {
        match self.count_waiting() {
            Ok(_) => None,
            Err(reply) => Some(reply),
        }
    }

    /// How many events wait, or what a take is answered if none does. It is one load of the front word.
    fn count_waiting(&mut self) -> Result<u64, Reply>
        ensures looked { HasLooked self.old self.new }
        ensures idle { IfErr result (λ reply. TakesOne self.old (Err reply) self.new) }
        ensures waits { IfOk result (λ count. (count ≡ waiting_for self.new) × HasPending self.new) }
    {
        let status = self.dir.status(&mut self.ticket);
        if status.number != self.ticket.next() {
            return Ok(status.number - self.ticket.next());
        }
        if status.closed {
            return Err(Reply::End);
        }
        Err(Reply::Nothing)
    }

    /// Waits until the next take has something to do, for at most so many turns. Tells whether it has.
    pub fn await_more<H: Wait, P: Pause>(&mut self, rt: &H, turns: u64, pause: &mut P) -> bool
        ensures looked { HasLooked self.old self.new }
        ensures more { MatchBool result (HasMoreToTake self.new) (HasNoneToTake self.new) }
    {
        self.dir.await_more(rt, &mut self.ticket, turns, pause)
    }

    /// The same for a wait of several awaits, which has so many turns left in all. It leaves those that it didn't use.
    pub fn await_within<H: Wait, P: Pause>(&mut self, rt: &H, left: &mut u64, pause: &mut P) -> bool
        ensures looked { HasLooked self.old self.new }
        ensures more { MatchBool result (HasMoreToTake self.new) (HasNoneToTake self.new) }
        ensures bounded { left.new ≤ left.old }
    {
        self.dir.await_within(rt, &mut self.ticket, left, pause)
    }

    /// Takes the next letter, or tells what to answer where there is none.
    pub fn take_letter<H: Wait>(&mut self, rt: &H) -> Result<Letter, Reply>
        ensures { TakesOne self.old result self.new }
    {
        let mut event = [Event::FILLER];
        match self.dir.take_into(rt, &mut self.ticket, &mut event) {
            Taken::Got(_) => Ok(event[0].letter),
            Taken::Nothing => Err(Reply::Nothing),
            Taken::End => Err(Reply::End),
            Taken::Evicted => Err(Reply::Evicted),
        }
    }

    /// Ends the subscription.
    pub fn cancel<H: Wait>(self, rt: &H) {
        let Subscription {
            name: _,
            dir,
            ticket,
        } = self;
        dir.cancel(rt, ticket);
    }
}
