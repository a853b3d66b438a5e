//! What a session holds, by handle.
ghost use Rattle.std.specs.Prelude.{◌≡◌, ◌<◌, ◌⊎◌, ℕ, None, Some, false, nat_eq, IfOk, IfErr, OnOk, OnErr, if◌then◌else◌};
ghost use Rattle.std.specs.Arc.{arc_value};
ghost use Rattle.std.specs.Map.{lookup};
ghost use Rattle.hub_letters.specs.declared.mode.Mode.TheVariants.{Repeat};
ghost use Rattle.hub_listen.specs.Hit.{IsPattern};
ghost use Rattle.hub_listen.specs.Listening.{new_listening};
ghost use Rattle.hub_requests.specs.Ranges.{IsTake};
ghost use Rattle.hub_requests.specs.declared.reply.Reply.TheVariants.{Done, Late};
ghost use Rattle.hub_requests.specs.declared.reply.Refusal.TheVariants as no;

mod nexts;

use crate::room::Room;
use crate::session_listener::SessionListener;
use crate::subscription::Subscription;
use hub_fifodir::{Enter, Fifodir, Pause};
use hub_listen::{ListenError, Listener, Mode};
use hub_requests::{Name, PatternText, Refusal, Reply, refusal_of_handle};
use indexmap::IndexMap;
use std::alloc::{AllocError, Global};
use std::mem;
use std::sync::{Arc, Wait};

/// What the current handles of a session hold, by number. Subscriptions and listeners are numbered in one sequence.
///
/// It isn't `Drop`, and only `release` takes it, after `end`.
pub struct Handles {
    alloc: Global,
    /// How many handles were given.
    given: u64,
    subscriptions: IndexMap<u64, Subscription>,
    listeners: IndexMap<u64, SessionListener>,
    /// Shared by all takes.
    room: Room,
    ghost subscribed: { (id : ℕ) → given < id → lookup (nat_eq id) subscriptions.entries ≡ None },
    ghost listening: { (id : ℕ) → given < id → lookup (nat_eq id) listeners.entries ≡ None },
}

impl Handles {
    ghost use Rattle.hub_handles.specs.Awaiting.{AwaitsAt};
    ghost use Rattle.hub_handles.specs.Handles.{Subscribes, Listens, TakesAt, PollsAt, Cancels, IsStill, IsRefusedSub, IsRefusedListener, HoldsNone, AddsSubscription, AddsListener, given_of, listener_of, refusal_of};

    /// The handles of a new session: none is given.
    pub fn new(alloc: Global) -> Result<Handles, AllocError>
        ensures given { IfOk result (λ handles. given_of handles ≡ 0) }
        ensures none { IfOk result HoldsNone }
    {
        let room = Room::new(alloc)?;
        Ok(Handles {
            alloc,
            given: 0,
            subscriptions: IndexMap::new(alloc),
            listeners: IndexMap::new(alloc),
            room,
        })
    }

    /// Whether one more handle may be given.
    fn has_room(&self) -> Result<(), Refusal>
        ensures ok { OnOk result (refusal_of self.now ≡ None) }
        ensures err { IfErr result (λ refusal. refusal_of self.now ≡ Some refusal) }
    {
        let current = self.subscriptions.len() + self.listeners.len();
        match refusal_of_handle(current, self.given) {
            Some(refusal) => Err(refusal),
            None => Ok(()),
        }
    }

    /// Begins a subscription to the fifodir that has this name, under the next number.
    pub fn subscribe<H: Wait + Enter>(
        &mut self,
        rt: &H,
        name: &Name,
        dir: Arc<Fifodir, Global>,
    ) -> Reply
        ensures { Subscribes name.now (arc_value dir) self.old result self.new }
    {
        match self.add_subscription(rt, name, dir) {
            Ok(number) => Reply::Number(number),
            Err(refusal) => Reply::No(refusal),
        }
    }

    fn add_subscription<H: Wait + Enter>(
        &mut self,
        rt: &H,
        name: &Name,
        dir: Arc<Fifodir, Global>,
    ) -> Result<u64, Refusal>
        ensures ok { IfOk result (λ number. AddsSubscription self.old
            name.now (arc_value dir) number self.new) }
        ensures err { OnErr result (IsStill self.old self.new) }
        ensures in_place { IfErr result (IsRefusedSub self.old (arc_value dir)) }
    {
        self.has_room()?;
        if self.subscriptions.reserve(1).is_err() {
            return Err(Refusal::Memory);
        }
        let subscription = Subscription::new(rt, name, dir)?;
        let number = self.given + 1;
        let replaced = self.subscriptions.insert(number, subscription).unwrap();
        let None = replaced else { unreachable!() };
        self.given = number;
        Ok(number)
    }

    /// Begins a subscription that a listener hears, to the fifodir that has this name, under the next number.
    pub fn listen<H: Wait + Enter>(
        &mut self,
        rt: &H,
        name: &Name,
        dir: Arc<Fifodir, Global>,
        mode: Mode,
        pattern: &PatternText,
    ) -> Reply
        ensures { Listens name.now (arc_value dir) mode pattern.now
            self.old result self.new }
    {
        match self.add_listener(rt, name, dir, mode, pattern) {
            Ok(number) => Reply::Number(number),
            Err(refusal) => Reply::No(refusal),
        }
    }

    fn add_listener<H: Wait + Enter>(
        &mut self,
        rt: &H,
        name: &Name,
        dir: Arc<Fifodir, Global>,
        mode: Mode,
        pattern: &PatternText,
    ) -> Result<u64, Refusal>
        ensures ok { IfOk result (λ number. AddsListener self.old
            name.now (arc_value dir) mode pattern.now number self.new) }
        ensures err { OnErr result (IsStill self.old self.new) }
        ensures in_place { IfErr result (IsRefusedListener self.old pattern.now (arc_value dir)) }
    {
        self.has_room()?;
        let listener = listener_for(self.alloc, pattern)?;
        if self.listeners.reserve(1).is_err() {
            return Err(Refusal::Memory);
        }
        let subscription = Subscription::new(rt, name, dir)?;
        let number = self.given + 1;
        let hearing = SessionListener::new(subscription, listener, mode);
        let replaced = self.listeners.insert(number, hearing).unwrap();
        let None = replaced else { unreachable!() };
        self.given = number;
        Ok(number)
    }

    /// Takes at most `max` events that wait for a subscription.
    pub fn take<H: Wait>(&mut self, rt: &H, id: u64, max: u64) -> Reply
        requires { IsTake max }
        ensures { TakesAt self.old id max result self.new }
    {
        let Some(subscription) = self.subscriptions.get_mut(&id) else {
            return Reply::No(Refusal::Id);
        };
        subscription.take(rt, self.alloc, max as usize, &mut self.room)
    }

    /// Looks for the next hit of a listener. After its hit in mode `Once` it is ended.
    pub fn poll<H: Wait>(&mut self, rt: &H, id: u64) -> Reply
        ensures { PollsAt self.old id result self.new }
    {
        let Some(hearing) = self.listeners.get_mut(&id) else {
            return Reply::No(Refusal::Id);
        };
        let reply = hearing.poll(rt, self.alloc);
        if hearing.ends_with(&reply) {
            self.end_listener(rt, id);
        }
        reply
    }

    /// Waits until the next `take` or `poll` of a handle has something to do, for at most so many turns. It takes nothing, and
    /// needs no memory.
    pub fn await_more<H: Wait, P: Pause>(
        &mut self,
        rt: &H,
        id: u64,
        turns: u64,
        pause: &mut P,
    ) -> Reply
        ensures { AwaitsAt self.old id result self.new }
    {
        if let Some(subscription) = self.subscriptions.get_mut(&id) {
            return reply_of(subscription.await_more(rt, turns, pause));
        }
        let Some(listener) = self.listeners.get_mut(&id) else {
            return Reply::No(Refusal::Id);
        };
        reply_of(listener.await_more(rt, turns, pause))
    }

    /// Ends a listener that is current.
    fn end_listener<H: Wait>(&mut self, rt: &H, id: u64)
        ensures gone { listener_of self.new id ≡ None }
        ensures others { (other : ℕ) → nat_eq id other ≡ false
            → listener_of self.new other ≡ listener_of self.old other }
        ensures subscriptions { self.new.subscriptions.entries ≡ self.old.subscriptions.entries }
        ensures given { self.new.given ≡ self.old.given }
    {
        if let Some(hearing) = self.listeners.swap_remove(&id) {
            hearing.cancel(rt);
        }
    }

    /// Ends a subscription or a listener.
    pub fn cancel<H: Wait>(&mut self, rt: &H, id: u64) -> Reply
        ensures { Cancels self.old id result self.new }
    {
        if let Some(subscription) = self.subscriptions.swap_remove(&id) {
            subscription.cancel(rt);
            return Reply::Done;
        }
        if let Some(hearing) = self.listeners.swap_remove(&id) {
            hearing.cancel(rt);
            return Reply::Done;
        }
        Reply::No(Refusal::Id)
    }

    /// Ends all subscriptions and listeners.
    pub fn end<H: Wait>(&mut self, rt: &H)
        ensures given { given_of self.new ≡ given_of self.old }
        ensures none { HoldsNone self.new }
    {
        let subscriptions = mem::replace(&mut self.subscriptions, IndexMap::new(self.alloc));
        cancel_subscriptions(rt, subscriptions);
        let listeners = mem::replace(&mut self.listeners, IndexMap::new(self.alloc));
        cancel_listeners(rt, listeners);
    }

    /// Ends all subscriptions and listeners, and frees what is left of the handles.
    pub fn release<H: Wait>(mut self, rt: &H) {
        self.end(rt);
        let Handles {
            alloc: _,
            given: _,
            subscriptions,
            listeners,
            room: _,
        } = self;
        subscriptions.destroy_empty();
        listeners.destroy_empty();
    }
}

/// What an await is answered that has found something to do, or hasn't.
fn reply_of(more: bool) -> Reply
    ensures { result ≡ (if more then Done else Late) }
{
    if more { Reply::Done } else { Reply::Late }
}

/// A listener for this pattern that has heard nothing.
fn listener_for(alloc: Global, pattern: &PatternText) -> Result<Listener, Refusal>
    ensures ok { IfOk result (λ listener. listener ≡ new_listening pattern.now Repeat) }
    ensures read { OnOk result (IsPattern pattern.now) }
    ensures err { IfErr result (λ refusal. (refusal ≡ no.Pattern) ⊎ (refusal ≡ no.Memory)) }
{
    Listener::new(alloc, pattern.items(), Mode::Repeat).map_err(|error| match error {
        ListenError::Pattern | ListenError::Large => Refusal::Pattern,
        ListenError::Memory => Refusal::Memory,
    })
}

// The C library gives back to the system what was taken last, and a thread keeps some small pieces of what is freed first. So the
// handles that were given first go first.
fn cancel_subscriptions<H: Wait>(rt: &H, mut subscriptions: IndexMap<u64, Subscription>) {
    subscriptions.reverse();
    while let Some((_, subscription)) = subscriptions.pop() {
        subscription.cancel(rt);
    }
    subscriptions.destroy_empty();
}

fn cancel_listeners<H: Wait>(rt: &H, mut listeners: IndexMap<u64, SessionListener>) {
    listeners.reverse();
    while let Some((_, hearing)) = listeners.pop() {
        hearing.cancel(rt);
    }
    listeners.destroy_empty();
}
