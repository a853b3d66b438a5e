//! The requests about a subscription: begin one, take from it, and end it.
ghost use Rattle.std.specs.Prelude.{◌≡◌, ◌≤◌, ◌<◌, List, length, None, Some, false, true, nat_eq, IfOk, OnOk, OnErr};
ghost use Rattle.indexmap.specs.IndexMap.{values, spare, insert_entry};
ghost use Rattle.hub_record.specs.Kept.{Represents};
ghost use Rattle.hub_record.specs.World.{World, letters, take_reply, take_events, after_take};
ghost use Rattle.hub_letters.specs.declared.mode.TheConstants.{MOST_GATHERED};
ghost use Rattle.hub_local.specs.Opening.{Begins, is_there};
ghost use Rattle.hub_local.specs.DeskAnswers.{in_world, refusal_to_hold, subscribe_answer, take_shown};
ghost use Rattle.hub_local.specs.Desks.{Desk, Fifodir, GoesOn, without_held, without_all, world_of};
ghost use Rattle.hub_local.specs.Replies.{subscribe_reply};
ghost use Rattle.hub_local.specs.Representing.{AreKept, CarriesOut, AsksWith, HasSubscription, RepresentsDesk, Unchanged};
ghost use Rattle.hub_requests.specs.declared.reply.Reply.TheVariants.{No};
ghost use Rattle.hub_requests.specs.declared.request.Request.TheVariants.{Sub, Take, Cancel};

use crate::local_desk::{Holding, LocalDesk, LocalFifodir, LocalListener};
use hub_letters::Letter;
use hub_record::{Event, Record, Taken};
use hub_requests::{Name, Refusal, Reply, letters_of, refusal_of_handle};
use indexmap::IndexMap;
use std::alloc::{AllocError, Global};

impl LocalDesk {
    pub(super) fn subscribe(&mut self, name: &Name) -> Reply
        ensures { AsksWith false self.old (Sub name.now) result self.new }
    {
        match self.refusal_to_hold(name) {
            Some(refusal) => Reply::No(refusal),
            None => self.hold(name, None),
        }
    }

    /// Why there can be no further handle for a subscription to the fifodir of this name. None if there can.
    pub(super) fn refusal_to_hold(&self, name: &Name) -> Option<Refusal>
        ensures { (desk : Desk) → RepresentsDesk self.now desk
            → result ≡ refusal_to_hold desk name.now }
    {
        if !self.fifodirs.contains_key(name) {
            return Some(Refusal::Name);
        }
        refusal_of_handle(self.holdings.len(), self.given)
    }

    /// Subscribes, and gives the subscription the next handle.
    pub(super) fn hold(&mut self, name: &Name, hearing: Option<LocalListener>) -> Reply
        requires unrefused { (desk : Desk) → RepresentsDesk self.old desk
            → refusal_to_hold desk name.now ≡ None }
        requires goes_on { GoesOn hearing }
        ensures { CarriesOut self.old true (λ desk. refusal_to_hold desk name.now)
            (λ desk. in_world desk
            (λ w. subscribe_answer desk name.now hearing w (subscribe_reply w))
            (world_of desk.fifodirs name.now)) Unchanged result self.new }
    {
        match begin(&mut self.fifodirs, &mut self.holdings, name) {
            Ok((name, id)) => {
                self.given += 1;
                let holding = Holding { name, id, hearing };
                give(&mut self.holdings, self.given, holding);
                Reply::Number(self.given)
            }
            Err(refusal) => Reply::No(refusal),
        }
    }

    pub(super) fn take(&mut self, id: u64, max: u64) -> Reply
        requires { max ≤ MOST_GATHERED }
        ensures { AsksWith false self.old (Take id max) result self.new }
    {
        let Some(holding) = self.holdings.get(&id) else {
            return Reply::No(Refusal::Id);
        };
        if holding.hearing.is_some() {
            return Reply::No(Refusal::Id);
        }
        let Some(fifodir) = self.fifodirs.get_mut(&holding.name) else {
            unreachable!()
        };
        match take_waiting(self.alloc, &mut fifodir.kept, holding.id, max as usize) {
            Ok(reply) => reply,
            Err(_) => Reply::No(Refusal::Memory),
        }
    }

    pub(super) fn cancel(&mut self, id: u64) -> Reply
        ensures { AsksWith false self.old (Cancel id) result self.new }
    {
        let Some(holding) = self.holdings.shift_remove(&id) else {
            return Reply::No(Refusal::Id);
        };
        release(&mut self.fifodirs, &holding);
        Reply::Done
    }
}

/// Makes room for one more handle, and then subscribes. Returns what the handle is for: a copy of the name, and the
/// subscription's id.
fn begin(
    fifodirs: &mut IndexMap<Name, LocalFifodir>,
    holdings: &mut IndexMap<u64, Holding>,
    name: &Name,
) -> Result<(Name, u64), Refusal>
    requires there { is_there fifodirs.old.entries name.now ≡ true }
    ensures begins { (model : List Fifodir) (w : World) → AreKept fifodirs.old.entries model
        → world_of model name.now ≡ Some w → Begins name.now w model result fifodirs.new.entries }
    ensures name { IfOk result (λ begun. begun.0 ≡ name.now) }
    ensures room { OnOk result (0 < spare holdings.new) }
    ensures same { holdings.new.entries ≡ holdings.old.entries }
{
    let Ok(key) = name.copy() else {
        return Err(Refusal::Memory);
    };
    if holdings.reserve(1).is_err() {
        return Err(Refusal::Memory);
    }
    let Some(fifodir) = fifodirs.get_mut(name) else {
        unreachable!()
    };
    match fifodir.kept.subscribe() {
        Ok((id, _mark)) => Ok((key, id)),
        Err(error) => Err(Refusal::from(error)),
    }
}

/// Gives this number to what is held. There is room for it.
fn give(holdings: &mut IndexMap<u64, Holding>, number: u64, holding: Holding)
    requires { 0 < spare holdings.old }
    ensures { holdings.new.entries ≡ insert_entry nat_eq holdings.old.entries number holding }
{
    holdings.insert(number, holding).unwrap();
}

/// Cancels the subscription of a handle, if it is current.
fn release(fifodirs: &mut IndexMap<Name, LocalFifodir>, holding: &Holding)
    ensures { (model : List Fifodir) → AreKept fifodirs.old.entries model
        → AreKept fifodirs.new.entries (without_held model holding.now) }
{
    if let Some(fifodir) = fifodirs.get_mut(&holding.name) {
        let _ = fifodir.kept.cancel(holding.id);
    }
}

/// Cancels the subscription of each of these handles, if it is current.
pub(super) fn release_all(
    fifodirs: &mut IndexMap<Name, LocalFifodir>,
    holdings: &IndexMap<u64, Holding>,
)
    ensures { (model : List Fifodir) → AreKept fifodirs.old.entries model
        → AreKept fifodirs.new.entries (without_all model (values holdings.now)) }
{
    for holding in holdings.values() {
        release(fifodirs, holding);
    }
}

/// Takes what is pending for a subscription, at most `most` events, through a buffer with room for exactly those. If
/// memory runs out, nothing was taken.
fn take_waiting(alloc: Global, kept: &mut Record, id: u64, most: usize) -> Result<Reply, AllocError>
    requires current { HasSubscription kept.old id }
    requires few { most ≤ MOST_GATHERED }
    ensures reply { (w : World) → Represents kept.old w
        → IfOk result (λ reply. reply ≡ take_shown (letters (take_events w id most))
        (take_reply w id most)) }
    ensures after { (w : World) → Represents kept.old w
        → OnOk result (Represents kept.new (after_take w id most)) }
    ensures err { OnErr result (kept.new ≡ kept.old) }
{
    let waiting = kept.waiting(id).unwrap_or(0);
    let mut room = vec![in alloc; Event::FILLER; most.min(waiting as usize)]?;
    take_letters(alloc, kept, id, &mut room)
}

/// Takes what is pending for a subscription, as far as it fits. If memory runs out, nothing was taken.
fn take_letters(
    alloc: Global,
    kept: &mut Record,
    id: u64,
    room: &mut [Event],
) -> Result<Reply, AllocError>
    requires current { HasSubscription kept.old id }
    requires few { length room.old ≤ MOST_GATHERED }
    ensures reply { (w : World) → Represents kept.old w
        → IfOk result (λ reply. reply ≡ take_shown
        (letters (take_events w id (length room.old))) (take_reply w id (length room.old))) }
    ensures after { (w : World) → Represents kept.old w
        → OnOk result (Represents kept.new (after_take w id (length room.old))) }
    ensures err { OnErr result (kept.new ≡ kept.old) }
{
    let letters = Vec::with_capacity(alloc, room.len())?;
    match kept.take_into(id, room) {
        Ok(Taken::Got(count)) => Ok(Reply::Got(letters_of(&room[..count], letters))),
        Ok(Taken::Nothing) => Ok(Reply::Nothing),
        Ok(Taken::End) => Ok(Reply::End),
        Ok(Taken::Evicted) => Ok(Reply::Evicted),
        Err(_) => unreachable!(),
    }
}
