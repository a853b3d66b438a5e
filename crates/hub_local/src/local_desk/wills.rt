//! The wills of a session: one is given, and all are carried out at its end.
ghost use Rattle.std.specs.Prelude.{◌≡◌, List, false};
ghost use Rattle.hub_record.specs.Kept.{Represents};
ghost use Rattle.hub_record.specs.World.{World};
ghost use Rattle.hub_requests.specs.Wills.{state_of, wills_in};
ghost use Rattle.hub_requests.specs.declared.request.Request.TheVariants.{Will as Leave};
ghost use Rattle.hub_local.specs.Desks.{Fifodir};
ghost use Rattle.hub_local.specs.Ends.{after_one, after_wills, told_last};
ghost use Rattle.hub_local.specs.Representing.{AreKept, AsksWith};

use crate::local_desk::fifodirs::PUBLISHER;
use crate::local_desk::{LocalDesk, LocalFifodir};
use hub_letters::State;
use hub_record::Kind;
use hub_requests::{Name, Refusal, Reply, Will, Wills};
use indexmap::IndexMap;

impl LocalDesk {
    pub(super) fn will(&mut self, name: &Name, will: Will) -> Reply
        ensures { AsksWith false self.old (Leave name.now will) result self.new }
    {
        let Some(fifodir) = self.fifodirs.get(name) else {
            return Reply::No(Refusal::Name);
        };
        match fifodir.kept.kind() {
            Kind::Plain => return Reply::No(Refusal::Kind),
            Kind::Service => {}
        }
        let Ok(key) = self.wills.room_for(name) else {
            return Reply::No(Refusal::Memory);
        };
        self.wills.put(key, will);
        Reply::Done
    }
}

/// Carries out the wills, in their order.
pub(super) fn carry_out(fifodirs: &mut IndexMap<Name, LocalFifodir>, wills: &Wills)
    ensures { (model : List Fifodir) → AreKept fifodirs.old.entries model
        → AreKept fifodirs.new.entries (after_wills model (wills_in wills.now)) }
{
    for place in 0..wills.len() {
        let Some((name, will)) = wills.get(place) else {
            unreachable!()
        };
        carry_out_one(fifodirs, name, will);
    }
}

fn carry_out_one(fifodirs: &mut IndexMap<Name, LocalFifodir>, name: &Name, will: Will)
    ensures { (model : List Fifodir) → AreKept fifodirs.old.entries model
        → AreKept fifodirs.new.entries (after_one model name.now (state_of will)) }
{
    let Some(state) = will.state() else {
        return;
    };
    if let Some(fifodir) = fifodirs.get_mut(name) {
        fifodir.tell_as_last(state);
    }
}

impl LocalFifodir {
    /// Tells the state by the desk's publisher, if the last event of this service is its own.
    fn tell_as_last(&mut self, state: State)
        ensures after { (w : World) → Represents self.old.kept w
            → Represents self.new.kept (told_last state w) }
        ensures reports { self.new.reports ≡ self.old.reports }
    {
        match self.kept.kind() {
            Kind::Plain => return,
            Kind::Service => {}
        }
        if self.kept.last_publisher() == Some(PUBLISHER) {
            let word = self.kept.word(state);
            let _ = self.publish(word.letters());
        }
    }
}
