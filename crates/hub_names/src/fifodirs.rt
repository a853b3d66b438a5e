//! The fifodirs that a session found, by name.
ghost use Rattle.std.specs.Prelude.{◌≡◌, None, IfErr, IfNone, IfSome, OnOk, IfOk};
ghost use Rattle.hub_requests.specs.Wills.{wills_in};
ghost use Rattle.std.specs.Borrow.{sem};
ghost use Rattle.hub_names.specs.Refusals.{refusal_of_hub};
ghost use Rattle.hub_names.specs.Says.{says_closed, says_published, says_status};
ghost use Rattle.hub_names.specs.declared.hub.Hub.{Hub};

use crate::hub::{Hub, HubError, Made, NamesChange, NamesLook};
use crate::joined::Joined;
use hub_fifodir::{Enter, Pause};
use hub_letters::State;
use hub_record::{Kind, Letters, Limits};
use hub_requests::{Name, Refusal, Reply, Will, Wills};
use indexmap::IndexMap;
use std::alloc::Global;
use std::mem;
use std::sync::Wait;

/// The fifodirs that a session found. Each is kept under the name that it was first found by, and from then on a request
/// looks its name up here once and never in the hub.
///
/// They aren't `Drop`, and only `release` takes them.
pub struct Fifodirs {
    alloc: Global,
    by_name: IndexMap<Name, Joined>,
    /// What the session last saw of its hub's names, as contracts see it.
    look: Option<NamesLook>,
    /// How it last changed them, or tried to.
    change: Option<NamesChange>,
}

impl Fifodirs {
    ghost use Rattle.hub_names.specs.Changes.{MakesName};
    ghost use Rattle.hub_names.specs.Looks.{AsksNames};
    ghost use Rattle.hub_names.specs.Lending.{LendsJoined};
    ghost use Rattle.hub_names.specs.Wills.{AreCarriedOut, IsCarriedOut, WillsByName, wills_after};
    ghost use Rattle.hub_names.specs.Fifodirs.{AsksByName, DescribesByName, TellsByName, IsAsBefore, IsSilent, IsKeptAs, KeepsAll, KeepsNone, Joins, IsFinding, IsMissing, IsFound, joined_at};

    /// Those of a new session: it has found none.
    pub fn new(alloc: Global) -> Fifodirs
        ensures { KeepsNone result }
    {
        Fifodirs {
            alloc,
            by_name: IndexMap::new(alloc),
            look: None,
            change: None,
        }
    }

    /// Finds the fifodir of a name that isn't known yet.
    fn join<H: Wait>(&mut self, rt: &H, hub: &Hub, name: &Name) -> Result<(), Refusal>
        requires { joined_at self.old name.now ≡ None }
        ensures ok { OnOk result (Joins hub.now self.old name.now self.new) }
        ensures err { IfErr result (IsFinding hub.now self.old name.now self.new) }
    {
        let (look, found) = hub.find(rt, name);
        self.look = Some(look);
        let Ok(found) = found else {
            return Err(Refusal::Memory);
        };
        let Some(found) = found else {
            return Err(Refusal::Name);
        };
        let Ok(key) = name.copy() else {
            return Err(Refusal::Memory);
        };
        match self.by_name.insert(key, Joined::new(found)) {
            Ok(replaced) => {
                let None = replaced else { unreachable!() };
                Ok(())
            }
            Err(refused) => {
                let (_, joined) = refused.value;
                joined.leave(rt);
                Err(Refusal::Memory)
            }
        }
    }

    /// What is kept under this name, to be asked. A name that isn't known yet is looked up in the hub.
    fn joined<H: Wait>(&mut self, rt: &H, hub: &Hub, name: &Name) -> Result<&mut Joined, Refusal>
        ensures* writes_back { sem 𝓛 (LendsJoined hub.now self.entry name.now result) }
        ensures found { IfOk result (λ joined. IsFound hub.now self.old name.now joined.now) }
    {
        if !self.by_name.contains_key(name) {
            self.join(rt, hub, name)?;
        }
        match self.by_name.get_mut(name) {
            Some(joined) => Ok(joined),
            None => unreachable!(),
        }
    }

    /// The fifodir of this name, to be kept beside a pass.
    pub fn find<H: Wait>(&mut self, rt: &H, hub: &Hub, name: &Name) -> Result<Made, Refusal>
        ensures ok { IfOk result (λ found. IsKeptAs self.new name.now found) }
        ensures kept { KeepsAll hub.now self.old self.new }
        ensures missing { IfErr result (IsMissing hub.now self.new name.now) }
    {
        self.joined(rt, hub, name)?.copy()
    }

    /// Publishes by the session's publisher at the fifodir of this name.
    pub fn publish<H: Wait + Enter>(
        &mut self,
        rt: &H,
        hub: &Hub,
        name: &Name,
        letters: &Letters,
    ) -> Reply
        ensures { AsksByName hub.now (says_published letters.now)
            self.old name.now result self.new }
    {
        match self.joined(rt, hub, name) {
            Ok(joined) => joined.publish(rt, letters),
            Err(refusal) => Reply::No(refusal),
        }
    }

    /// Tells where the service of this name is, by the session's publisher there.
    pub fn tell<H: Wait + Enter>(&mut self, rt: &H, hub: &Hub, name: &Name, state: State) -> Reply
        ensures { TellsByName hub.now state self.old name.now result self.new }
    {
        match self.joined(rt, hub, name) {
            Ok(joined) => joined.tell(rt, state),
            Err(refusal) => Reply::No(refusal),
        }
    }

    /// Gives the service of this name a will, which the session's publisher there is to carry out.
    pub fn will<H: Wait + Enter>(
        &mut self,
        rt: &H,
        hub: &Hub,
        wills: &mut Wills,
        name: &Name,
        will: Will,
    ) -> Reply
        ensures asked { WillsByName hub.now self.old name.now result self.new }
        ensures given { wills_in wills.new
            ≡ wills_after name.now will result (wills_in wills.old) }
    {
        match self.joined(rt, hub, name) {
            Ok(joined) => joined.will(rt, wills, name, will),
            Err(refusal) => Reply::No(refusal),
        }
    }

    /// Closes the fifodir of this name by the session's publisher there.
    pub fn close<H: Wait + Enter>(&mut self, rt: &H, hub: &Hub, name: &Name) -> Reply
        ensures { AsksByName hub.now says_closed self.old name.now result self.new }
    {
        match self.joined(rt, hub, name) {
            Ok(joined) => joined.close(rt),
            Err(refusal) => Reply::No(refusal),
        }
    }

    /// Tells what the fifodir of this name is, and how much is there. It makes no publisher.
    pub fn about<H: Wait + Enter>(&mut self, rt: &H, hub: &Hub, name: &Name) -> Reply
        ensures { DescribesByName hub.now self.old name.now result self.new }
    {
        match self.joined(rt, hub, name) {
            Ok(joined) => joined.about(rt),
            Err(refusal) => Reply::No(refusal),
        }
    }

    /// Answers the status by the session's publisher at the fifodir of this name. None if it has no publisher there yet. It
    /// gets no `rt`, and so can't wait for the lock.
    pub fn status(&mut self, name: &Name) -> Option<Reply>
        ensures step { IfSome result (λ reply. (hub : Hub)
            → AsksByName hub says_status self.old name.now reply self.new) }
        ensures none { IfNone result (IsSilent self.old name.now × IsAsBefore self.old self.new) }
    {
        let Some(joined) = self.by_name.get_mut(name) else {
            return None;
        };
        joined.status()
    }

    /// Answers the status by the session's publisher at the fifodir of this name, which it makes if it has none there yet.
    pub fn first_status<H: Wait + Enter>(&mut self, rt: &H, hub: &Hub, name: &Name) -> Reply
        ensures { AsksByName hub.now says_status self.old name.now result self.new }
    {
        match self.joined(rt, hub, name) {
            Ok(joined) => joined.first_status(rt),
            Err(refusal) => Reply::No(refusal),
        }
    }

    /// The hub's names from place `from` on, as many as fit in one reply.
    pub fn list<H: Wait>(&mut self, rt: &H, hub: &Hub, from: u64) -> Reply
        ensures { AsksNames hub.now self.old from result self.new }
    {
        let (look, reply) = hub.list(rt, from);
        self.look = Some(look);
        reply
    }

    /// Makes a fifodir in the hub, under a name that has none there. The session doesn't find it by that.
    pub fn make<H: Wait + Enter>(
        &mut self,
        rt: &H,
        hub: &Hub,
        name: &Name,
        kind: Kind,
        limits: Limits,
        notifies: bool,
    ) -> Reply
        ensures { MakesName hub.now kind limits notifies self.old name.now result self.new }
    {
        let (change, made) = hub.make_named(rt, name, kind, limits, notifies);
        self.change = Some(change);
        match made {
            Ok(()) => Reply::Done,
            Err(error) => Reply::No(refusal_of_hub(error)),
        }
    }

    /// Carries out the wills by the session's publishers, in their order, each with a copy of the pause. Returns how many were
    /// refused at fifodirs that are open, and adds the names of these to `names`, as far as there is memory.
    pub fn carry_out<H: Wait, P: Pause + Copy>(
        &mut self,
        rt: &H,
        wills: &Wills,
        pause: P,
        names: &mut Vec<Name>,
    ) -> u64
        ensures { AreCarriedOut self.old (wills_in wills.now) result self.new }
    {
        let mut lost = 0;
        for place in 0..wills.len() {
            let Some((name, will)) = wills.get(place) else {
                unreachable!()
            };
            if self.carry_out_one(rt, name, will, pause) {
                lost += 1;
                add(names, name);
            }
        }
        lost
    }

    /// Carries out one will. Returns whether it was refused, though the fifodir is open.
    fn carry_out_one<H: Wait, P: Pause + Copy>(
        &mut self,
        rt: &H,
        name: &Name,
        will: Will,
        pause: P,
    ) -> bool
        ensures { IsCarriedOut self.old (name.now, will) result self.new }
    {
        let Some(state) = will.state() else {
            return false;
        };
        match self.by_name.get_mut(name) {
            Some(joined) => joined.carry_out(rt, state, pause),
            None => false,
        }
    }

    /// Ends all publishers.
    pub fn leave<H: Wait>(&mut self, rt: &H)
        ensures { KeepsNone self.new }
    {
        let mut left = mem::replace(&mut self.by_name, IndexMap::new(self.alloc));
        while let Some((_, joined)) = left.pop() {
            joined.leave(rt);
        }
        left.destroy_empty();
    }

    /// Ends all publishers, and frees what is left.
    pub fn release<H: Wait>(mut self, rt: &H) {
        self.leave(rt);
        let Fifodirs {
            alloc: _,
            by_name,
            look: _,
            change: _,
        } = self;
        by_name.destroy_empty();
    }
}

// Adds a copy of the name, unless memory runs out.
fn add(names: &mut Vec<Name>, name: &Name) {
    if let Ok(copy) = name.copy() {
        let _ = names.push(copy);
    }
}

fn refusal_of_hub(error: HubError) -> Refusal
    ensures { result ≡ refusal_of_hub error }
{
    match error {
        HubError::Exists => Refusal::Exists,
        HubError::Many => Refusal::Many,
        HubError::Memory => Refusal::Memory,
    }
}
