//! Any list of calls on a new record, with the replies and what each id gathered.
ghost use Rattle.std.specs.Prelude.{◌≡◌, ◌≤◌, ◌+◌, ◌-◌, ◌++◌, ◌∷◌, [], List, ℕ, None, IfOk, OnOk, OnErr, length, map, nat_eq};
ghost use Rattle.std.specs.Map.{lookup};
ghost use Rattle.hub_record.specs.World.{World as Modelled, empty_world, after_take, take_reply};
ghost use Rattle.hub_record.specs.Kept.{Represents};
ghost use Rattle.hub_record.specs.Runs.{IsRun, world_after, SaidTo, after_call, AllGatherSinceMark};
ghost use Rattle.hub_record.specs.Runs.{by, letters_published, gathered_from, lists_of, with_more_events};

use crate::{Closed, Event, Kind, Letters, Limits, NoId, PubError, Record, SubError, Taken};
use indexmap::IndexMap;
use std::alloc::{AllocError, Global};

/// A call on a record.
#[derive(Drop)]
pub enum Call {
    /// Subscribes; the next id is given.
    Subscribe,
    /// Publishes a message as the publisher `who`.
    Publish { who: u64, letters: Letters },
    /// Takes what is pending behind the cursor of an id, at most `max` events.
    Take { id: u64, max: usize },
    /// Ends the subscription of an id.
    Cancel { id: u64 },
    /// Closes the record.
    Close,
}

/// The reply to a call, one variant for each kind of call.
#[derive(Clone, Copy, Debug, PartialEq, Eq)]
pub enum Said {
    /// The id and its mark.
    Subscribed(Result<(u64, u64), SubError>),
    /// The number of the first event.
    Published(Result<u64, PubError>),
    /// How many events were taken, or why none was.
    Took(Result<Taken, NoId>),
    /// Whether the id had a subscription.
    Cancelled(Result<(), NoId>),
    /// Whether the record was open.
    Shut(Result<(), Closed>),
}

/// The result of a run.
#[derive(Drop)]
pub struct World {
    /// The record after all calls.
    pub state: Record,
    /// One reply for each call.
    pub replies: Vec<Said>,
    /// What each given id took, cancelled ones too, in the order of the ids.
    pub gathered: IndexMap<u64, Vec<Event>>,
}

impl World {
    /// Carries out one call. After an error the world is inconsistent and must be dropped.
    fn answer(&mut self, alloc: Global, call: &Call) -> Result<Said, AllocError>
        ensures said { (w : Modelled) → Represents self.old.state w
            → IfOk result (λ said. SaidTo w call.now said) }
        ensures after { (w : Modelled) → Represents self.old.state w
            → IfOk result (λ said. Represents self.new.state (after_call w call.now said)) }
        ensures gathered { (w : Modelled) → Represents self.old.state w
            → lists_of self.old.gathered.entries ≡ gathered_from 1 w.subscriptions
            → IfOk result (λ said. lists_of self.new.gathered.entries ≡ gathered_from 1
            (after_call w call.now said).subscriptions) }
        ensures replies { self.new.replies ≡ self.old.replies }
    {
        match call {
            Call::Subscribe => match self.state.subscribe() {
                Ok((id, mark)) => {
                    begin(alloc, &mut self.gathered, id)?;
                    return Ok(Said::Subscribed(Ok((id, mark))));
                }
                Err(SubError::Memory) => return Err(AllocError),
                Err(error) => return Ok(Said::Subscribed(Err(error))),
            },
            Call::Publish { who, letters } => return Ok(Said::Published(
                self.state.publish(*who, letters.items()),
            )),
            Call::Take { id, max } => return Ok(Said::Took(self.take(alloc, *id, *max)?)),
            Call::Cancel { id } => return Ok(Said::Cancelled(self.state.cancel(*id))),
            Call::Close => return Ok(Said::Shut(self.state.close())),
        }
    }

    /// Takes at most `max` events for an id, and appends them to its list.
    fn take(
        &mut self,
        alloc: Global,
        id: u64,
        max: usize,
    ) -> Result<Result<Taken, NoId>, AllocError>
        ensures reply { (w : Modelled) → Represents self.old.state w
            → IfOk result (λ reply. reply ≡ take_reply w id max) }
        ensures after { (w : Modelled) → Represents self.old.state w
            → OnOk result (Represents self.new.state (after_take w id max)) }
        ensures gathered { (w : Modelled) → Represents self.old.state w
            → lists_of self.old.gathered.entries ≡ gathered_from 1 w.subscriptions
            → OnOk result (lists_of self.new.gathered.entries ≡ gathered_from 1
            (after_take w id max).subscriptions) }
        ensures replies { self.new.replies ≡ self.old.replies }
    {
        let waiting = self.state.waiting(id).unwrap_or(0) as usize;
        let mut out = vec![in alloc; Event::FILLER; waiting.min(max)]?;
        let reply = self.state.take_into(id, &mut out);
        append(&mut self.gathered, id, &out)?;
        Ok(reply)
    }

    /// Carries out one call, and keeps its reply. After an error the world is inconsistent and must be dropped.
    fn step(&mut self, alloc: Global, call: &Call) -> Result<(), AllocError>
        ensures said { (w : Modelled) → Represents self.old.state w
            → OnOk result ((said : Said) × SaidTo w call.now said
            × (self.new.replies.items ≡ self.old.replies.items ++ said ∷ [])
            × Represents self.new.state (after_call w call.now said)
            × (lists_of self.old.gathered.entries ≡ gathered_from 1 w.subscriptions
            → lists_of self.new.gathered.entries ≡ gathered_from 1
            (after_call w call.now said).subscriptions)) }
    {
        let said = self.answer(alloc, call)?;
        self.replies.push(said)?;
        Ok(())
    }
}

/// Appends events to the list of an id.
fn append(
    gathered: &mut IndexMap<u64, Vec<Event>>,
    id: u64,
    more: &[Event],
) -> Result<(), AllocError>
    ensures { OnOk result (lists_of gathered.new.entries ≡ with_more_events id more.now
        (lists_of gathered.old.entries)) }
{
    let Some(list) = gathered.get_mut(&id) else {
        return Ok(());
    };
    list.extend_from_slice(more)?;
    Ok(())
}

/// Adds an empty list for a new id.
fn begin(alloc: Global, gathered: &mut IndexMap<u64, Vec<Event>>, id: u64) -> Result<(), AllocError>
    ensures { OnOk result (lookup (nat_eq id) (lists_of gathered.old.entries) ≡ None
        → lists_of gathered.new.entries ≡ lists_of gathered.old.entries ++ (id, []) ∷ []) }
{
    match gathered.insert(id, Vec::new(alloc)) {
        Ok(_) => return Ok(()),
        Err(_) => return Err(AllocError),
    }
}

/// Makes the calls in order on a new record. The run ends if memory runs out.
pub fn replay(
    alloc: Global,
    kind: Kind,
    limits: Limits,
    calls: &[Call],
) -> Result<World, AllocError>
    ensures replies { IfOk result (λ r. IsRun (empty_world kind limits) calls.now r.replies.items) }
    ensures state { IfOk result (λ r. Represents r.state
        (world_after (empty_world kind limits) calls.now r.replies.items)) }
    ensures gathered { IfOk result (λ r. lists_of r.gathered.entries ≡ gathered_from 1
        (world_after (empty_world kind limits) calls.now r.replies.items).subscriptions) }
    ensures since { IfOk result (λ r. AllGatherSinceMark
        (world_after (empty_world kind limits) calls.now r.replies.items)) }
    ensures own { IfOk result (λ r. (p : ℕ) → by p
        (world_after (empty_world kind limits) calls.now r.replies.items).events
        ≡ letters_published p
        calls.now r.replies.items) }
{
    let mut world = World {
        state: Record::new(alloc, kind, limits)?,
        replies: Vec::new(alloc),
        gathered: IndexMap::new(alloc),
    };
    for call in calls {
        world.step(alloc, call)?;
    }
    Ok(world)
}
