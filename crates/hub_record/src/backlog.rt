//! The pending events, and the cursors into them.
ghost use Rattle.std.specs.Prelude.{◌≡◌, ◌≤◌, ◌<◌, ◌↔◌, ◌+◌, ◌-◌, ◌⊎◌, length, IfOk, IfSome, OnErr, IsTrue, nat_eq};
ghost use Rattle.std.specs.Map.{set_value};
ghost use Rattle.hub_record.specs.declared.limits.TheConstants.{MOST_EVENTS, MOST_IDS, MOST_PASSES};
ghost use Rattle.hub_record.specs.World.{as_events};
ghost use Rattle.hub_record.specs.Backlog.{Held, nothing_held, active_in, slow_in, lowest, pending};
ghost use Rattle.hub_record.specs.Backlog.{with_new_id, with_events, with_cursors, next_of, IsStill, HasRoomFor, ArePending, ShowsBy, RemovesBy};

use crate::counts::{Counts, has_first, keep_last, one_less, one_more};
use crate::cursor_list::CursorList;
use crate::ends::{append, release};
use crate::ring::{copy_out, cut};
use crate::{Event, NoId, Policy};
use circular_buffer::HeapCircularBuffer;
use hub_letters::Letter;
use std::alloc::{AllocError, Global};
use std::marker::Model;

/// What is behind a cursor.
#[derive(Clone, Copy, Debug, PartialEq, Eq)]
pub enum Found {
    /// This many events were copied to the slice.
    Copied(usize),
    /// Nothing is pending.
    Nothing,
    /// More events were pending than there is room for, so that they aren't kept.
    Lost,
}

/// The events that are pending, as far as there is room, and the cursors. A cursor is slow if more events are pending
/// behind it than there is room for: it is below the base, and nothing is kept for it. A push or a take looks at no
/// cursor but its own.
#[derive(Drop)]
pub struct Backlog {
    /// The events from the base on.
    ring: HeapCircularBuffer<Event>,
    /// How many cursors are at each of these events, and last how many are at the end. Slow ones aren't counted.
    counts: Counts,
    /// The number of the first event that is kept, which is the least cursor that isn't slow.
    base: u64,
    /// How many ids were given so far.
    given: u64,
    /// The number of the event that each current id takes next.
    cursors: CursorList,
}

impl Model for Backlog {
    ghost use Rattle.std.specs.Prelude.{◌+◌, length};
    ghost use Rattle.hub_record.specs.Backlog.{Held, IsKept};

    ghost Value = { Held };

    ghost view = { λ b. record {
      room = b.ring.capacity;
      end = b.base + length b.ring.items;
      events = b.ring.items;
      given = b.given;
      cursors = b.cursors;
    } };

    ghost invariant = { λ b. IsKept b.ring.capacity b.base b.counts
        (b.base + length b.ring.items) b.given b.cursors };
}

impl Backlog {
    /// A backlog without events and cursors, with room for this many events.
    pub fn new(alloc: Global, room: usize) -> Result<Backlog, AllocError>
        ensures { IfOk result (λ b. b ≡ nothing_held room) }
    {
        let ring = HeapCircularBuffer::with_capacity(alloc, room)?;
        let counts = Counts::new(alloc, ring.capacity())?;
        Ok(Backlog {
            ring,
            counts,
            base: 0,
            given: 0,
            cursors: CursorList::new(alloc)?,
        })
    }

    /// The number of the next event.
    pub fn end(&self) -> u64
        ensures end { result ≡ self.now.end }
        ensures small { result ≤ MOST_EVENTS }
    {
        self.base + self.ring.len() as u64
    }

    /// The least cursor that isn't slow, or `end()` if there is none.
    pub fn base(&self) -> u64
        ensures { result ≡ lowest self.now }
    {
        self.base
    }

    /// How many ids were given so far.
    pub fn given(&self) -> u64
        ensures { result ≡ self.now.given }
    {
        self.given
    }

    /// How many cursors there are, slow ones too.
    pub fn current(&self) -> usize
        ensures { result ≡ length self.now.cursors }
    {
        self.cursors.len()
    }

    /// How many cursors aren't slow.
    pub fn active(&self) -> usize
        ensures { result ≡ length (active_in self.now.room self.now.end self.now.cursors) }
    {
        self.cursors.count_from(self.base)
    }

    /// How many cursors are slow.
    pub fn slow(&self) -> usize
        ensures { result ≡ length (slow_in self.now.room self.now.end self.now.cursors) }
    {
        self.current() - self.active()
    }

    /// How many events are kept.
    pub fn load(&self) -> u64
        ensures { result ≡ self.now.end - lowest self.now }
    {
        self.ring.len() as u64
    }

    /// How many events are pending behind the cursor of an id. None if the id has no cursor, or a slow one.
    pub fn waiting(&self, id: u64) -> Option<u64>
        ensures { result ≡ pending self.now id }
    {
        let next = self.cursors.get(id)?;
        if next < self.base {
            return None;
        }
        Some(self.end() - next)
    }

    /// Whether this many more events may be added, if the policy is asked what gives way. If each cursor is slow nothing
    /// is kept, so any number may.
    pub fn has_room(&self, policy: Policy, more: usize) -> bool
        ensures { IsTrue result ↔ HasRoomFor policy self.now more }
    {
        // Most messages fit behind what is kept.
        if more <= self.ring.capacity() - self.ring.len() {
            return true;
        }
        if !has_first(&self.counts) {
            return true;
        }
        match policy {
            Policy::Hold => false,
            Policy::Evict => more <= self.ring.capacity(),
        }
    }

    /// Gives the next id a cursor at the end. Returns the id and its cursor.
    pub fn subscribe(&mut self) -> Result<(u64, u64), AllocError>
        requires few { length self.old.cursors < MOST_PASSES }
        requires left { self.old.given < MOST_IDS }
        ensures given { IfOk result (λ r. r ≡ (self.old.given + 1, self.old.end)) }
        ensures begun { IfOk result (λ r. self.new ≡ with_new_id self.old) }
        ensures err { OnErr result (self.new ≡ self.old) }
    {
        let id = self.given + 1;
        let end = self.end();
        let Ok(()) = self.cursors.push(id, end) else {
            return Err(AllocError);
        };
        self.given = id;
        let last = self.ring.len();
        one_more(&mut self.counts, last);
        Ok((id, end))
    }

    /// Adds the letters as events of a publisher. The first events give way to them as far as needed, and the cursors at
    /// these are slow then. If each cursor is slow nothing is kept.
    #[inline(always)]
    pub fn push(&mut self, who: u64, letters: &[Letter])
        requires fits { IsStill self.old ⊎ (length letters.now ≤ self.old.room) }
        requires small { self.old.end + length letters.now ≤ MOST_EVENTS }
        ensures { self.new ≡ with_events self.old (as_events who letters.now) }
    {
        if !has_first(&self.counts) {
            self.base += letters.len() as u64;
            return;
        }
        let room = self.ring.capacity() - self.ring.len();
        let over = letters.len().saturating_sub(room);
        append(&mut self.ring, &mut self.counts, over, who, letters);
        // If no event gave way, a cursor is still at the first one.
        if over == 0 {
            return;
        }
        self.base += (over + release(&mut self.ring, &mut self.counts, None)) as u64;
    }

    /// Copies what is pending behind a cursor to the beginning of the slice, as far as it fits.
    #[inline(always)]
    pub fn peek(&self, id: u64, out: &mut [Event]) -> Result<Found, NoId>
        ensures { ShowsBy self.now id out.old out.new result }
    {
        let Some(from) = self.cursors.get(id) else {
            return Err(NoId);
        };
        if from < self.base {
            return Ok(Found::Lost);
        }
        if from == self.end() {
            return Ok(Found::Nothing);
        }
        let place = (from - self.base) as usize;
        Ok(Found::Copied(copy_out(&self.ring, place, out)))
    }

    /// Moves a cursor over this many of the events that are pending behind it, and releases what was pending for it alone.
    #[inline(always)]
    pub fn advance(&mut self, id: u64, count: usize)
        requires { ArePending self.old.room self.old.end self.old.cursors id count }
        ensures { IfSome (next_of self.old id) (λ next. self.new ≡ with_cursors self.old
            (set_value (nat_eq id) self.old.cursors (next + count))) }
    {
        let Some((listed, from)) = self.cursors.find(id) else {
            unreachable!()
        };
        let place = (from - self.base) as usize;
        let to = place + count;
        self.cursors.set(listed, from + count as u64);
        let left = one_less(&mut self.counts, place);
        let there = one_more(&mut self.counts, to);
        // After most moves a cursor is still at the base, so that nothing is released.
        if one_stays(place, left) {
            return;
        }
        let all = there == self.cursors.len() as u64;
        // After most others each is at the end, so that all is released.
        if all && to == self.ring.len() {
            cut(&mut self.ring, to);
            keep_last(&mut self.counts, there);
            self.base += to as u64;
            return;
        }
        let known = all.then_some(to);
        self.base += release(&mut self.ring, &mut self.counts, known) as u64;
    }

    /// Removes the cursor of an id, and releases what was pending for it alone.
    pub fn remove(&mut self, id: u64) -> Result<(), NoId>
        ensures { RemovesBy self.old self.new id result }
    {
        let Some(next) = self.cursors.remove(id) else {
            return Err(NoId);
        };
        if next < self.base {
            return Ok(());
        }
        one_less(&mut self.counts, (next - self.base) as usize);
        self.base += release(&mut self.ring, &mut self.counts, None) as u64;
        Ok(())
    }
}

/// Whether a cursor is still at the base, after one left a place where so many are left.
fn one_stays(place: usize, left: u64) -> bool
    ensures { IsTrue result → (0 < place) ⊎ (0 < left) }
{
    place > 0 || left > 0
}
