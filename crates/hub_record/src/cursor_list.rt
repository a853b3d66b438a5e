//! The cursors of the current ids, in the order of the ids.
ghost use Rattle.std.specs.Prelude.{◌≡◌, ◌<◌, ◌++◌, ℕ, [], ◌∷◌, All, length, slice_get, count_by, nat_eq, nat_le, nat_lt, true, false, IsSome, IfSome, IfNone, IfOk, OnOk, OnErr, Some};
ghost use Rattle.std.specs.Option.{option_map};
ghost use Rattle.std.specs.List.Sorted.{IsPartitionPoint};
ghost use Rattle.hub_record.specs.Backlog.{IsRising};
ghost use Rattle.std.specs.Map.{lookup, set_value, remove_entry, keys_of};

use crate::limits::MOST_PASSES;
use std::alloc::{AllocError, Global};
use std::marker::Model;

/// The number of the event that each current id takes next. Ids are given in their order, so a new one comes last.
#[derive(Drop)]
pub struct CursorList {
    /// Each id with its cursor, in the order of the ids.
    list: Vec<(u64, u64)>,
}

impl Model for CursorList {
    ghost use Rattle.std.specs.Prelude.{ℕ, List};
    ghost use Rattle.hub_record.specs.Backlog.{IsRising};

    ghost Value = { List (ℕ × ℕ) };

    ghost view = { λ c. c.list.items };

    ghost invariant = { λ c. IsRising c.list.items };
}

impl CursorList {
    /// No cursors, with room for all that there may be. If the room grew in the middle of a session, the new room would outlive
    /// the session, and the C library would keep all that the session had before it.
    pub fn new(alloc: Global) -> Result<CursorList, AllocError>
        ensures { IfOk result (λ cursors. cursors ≡ []) }
    {
        let list = Vec::with_capacity(alloc, MOST_PASSES)?;
        Ok(CursorList { list })
    }

    /// How many cursors there are.
    pub fn len(&self) -> usize
        ensures { result ≡ length self.now }
    {
        self.list.len()
    }

    /// How many cursors are at this number or above it.
    pub fn count_from(&self, number: u64) -> usize
        ensures { result ≡ count_by (λ c. nat_le number c.1) self.now }
    {
        self.list.iter().filter(|cursor| cursor.1 >= number).count()
    }

    /// The place and the cursor of an id.
    pub fn find(&self, id: u64) -> Option<(usize, u64)>
        ensures next { option_map (λ f. f.1) result ≡ lookup (nat_eq id) self.now }
        ensures place { IfSome result (λ f. slice_get self.now f.0 ≡ Some (id, f.1)) }
    {
        let list = self.list.as_slice();
        // The ids begin with 1. Until one is removed, each is at the place that it tells.
        let told = id.saturating_sub(1) as usize;
        if let Some(next) = self.at(told, id) {
            return Some((told, next));
        }
        let place = search(list, id);
        let next = self.at(place, id)?;
        Some((place, next))
    }

    /// The cursor of an id.
    pub fn get(&self, id: u64) -> Option<u64>
        ensures { result ≡ lookup (nat_eq id) self.now }
    {
        let (_place, next) = self.find(id)?;
        Some(next)
    }

    /// The cursor of an id, if it is at this place.
    fn at(&self, place: usize, id: u64) -> Option<u64>
        ensures some { IfSome result (λ next. slice_get self.now place ≡ Some (id, next)) }
        ensures none { (next : ℕ) → slice_get self.now place ≡ Some (id, next) → IsSome result }
    {
        let cursor = self.list.get(place)?;
        if cursor.0 != id {
            return None;
        }
        Some(cursor.1)
    }

    /// Moves the cursor at a place.
    pub fn set(&mut self, place: usize, next: u64)
        requires { place < length self.old }
        ensures { IfSome (slice_get self.old place)
            (λ c. self.new ≡ set_value (nat_eq c.0) self.old next) }
    {
        let id = self.list[place].0;
        self.list[place] = (id, next);
    }

    /// Gives a new id a cursor, behind all others.
    pub fn push(&mut self, id: u64, next: u64) -> Result<(), AllocError>
        requires { All (λ k. k < id) (keys_of self.old) }
        ensures ok { OnOk result (self.new ≡ self.old ++ (id, next) ∷ []) }
        ensures err { OnErr result (self.new ≡ self.old) }
    {
        match self.list.push((id, next)) {
            Ok(()) => Ok(()),
            Err(_) => Err(AllocError),
        }
    }

    /// Removes the cursor of an id, and returns it.
    pub fn remove(&mut self, id: u64) -> Option<u64>
        ensures value { result ≡ lookup (nat_eq id) self.old }
        ensures entries { self.new ≡ remove_entry (nat_eq id) self.old }
        ensures unchanged { IfNone result (self.new ≡ self.old) }
    {
        let (place, next) = self.find(id)?;
        let _removed = self.list.remove(place);
        Some(next)
    }
}

/// The place of the first id that isn't below this one, or the number of cursors. Most ids are at the place that they tell,
/// so this isn't inline.
#[cold]
#[inline(never)]
fn search(list: &[(u64, u64)], id: u64) -> usize
    requires { IsRising list.now }
    ensures { IsPartitionPoint (λ c. nat_lt c.0 id ≡ true) (λ c. nat_lt c.0 id ≡ false)
        list.now result }
{
    list.partition_point(|cursor| cursor.0 < id)
}
