//! The wills of a session.
ghost use Rattle.std.specs.Prelude.{◌≡◌, [], IfOk, OnOk, length, option_map, slice_get};
ghost use Rattle.std.specs.Map.{set_value};
ghost use Rattle.std.specs.Str.{bytes_eq};
ghost use Rattle.indexmap.specs.IndexMap.{insert_entry};

use crate::name::Name;
use crate::will::Will;
use indexmap::IndexMap;
use std::alloc::{AllocError, Global};

/// What a session wants its services to be told when it ends, each under its name, in the order in which the names were first given a
/// will. A will that was taken back keeps its name's place.
#[derive(Drop)]
pub struct Wills {
    by_name: IndexMap<Name, Will>,
}

impl Wills {
    ghost use Rattle.hub_requests.specs.Wills.{HasRoom, named, with_will, wills_in};

    /// Those of a new session: no name has one.
    pub fn new(alloc: Global) -> Wills
        ensures { wills_in result ≡ [] }
    {
        Wills {
            by_name: IndexMap::new(alloc),
        }
    }

    /// Makes room for the will of one more name, and copies the name. An error says that memory ran out.
    pub fn room_for(&mut self, name: &Name) -> Result<Name, AllocError>
        ensures same { wills_in self.new ≡ wills_in self.old }
        ensures key { IfOk result (λ key. key ≡ name.now) }
        ensures room { OnOk result (HasRoom self.new) }
    {
        let key = name.copy()?;
        self.by_name.reserve(1)?;
        Ok(key)
    }

    /// Gives the name this will, in the place of an earlier one.
    pub fn put(&mut self, name: Name, will: Will)
        requires { HasRoom self.old }
        ensures { wills_in self.new ≡ with_will (wills_in self.old) name will }
    {
        match will {
            Will::None => self.take_back(&name),
            Will::Off | Will::Down | Will::Failed => self.give(name, will),
        }
    }

    fn give(&mut self, name: Name, will: Will)
        requires { HasRoom self.old }
        ensures { wills_in self.new ≡ insert_entry bytes_eq (wills_in self.old) name will }
    {
        let Ok(_) = self.by_name.insert(name, will) else {
            unreachable!()
        };
    }

    fn take_back(&mut self, name: &Name)
        ensures { wills_in self.new ≡ set_value (bytes_eq name.now) (wills_in self.old) Will.None }
    {
        if let Some(will) = self.by_name.get_mut(name) {
            *will = Will::None;
        }
    }

    /// How many names were given a will.
    pub fn len(&self) -> usize
        ensures { result ≡ length (wills_in self.now) }
    {
        self.by_name.len()
    }

    /// The name at this place, with its will.
    pub fn get(&self, place: usize) -> Option<(&Name, Will)>
        ensures { option_map named result ≡ slice_get (wills_in self.now) place }
    {
        let (name, will) = self.by_name.get_index(place)?;
        Some((name, *will))
    }

    /// Forgets all wills.
    pub fn clear(&mut self)
        ensures { wills_in self.new ≡ [] }
    {
        self.by_name.clear();
    }
}
