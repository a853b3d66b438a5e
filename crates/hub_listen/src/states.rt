//! Lists of states.
ghost use Rattle.std.specs.Prelude.{◌≡◌, ◌<◌, ◌≤◌, ◌↔◌, ℕ, [], length, slice_index, IfOk};
ghost use Rattle.regex_dfa.specs.Moves.{Has};
ghost use Rattle.regex_dfa.specs.Walks.{Grows};

use regex_nfa::StateId;
use regex_vm::StateSet;
use std::alloc::{AllocError, Global};
use std::marker::Model;

/// Some of the states 0, 1, 2, .. below a count, each once. All of the room is made at the start.
#[derive(Drop)]
pub(crate) struct States {
    set: StateSet,
    /// The states of `set`.
    list: Vec<StateId>,
}

impl Model for States {
    ghost use Rattle.hub_listen.specs.States.{StateList};

    ghost Value = { StateList };

    ghost use Rattle.hub_listen.specs.States.{list_of, IsListed};

    ghost view = { list_of };

    ghost invariant = { IsListed };
}

impl States {
    /// An empty list, for states below this count.
    pub(crate) fn new(alloc: Global, count: usize) -> Result<States, AllocError>
        ensures { IfOk result (λ states. states ≡ record { count = count; items = [] }) }
    {
        let set = StateSet::new(alloc, count)?;
        let list = Vec::with_capacity(alloc, count)?;
        Ok(States { set, list })
    }

    pub(crate) fn len(&self) -> usize
        ensures value { result ≡ length self.now.items }
        ensures few { result ≤ self.now.count }
    {
        self.list.len()
    }

    pub(crate) fn get(&self, k: usize) -> StateId
        requires { k < length self.now.items }
        ensures value { result ≡ slice_index self.now.items k }
        ensures within { result < self.now.count }
    {
        self.list[k]
    }

    pub(crate) fn clear(&mut self)
        ensures { self.new ≡ record self.old { items = [] } }
    {
        self.set.clear();
        self.list.clear();
    }

    /// Adds a state, unless the list has it.
    pub(crate) fn add(&mut self, state: StateId)
        requires { state < self.old.count }
        ensures count { self.new.count ≡ self.old.count }
        ensures grows { Grows (λ q. state ≡ q) self.old.items self.new.items }
        ensures has { Has self.new.items state }
    {
        if self.set.insert(state) {
            self.list.push_reserved(state);
        }
    }

    /// Becomes a list of the same states.
    pub(crate) fn copy(&mut self, other: &States)
        requires { self.old.count ≡ other.now.count }
        ensures count { self.new.count ≡ self.old.count }
        ensures same { (q : ℕ) → Has self.new.items q ↔ Has other.now.items q }
    {
        self.clear();
        for k in 0..other.len() {
            self.add(other.get(k));
        }
    }
}
