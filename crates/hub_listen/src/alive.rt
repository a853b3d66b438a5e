//! The states in which the searches of a text are alive.
ghost use Rattle.std.specs.Prelude.{◌≡◌, ◌≢◌, ◌+◌, ◌-◌, ◌<◌, ◌≤◌, ◌↔◌, ℕ, false, [], length, vec_len, slice_index, IfOk, IsTrue};
ghost use Rattle.regex_nfa.specs.Run.{state_of};
ghost use Rattle.regex_nfa.specs.Paths.{EmptyEdge};
ghost use Rattle.regex_dfa.specs.Moves.{Has};
ghost use Rattle.regex_dfa.specs.Walks.{Grows};
ghost use Rattle.hub_listen.specs.Alive.{HasMatch, AreAlive, AreReached, AreRead, ClosesBelow, HasRoom};

use crate::states::States;
use regex_nfa::{Nfa, State, StateId, holds};
use std::alloc::{AllocError, Global};
use std::mem;

/// The states of the searches of a text. A search begins at each place of the text.
#[derive(Drop)]
pub(crate) struct Alive {
    /// The states that the searches enter when they read the newest byte.
    pub(crate) states: States,
    /// These states, and all states to which empty edges lead from them.
    pub(crate) reached: States,
    /// What `states` was when [`Alive::keep_if`] kept it.
    pub(crate) kept: States,
}

impl Alive {
    /// The states of the searches of the empty text.
    pub(crate) fn new(alloc: Global, nfa: &Nfa) -> Result<Alive, AllocError>
        ensures room { IfOk result (λ alive. HasRoom alive (vec_len nfa.now.states)) }
        ensures alive { IfOk result (λ alive. AreAlive nfa.now [] 0 alive.states.items) }
    {
        let count = nfa.states.len();
        let mut states = States::new(alloc, count)?;
        states.add(nfa.unanchored);
        Ok(Alive {
            states,
            reached: States::new(alloc, count)?,
            kept: States::new(alloc, count)?,
        })
    }

    /// Begins from scratch with the empty text.
    pub(crate) fn restart(&mut self, nfa: &Nfa)
        requires { HasRoom self.old (vec_len nfa.now.states) }
        ensures room { HasRoom self.new (vec_len nfa.now.states) }
        ensures alive { AreAlive nfa.now [] 0 self.new.states.items }
    {
        self.states.clear();
        self.states.add(nfa.unanchored);
    }

    /// Keeps the states for [`Alive::go_back`] if they are needed.
    pub(crate) fn keep_if(&mut self, needed: bool, nfa: &Nfa)
        requires { HasRoom self.old (vec_len nfa.now.states) }
        ensures room { HasRoom self.new (vec_len nfa.now.states) }
        ensures states { self.new.states ≡ self.old.states }
        ensures kept { IsTrue needed → (q : ℕ) → Has self.new.kept.items q ↔ Has
            self.old.states.items q }
    {
        if needed {
            self.kept.copy(&self.states);
        }
    }

    /// Goes back to the states that were kept.
    pub(crate) fn go_back(&mut self, nfa: &Nfa)
        requires { HasRoom self.old (vec_len nfa.now.states) }
        ensures room { HasRoom self.new (vec_len nfa.now.states) }
        ensures states { self.new.states ≡ self.old.kept }
    {
        mem::swap(&mut self.states, &mut self.kept);
    }

    /// Goes on to the last byte of the text. Returns whether a match ends before or after that byte. If so, the states
    /// are of no use any more.
    pub(crate) fn hear_last(&mut self, nfa: &Nfa, text: &[u8]) -> bool
        requires some { 1 ≤ length text.now }
        requires room { HasRoom self.old (vec_len nfa.now.states) }
        requires alive { AreAlive nfa.now text.now (length text.now - 1) self.old.states.items }
        ensures room { HasRoom self.new (vec_len nfa.now.states) }
        ensures kept { self.new.kept ≡ self.old.kept }
        ensures found { IsTrue result → (i : ℕ) × HasMatch nfa.now text.now i }
        ensures none_before { result ≡ false → ¬ (HasMatch nfa.now text.now (length text.now - 1)) }
        ensures none_behind { result ≡ false → ¬ (HasMatch nfa.now text.now (length text.now)) }
        ensures alive { result ≡ false → AreAlive nfa.now text.now
            (length text.now) self.new.states.items }
    {
        let last = text.len() - 1;
        self.reached.copy(&self.states);
        if close(nfa, text, last, &mut self.reached) {
            return true;
        }
        read(nfa, text[last], &self.reached, &mut self.states);
        self.reached.copy(&self.states);
        close(nfa, text, text.len(), &mut self.reached)
    }
}

/// Adds all states to which empty edges lead, until one of them is a match. Returns whether one is.
fn close(nfa: &Nfa, text: &[u8], at: usize, reached: &mut States) -> bool
    requires room { reached.old.count ≡ vec_len nfa.now.states }
    requires reached { AreReached nfa.now text.now at reached.old.items }
    ensures room { reached.new.count ≡ reached.old.count }
    ensures found { IsTrue result → HasMatch nfa.now text.now at }
    ensures closed { result ≡ false →
        ClosesBelow nfa.now text.now at reached.old.items
        reached.new.items (length reached.new.items) }
{
    let mut done = 0;
    while done < reached.len() {
        let state = reached.get(done);
        if follow(nfa, text, at, state, reached) {
            return true;
        }
        done += 1;
    }
    false
}

/// Adds the states to which empty edges lead from this one. Returns whether it is a match itself.
fn follow(nfa: &Nfa, text: &[u8], at: usize, state: StateId, reached: &mut States) -> bool
    requires room { reached.old.count ≡ vec_len nfa.now.states }
    requires state { state < vec_len nfa.now.states }
    ensures room { reached.new.count ≡ reached.old.count }
    ensures grows { Grows (EmptyEdge nfa.now text.now at state)
        reached.old.items reached.new.items }
    ensures all { (q : ℕ) → EmptyEdge nfa.now text.now at state q → Has reached.new.items q }
    ensures matched { IsTrue result → state_of nfa.now state ≡ State.Match }
    ensures unmatched { result ≡ false → state_of nfa.now state ≢ State.Match }
{
    match nfa.state(state) {
        State::Split { first, second } => {
            reached.add(first);
            reached.add(second);
            false
        }
        State::Save { next, .. } => {
            reached.add(next);
            false
        }
        State::Look { look, next } => {
            if holds(look, text, at) {
                reached.add(next);
            }
            false
        }
        State::Match => true,
        _ => false,
    }
}

/// Lists the states to which the reached states go on the byte.
fn read(nfa: &Nfa, byte: u8, reached: &States, states: &mut States)
    requires from { reached.now.count ≡ vec_len nfa.now.states }
    requires room { states.old.count ≡ vec_len nfa.now.states }
    ensures room { states.new.count ≡ states.old.count }
    ensures read { AreRead nfa.now byte reached.now.items states.new.items }
{
    states.clear();
    for k in 0..reached.len() {
        let state = nfa.state(reached.get(k));
        if let Some(next) = nfa.next_on(state, byte) {
            states.add(next);
        }
    }
}
