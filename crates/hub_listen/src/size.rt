//! How much a listener keeps for its pattern.
ghost use Rattle.std.specs.Prelude.{◌↔◌, ◌+◌, ◌≤◌, length, IsTrue};
ghost use Rattle.hub_listen.specs.Size.{bytes_for};

use regex_nfa::Nfa;

/// The most bytes that a listener keeps for its pattern: the compiled pattern, the room for the states of the searches, and
/// the pattern's text. A session of 256 listeners may have that much 256 times.
pub const MOST_BYTES: usize = 64 << 10;

/// Whether a listener keeps at most [`MOST_BYTES`] for this NFA and the text of its pattern.
pub(crate) fn is_small(nfa: &Nfa, text: &str) -> bool
    ensures { IsTrue result ↔ (bytes_for nfa.now + length text.now ≤ MOST_BYTES) }
{
    let states = nfa.states.capacity().saturating_mul(12);
    let transitions = nfa.transitions.capacity().saturating_mul(8);
    let ranks = nfa.ranks.capacity().saturating_mul(4);
    let lists = nfa.states.len().saturating_mul(3 * (4 + 4));
    let tables = states.saturating_add(transitions).saturating_add(ranks);
    tables.saturating_add(lists).saturating_add(text.len()) <= MOST_BYTES
}
