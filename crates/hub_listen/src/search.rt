//! The search for the first hit.
ghost use Rattle.std.specs.Prelude.{◌≡◌, ◌+◌, ◌≤◌, ◌<◌, ◌-◌, ◌++◌, ◌∷◌, [], false, length, take, IfSome, IfNone, string_bytes, string_len, vec_len};
ghost use Rattle.std.specs.String.{string_capacity};
ghost use Rattle.hub_listen.specs.Hit.{finds, IsHit, HasNoHit};
ghost use Rattle.hub_listen.specs.Letters.{IsLetter, AreLetters};
ghost use Rattle.hub_listen.specs.Alive.{AreAlive, HasRoom};

use crate::alive::Alive;
use crate::pattern::Pattern;
use hub_letters::{Letter, MOST_GATHERED};

/// Appends a letter; the caller knows that there is room.
fn append(text: &mut String, letter: Letter)
    requires { string_len text.old < string_capacity text.old }
    ensures bytes { string_bytes text.new ≡ string_bytes text.old ++ letter ∷ [] }
    ensures room { string_capacity text.old ≤ string_capacity text.new }
    ensures letter { IsLetter letter }
{
    text.push(char::from(letter.byte())).unwrap();
}

/// Appends the letters of the piece to the text until there is a hit or no room. Returns how many letters completed the
/// hit. `alive` has the states of the searches of the text, in which there was no match.
pub(crate) fn first_hit(
    pattern: &Pattern,
    alive: &mut Alive,
    text: &mut String,
    piece: &[Letter],
) -> Option<usize>
    requires short { string_len text.old ≤ MOST_GATHERED }
    requires room { MOST_GATHERED ≤ string_capacity text.old }
    requires letters { AreLetters (string_bytes text.old) }
    requires states { HasRoom alive.old (vec_len pattern.now.nfa.states) }
    requires alive { AreAlive pattern.now.nfa (string_bytes text.old)
        (string_len text.old) alive.old.states.items }
    requires quiet { 1 ≤ string_len text.old → finds (string_bytes pattern.now.text)
        (string_bytes text.old) ≡ false }
    ensures hit { IfSome result (IsHit (string_bytes pattern.now.text)
        (string_bytes text.old) piece.now) }
    ensures none { IfNone result (HasNoHit (string_bytes pattern.now.text)
        (string_bytes text.old) piece.now) }
    ensures grown { IfNone result (string_bytes text.new
        ≡ string_bytes text.old ++ take (MOST_GATHERED - string_len text.old) piece.now) }
    ensures alive { IfNone result
        (AreAlive pattern.now.nfa (string_bytes text.new) (string_len text.new)
        alive.new.states.items) }
    ensures quiet { IfNone result (1 ≤ string_len text.new →
        finds (string_bytes pattern.now.text) (string_bytes text.new) ≡ false) }
    ensures states { HasRoom alive.new (vec_len pattern.now.nfa.states) }
    ensures kept { alive.new.kept ≡ alive.old.kept }
    ensures room { MOST_GATHERED ≤ string_capacity text.new }
    ensures letters { AreLetters (string_bytes text.new) }
{
    for i in 0..piece.len() {
        if text.len() >= MOST_GATHERED {
            return None;
        }
        append(text, piece[i]);
        if alive.hear_last(&pattern.nfa, text.as_str().as_bytes()) {
            return Some(i + 1);
        }
    }
    None
}
