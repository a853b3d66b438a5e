//! Patterns.
ghost use Rattle.std.specs.Prelude.{◌≡◌, ◌≤◌, ◌+◌, string_bytes, length, IfOk, IfErr, OnOk};
ghost use Rattle.hub_listen.specs.Hit.{IsPattern};
ghost use Rattle.hub_listen.specs.Refused.{IsRefusedAs, told_as};
ghost use Rattle.hub_listen.specs.Size.{bytes_for, IsSmall};
ghost use Rattle.hub_listen.specs.Alive.{SearchesFor};
ghost use Rattle.hub_listen.specs.declared.size.TheConstants.{MOST_BYTES};

use crate::cut::cut;
use crate::listener::ListenError;
use crate::size::is_small;
use regex::Error;
use regex_nfa::Nfa;
use regex_syntax::{Config, Parsed};
use std::alloc::Global;

/// What compiling a pattern may spend.
const MOST_WORK: usize = 280 << 10;

/// The text of a pattern, and the NFA that searches for it. They take at most [`MOST_BYTES`](crate::MOST_BYTES), with the room for
/// the states of a search.
#[derive(Drop)]
pub struct Pattern {
    pub(crate) text: String,
    pub(crate) nfa: Nfa,
    pub(crate) ghost searches: { ∥ SearchesFor nfa (string_bytes text) ∥₁ },
    pub(crate) ghost small: { bytes_for nfa + length (string_bytes text) ≤ MOST_BYTES },
}

impl Pattern {
    /// Compiles a text, if it is a pattern within the limit [`MOST_BYTES`].
    pub(crate) fn new(alloc: Global, text: &str) -> Result<Pattern, ListenError>
        ensures text { IfOk result (λ pattern. string_bytes pattern.text ≡ text.now) }
        ensures read { OnOk result (IsPattern text.now) }
        ensures small { OnOk result (IsSmall text.now) }
        ensures refused { IfErr result (IsRefusedAs text.now) }
    {
        let nfa = nfa_of(alloc, text)?;
        if !is_small(&nfa, text) {
            return Err(ListenError::Large);
        }
        let text = String::from_str(alloc, text)?;
        Ok(Pattern { text, nfa })
    }
}

/// The NFA that searches for the pattern of a text.
fn nfa_of(alloc: Global, text: &str) -> Result<Nfa, Error>
    ensures searches { IfOk result (λ nfa. ∥ SearchesFor nfa text.now ∥₁) }
    ensures read { OnOk result (IsPattern text.now) }
    ensures refused { IfErr result (λ error. IsRefusedAs text.now (told_as error)) }
{
    let Parsed { hir, names } = regex_syntax::parse(alloc, text, &Config::default())?;
    let Ok(groups) = u32::try_from(names.len()) else {
        return Err(Error::CompiledTooBig);
    };
    let letters = cut(alloc, &hir)?;
    Ok(regex_compile::compile(alloc, &letters, groups, MOST_WORK)?)
}
