//! Listeners.
ghost use Rattle.std.specs.Prelude.{◌≡◌, ◌+◌, ◌≤◌, [], length, string_bytes, vec_capacity, IfOk, IfErr, OnOk};
ghost use Rattle.std.specs.String.{string_capacity};
ghost use Rattle.hub_listen.specs.Hit.{IsPattern};
ghost use Rattle.hub_listen.specs.Inside.{listening_of, IsKept};
ghost use Rattle.hub_listen.specs.Listening.{Listening, Feeds, new_listening, is_spent};
ghost use Rattle.hub_listen.specs.Alive.{SearchesFor};
ghost use Rattle.hub_listen.specs.Refused.{IsRefusedAs};
ghost use Rattle.hub_listen.specs.Size.{bytes_for, IsSmall};
ghost use Rattle.hub_listen.specs.declared.size.TheConstants.{MOST_BYTES};
ghost use Rattle.hub_listen.specs.declared.listener.ListenError.TheVariants.{Memory};

use crate::alive::Alive;
use crate::feed::{Feed, FeedError};
use crate::pattern::Pattern;
use crate::search::first_hit;
use hub_letters::{Letter, MOST_GATHERED, Mode};
use std::alloc::{AllocError, Global};
use std::marker::Model;
use std::mem;
use thiserror::Error;

/// Why there is no listener.
#[derive(Clone, Copy, Debug, PartialEq, Eq, Error)]
pub enum ListenError {
    /// The text isn't a pattern, or its parts nest too deep.
    #[error("no pattern can be read")]
    Pattern,
    /// It is a pattern, and it is too large ([`MOST_BYTES`](crate::MOST_BYTES)).
    #[error("the pattern is too large")]
    Large,
    #[error("out of memory")]
    /// There was no memory for the pattern or the listener's room.
    Memory,
}

impl From<AllocError> for ListenError {
    ghost from_gives = { λ _ error. error ≡ Memory };

    fn from(_: AllocError) -> ListenError {
        ListenError::Memory
    }
}

impl From<regex::Error> for ListenError {
    ghost use Rattle.hub_listen.specs.Refused.{told_as};

    ghost from_gives = { λ refused error. error ≡ told_as refused };

    fn from(refused: regex::Error) -> ListenError {
        match refused {
            regex::Error::Syntax(_) => ListenError::Pattern,
            regex::Error::CompiledTooBig | regex::Error::Internal => ListenError::Large,
            regex::Error::OutOfMemory => ListenError::Memory,
        }
    }
}

/// A pattern, and the letters that were heard since its last hit.
#[derive(Drop)]
pub struct Listener {
    pattern: Pattern,
    mode: Mode,
    /// The bytes of `letters`, for the search.
    text: String,
    /// The states of the searches of `text`.
    alive: Alive,
    /// The letters since the last hit.
    letters: Vec<Letter>,
    /// The letters of the last hit.
    hit: Vec<Letter>,
}

impl Model for Listener {
    ghost Value = { Listening };

    ghost view = { listening_of };

    ghost invariant = { IsKept };
}

/// Room for the text, for the letters since the last hit and for those of the last hit.
fn new_rooms(alloc: Global) -> Result<(String, Vec<Letter>, Vec<Letter>), AllocError>
    ensures text { IfOk result (λ rooms. (string_bytes rooms.0 ≡ [])
        × (MOST_GATHERED ≤ string_capacity rooms.0)) }
    ensures letters { IfOk result (λ rooms. (rooms.1.items ≡ [])
        × (MOST_GATHERED ≤ vec_capacity rooms.1)) }
    ensures hit { IfOk result (λ rooms. (rooms.2.items ≡ [])
        × (MOST_GATHERED ≤ vec_capacity rooms.2)) }
{
    let text = String::with_capacity(alloc, MOST_GATHERED)?;
    let letters = Vec::with_capacity(alloc, MOST_GATHERED)?;
    let hit = Vec::with_capacity(alloc, MOST_GATHERED)?;
    Ok((text, letters, hit))
}

impl Listener {
    /// A listener that has heard nothing. All of its room is made here.
    pub fn new(alloc: Global, pattern: &str, mode: Mode) -> Result<Listener, ListenError>
        ensures ok { IfOk result (λ listener. listener ≡ new_listening pattern.now mode) }
        ensures read { OnOk result (IsPattern pattern.now) }
        ensures small { OnOk result (IsSmall pattern.now) }
        ensures refused { IfErr result (IsRefusedAs pattern.now) }
    {
        let pattern = Pattern::new(alloc, pattern)?;
        let alive = Alive::new(alloc, &pattern.nfa)?;
        let (text, letters, hit) = new_rooms(alloc)?;
        Ok(Listener {
            pattern,
            mode,
            text,
            alive,
            letters,
            hit,
        })
    }

    /// The compiled pattern by which it searches.
    pub fn pattern(&self) -> &Pattern
        ensures text { string_bytes result.now.text ≡ self.now.pattern }
        ensures searches { ∥ SearchesFor result.now.nfa self.now.pattern ∥₁ }
        ensures small { bytes_for result.now.nfa + length self.now.pattern ≤ MOST_BYTES }
    {
        &self.pattern
    }

    /// The letters gathered since the last hit.
    pub fn text(&self) -> &[Letter]
        ensures value { result.now ≡ self.now.gathered }
        ensures short { length self.now.gathered ≤ MOST_GATHERED }
    {
        self.letters.as_slice()
    }

    /// The letters of the last hit; none before the first hit.
    pub fn hit(&self) -> &[Letter]
        ensures value { result.now ≡ self.now.hit }
        ensures short { length self.now.hit ≤ MOST_GATHERED }
    {
        self.hit.as_slice()
    }

    /// Whether the listener has had the one hit of mode `Once`.
    pub fn is_spent(&self) -> bool
        ensures { result ≡ is_spent self.now }
    {
        match self.mode {
            Mode::Once => !self.hit.is_empty(),
            Mode::Repeat => false,
        }
    }

    /// Hears a piece of letters, up to the first hit in it.
    pub fn feed(&mut self, piece: &[Letter]) -> Result<Feed, FeedError>
        ensures { Feeds self.old piece.now result self.new }
    {
        if self.is_spent() {
            return Ok(Feed::Spent);
        }
        let before = self.letters.len();
        self.alive
            .keep_if(piece.len() > MOST_GATHERED - before, &self.pattern.nfa);
        match first_hit(&self.pattern, &mut self.alive, &mut self.text, piece) {
            Some(count) => {
                self.letters.extend_from_slice(&piece[..count]).unwrap();
                mem::swap(&mut self.letters, &mut self.hit);
                self.letters.clear();
                self.text.clear();
                self.alive.restart(&self.pattern.nfa);
                Ok(Feed::Hit(count))
            }
            None => {
                if piece.len() > MOST_GATHERED - before {
                    self.text.truncate(before);
                    self.alive.go_back(&self.pattern.nfa);
                    return Err(FeedError::Overlong);
                }
                self.letters.extend_from_slice(piece).unwrap();
                Ok(Feed::Quiet)
            }
        }
    }
}
