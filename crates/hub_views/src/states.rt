//! The word for the state of a service.
ghost use Rattle.std.specs.Prelude.{◌≡◌, ℕ, List, true};
ghost use Rattle.hub_letters.specs.Flags.{flags_of};
ghost use Rattle.hub_letters.specs.Stages.{stage_of};
ghost use Rattle.hub_letters.specs.States.{is_at_end};
ghost use Rattle.hub_letters.specs.declared.state.State.{State as state};
ghost use Rattle.hub_protocol.specs.Spelling.{text_of_state};
ghost use Rattle.hub_views.specs.ServiceStates.{stage_word, state_word};

use hub_letters::Flags;

/// The word for the state of a service with these flags.
pub(crate) fn state_word(flags: Flags) -> &'static str
    ensures { result.now ≡ state_word flags }
{
    match (flags.supervised, flags.up, flags.settled, flags.failed) {
        (false, false, _, _) => "off",
        (false, true, _, _) => "orphaned",
        (true, true, false, _) => "up",
        (true, true, true, _) => "ready",
        (true, false, false, _) => "stopping",
        (true, false, true, false) => "down",
        (true, false, true, true) => "failed",
    }
}

/// A law: behind each word of a service's letters, the state is the one of the service's stage. If it is one that `tell` knows, the
/// service is at that state.
pub fn state_words_are_true()
    ensures stage { (word : List ℕ) → state_word (flags_of word)
        ≡ stage_word (stage_of word) (flags_of word) }
    ensures told { (it : state) (word : List ℕ) → state_word (flags_of word) ≡ text_of_state it
        → is_at_end it word ≡ true }
{}
