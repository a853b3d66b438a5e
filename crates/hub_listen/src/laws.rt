//! Laws of listening: each is the contract of a function that does nothing.
ghost use Rattle.hub_listen.specs.Pieces.{CutsAnywhere, AnswersEach, AnswersOnce, SinglyIsAtOnce, PrefixesShowHits, FullPrefixesShowNone, LengthIsHit, NoLengthIsNoHit};

/// If a piece was quiet, the next is heard as if both had been one.
#[tactic(auto, using(crate::proofs::Cuts::cuts_anywhere))]
pub fn cuts_anywhere()
    ensures { CutsAnywhere }
{}

/// The listener and the piece determine the answer, and what the listener is afterwards.
#[tactic(auto, using(crate::proofs::Lengths::answers, crate::proofs::Cuts::answers_once))]
pub fn answers_once()
    ensures some { AnswersEach }
    ensures one { AnswersOnce }
{}

/// Letters that are fed one at a time are heard as one piece.
#[tactic(auto, using(crate::proofs::Singly::singly_is_at_once))]
pub fn singly_is_at_once()
    ensures { SinglyIsAtOnce }
{}

/// What a prefix of the letters shows of the whole: its hit is the whole's hit, and a prefix without a hit that leaves
/// no room shows that the whole has none.
pub fn prefixes_show_the_whole()
    ensures hit { PrefixesShowHits }
    ensures none { FullPrefixesShowNone }
{}

/// The length of a hit as a function, for callers that compute answers.
pub fn length_is_the_hit()
    ensures hit { LengthIsHit }
    ensures none { NoLengthIsNoHit }
{}
