//! The verdict over several services.
ghost use Rattle.std.specs.Prelude.{◌≡◌, List, [], ◌∷◌, ◌++◌};
ghost use Rattle.hub_wait.specs.Verdicts.{Tallied, tally_of, verdict};
ghost use Rattle.hub_wait.specs.Watching.{Watching};

use crate::watch::Watch;
use hub_letters::Span;
use std::marker::Model;

/// How a wait ends.
#[derive(Clone, Copy, Debug, PartialEq, Eq)]
pub enum Verdict {
    /// What was wanted holds.
    Yes,
    /// What was wanted doesn't hold, and can't hold any more.
    Never,
    /// Neither was known when the wait ended.
    Late,
}

/// What the watches that were added so far show.
#[derive(Clone, Copy, Debug)]
pub struct Tally {
    span: Span,
    yes: bool,
    never: bool,
}

impl Model for Tally {
    ghost Value = { Tallied };

    ghost view = { λ t. record { span = t.span; yes = t.yes; never = t.never } };

    ghost inverse = { λ v. record { span = v.span; yes = v.yes; never = v.never } };
}

impl Tally {
    /// A tally of no watches.
    #[tactic(auto, unfolding(crate::specs::Verdicts::tally_of))]
    pub fn new(span: Span) -> Tally
        ensures { result ≡ tally_of span [] }
    {
        Tally {
            span,
            yes: span == Span::All,
            never: span == Span::Any,
        }
    }

    /// Adds a watch, as it is now.
    pub fn add(&mut self, watch: &Watch)
        ensures { (span : Span) (watches : List Watching) → self.old ≡ tally_of span watches
            → self.new ≡ tally_of span (watches ++ watch.now ∷ []) }
    {
        let met = watch.met();
        let lost = watch.is_lost();
        match self.span {
            Span::All => {
                self.yes &= met;
                self.never |= !met && lost;
            }
            Span::Any => {
                self.yes |= met;
                self.never &= lost;
            }
        }
    }

    /// The verdict over the watches that were added. None if a verdict may still come. Over no watches it is Yes for
    /// `All` and Never for `Any`.
    #[tactic(auto, unfolding(crate::specs::Verdicts::tally_of))]
    pub fn answer(&self) -> Option<Verdict>
        ensures { (span : Span) (watches : List Watching) → self.now ≡ tally_of span watches
            → result ≡ verdict span watches }
    {
        if self.yes {
            Some(Verdict::Yes)
        } else if self.never {
            Some(Verdict::Never)
        } else {
            None
        }
    }
}
