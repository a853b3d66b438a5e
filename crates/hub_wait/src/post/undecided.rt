//! The looks of a wait at its posts, and the pause between two of them.
ghost use Rattle.std.specs.Prelude.{◌≡◌, Some, None, IfOk, OnErr};
ghost use Rattle.hub_wait.specs.Verdicts.{verdict};
ghost use Rattle.hub_wait.specs.Waits.{watches_of};

use super::Post;
use crate::{Go, Pause, Span, Tally, Verdict};
use std::sync::Wait;

/// A look that found no verdict. Only this leads to a pause, so a wait has looked before it sleeps.
#[derive(Drop)]
pub(crate) struct Undecided<'a> {
    first: Option<&'a Post>,
}

impl Undecided<'_> {
    /// Pauses until the bell rings, with so many turns left. The first post looked before the others, so each change that
    /// they missed rings the bell after its look. The bell is that of its fifodir, which the others are expected to share.
    pub(crate) fn pause<R: Wait, P: Pause>(self, rt: &R, left: u64, pause: &mut P) -> Go {
        match self.first {
            Some(post) => pause.pause_at(rt, post.fifodir.bell(), post.looked, left),
            None => pause.pause(rt),
        }
    }
}

/// The verdict of the posts as they are now.
pub(crate) fn look(span: Span, posts: &[Post]) -> Result<Verdict, Undecided<'_>>
    ensures ok { IfOk result (λ v. verdict span (watches_of posts.now) ≡ Some v) }
    ensures err { OnErr result (verdict span (watches_of posts.now) ≡ None) }
{
    let mut tally = Tally::new(span);
    for post in posts {
        tally.add(post.watch());
    }
    tally.answer().ok_or(Undecided {
        first: posts.first(),
    })
}
