//! Waits over several services.
ghost use Rattle.std.specs.Prelude.{◌≡◌};
ghost use Rattle.std.specs.Fn.{FnOnceReturnsAt};
ghost use Rattle.hub_wait.specs.Waits.{AreCaughtUp, AreKept, HaveCaughtUp, IsAnswer, watches_of};

use crate::post::look;
use crate::{Go, Pause, Post, SLICE, Span, Verdict};
use hub_record::Event;
use std::sync::Wait;

/// Waits for the services of the posts, as `s6-svwait` does. In each turn it pauses, and then each post takes what has
/// come meanwhile. It looks before the first turn and after each turn. It answers `Late` if the turns are over or the
/// pause has expired without a verdict. The posts stay subscribed.
pub fn svwait<R: Wait, P: Pause>(
    rt: &R,
    posts: &mut [Post],
    span: Span,
    turns: u64,
    pause: &mut P,
) -> Verdict
    ensures answer { IsAnswer span (watches_of posts.new) result }
    ensures kept { AreKept posts.old posts.new }
    ensures caught_up { AreCaughtUp posts.old posts.new }
    ensures still { turns ≡ 0 → posts.new ≡ posts.old }
{
    let mut room = [Event::FILLER; SLICE];
    for turn in 0..turns {
        match look(span, posts) {
            Ok(verdict) => return verdict,
            Err(undecided) => {
                if undecided.pause(rt, turns - turn, pause) == Go::Expired {
                    return Verdict::Late;
                }
            }
        }
        catch_up_all(rt, posts, &mut room);
    }
    look(span, posts).unwrap_or(Verdict::Late)
}

/// Runs `act`, and then waits for its effects, as `s6-svlisten` does. The posts are subscribed before `act` runs, so
/// the wait misses no change that it makes.
pub fn svlisten<R: Wait, P: Pause, T, F: FnOnce(&[Post]) -> T>(
    rt: &R,
    posts: &mut [Post],
    span: Span,
    turns: u64,
    pause: &mut P,
    act: F,
) -> (T, Verdict)
    requires { F.IsAlwaysCallable act }
    ensures acted { FnOnceReturnsAt F.FnOnce act posts.old result.0 }
    ensures answer { IsAnswer span (watches_of posts.new) result.1 }
    ensures kept { AreKept posts.old posts.new }
    ensures caught_up { AreCaughtUp posts.old posts.new }
    ensures still { turns ≡ 0 → posts.new ≡ posts.old }
{
    let acted = act(posts);
    let verdict = svwait(rt, posts, span, turns, pause);
    (acted, verdict)
}

fn catch_up_all<R: Wait>(rt: &R, posts: &mut [Post], room: &mut [Event; SLICE])
    ensures kept { AreKept posts.old posts.new }
    ensures caught_up { HaveCaughtUp posts.old posts.new }
{
    for i in 0..posts.len() {
        posts[i].catch_up(rt, room);
    }
}
