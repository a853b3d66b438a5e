//! Polls of a listener, as long as they answer `none` and there are turns left.
ghost use Rattle.std.specs.Prelude.{◌≤◌, length, MatchBool};
ghost use Rattle.hub_letters.specs.declared.mode.TheConstants.{MOST_GATHERED};

use crate::session_listener::SessionListener;
use hub_fifodir::Pause;
use hub_letters::MOST_GATHERED;
use hub_requests::{Refusal, Reply};
use std::alloc::Global;
use std::sync::Wait;

impl SessionListener {
    ghost use Rattle.hub_handles.specs.Hearings.{HasRoom};
    ghost use Rattle.hub_handles.specs.Nexts.{PollsOn};

    /// Polls, and again whenever more has come, until a poll answers something else than `none`. It gives up after so many turns
    /// in all, or if the pause has expired: only then it answers `none`.
    pub fn next<H: Wait, P: Pause>(
        &mut self,
        rt: &H,
        alloc: Global,
        turns: u64,
        pause: &mut P,
    ) -> Reply
        ensures { PollsOn self.old result self.new }
    {
        let mut left = turns;
        let mut reply = self.poll_whole(rt, alloc);
        // Each further poll hears a letter at least, and no more are heard than may be gathered.
        'polls: for _ in 0..MOST_GATHERED {
            let Reply::Nothing = reply else {
                return reply;
            };
            if !self.subscription.await_within(rt, &mut left, pause) {
                return Reply::Nothing;
            }
            reply = self.poll_whole(rt, alloc);
        }
        reply
    }

    /// Polls. After a poll that gathered as much as may be, a further one says so.
    fn poll_whole<H: Wait>(&mut self, rt: &H, alloc: Global) -> Reply
        ensures { PollsOn self.old result self.new }
    {
        self.gathers_few();
        match self.poll(rt, alloc) {
            Reply::Nothing => {
                if self.is_full() {
                    Reply::No(Refusal::Overlong)
                } else {
                    Reply::Nothing
                }
            }
            reply => reply,
        }
    }

    /// Whether it may gather no further letter.
    fn is_full(&self) -> bool
        ensures { MatchBool result (MOST_GATHERED ≤ length self.now.listener.gathered) (HasRoom self.now) }
    {
        self.listener.text().len() >= MOST_GATHERED
    }

    /// A law: it has gathered no more than it may.
    fn gathers_few(&self)
        ensures { length self.now.listener.gathered ≤ MOST_GATHERED }
    {
        self.listener.text();
    }
}
