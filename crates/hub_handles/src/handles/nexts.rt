//! The request that takes or polls as soon as something comes.

use crate::handles::Handles;
use hub_fifodir::Pause;
use hub_requests::{Refusal, Reply};
use std::sync::Wait;

impl Handles {
    ghost use Rattle.hub_handles.specs.Nexts.{NextsAt, TellsAt};

    /// Takes what waits for a subscription, or polls a listener as long as the answer is `none`. If nothing comes, it gives up
    /// after so many turns in all, or if the pause has expired.
    pub fn next<H: Wait, P: Pause>(&mut self, rt: &H, id: u64, turns: u64, pause: &mut P) -> Reply
        ensures { NextsAt self.old id result self.new }
    {
        self.tell_next(rt, id, turns, pause).or_late()
    }

    /// The same, with `none` if nothing has come.
    fn tell_next<H: Wait, P: Pause>(&mut self, rt: &H, id: u64, turns: u64, pause: &mut P) -> Reply
        ensures { TellsAt self.old id result self.new }
    {
        if let Some(subscription) = self.subscriptions.get_mut(&id) {
            return subscription.next(rt, self.alloc, turns, pause, &mut self.room);
        }
        let Some(hearing) = self.listeners.get_mut(&id) else {
            return Reply::No(Refusal::Id);
        };
        let reply = hearing.next(rt, self.alloc, turns, pause);
        if hearing.ends_with(&reply) {
            self.end_listener(rt, id);
        }
        reply
    }
}
