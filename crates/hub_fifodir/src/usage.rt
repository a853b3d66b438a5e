//! How much there is at a fifodir.

use crate::fifodir::Fifodir;
use crate::steps;
use hub_record::Enter;
use std::sync::Wait;

/// How much there is at a fifodir at one moment.
#[derive(Clone, Copy, Debug, PartialEq, Eq)]
pub struct Usage {
    /// How many subscriptions are neither cancelled nor evicted.
    pub subscriptions: u64,
    /// How many publishers there are.
    pub publishers: u64,
    /// How many events are pending for the slowest of these subscriptions.
    pub pending: u64,
    /// How many subscriptions are evicted and not cancelled.
    pub evicted: u64,
}

impl Fifodir {
    ghost use Rattle.hub_fifodir.specs.Passes.{IsUsage};

    /// How much there is, by one look under the lock. It takes no pass and makes none, so who asks isn't counted.
    pub fn usage<R: Wait + Enter>(&self, rt: &R) -> Usage
        ensures { IsUsage self.now result }
    {
        let board = self.board();
        let mut seat = steps::enter(rt, board);
        let held = self.lock(rt, &mut seat);
        let usage = held.locked.usage();
        steps::rest_refused(board, seat, held);
        usage
    }
}
