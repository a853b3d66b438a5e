//! Waits for the next change of a fifodir, by a ticket.
ghost use Rattle.std.specs.Prelude.{◌≤◌, MatchBool};
ghost use Rattle.hub_fifodir.specs.Passes.{IsTicketOf, IsStatusOf, OnlyLooks, Remains, HasMore, IsQuiet, ticket_sight, ticket_view};

use crate::fifodir::Fifodir;
use crate::pause::{Go, Pause};
use crate::ticket::Ticket;
use hub_record::Status;
use std::sync::Wait;

impl Fifodir {
    /// Looks at the front word, and tells whether a take has something to report: an event is pending, the ticket is
    /// evicted, or the fifodir is closed.
    pub fn has_more(&self, me: &mut Ticket) -> bool
        requires { IsTicketOf self.now me.old }
        ensures remains { Remains self.now (ticket_view me.old) (ticket_view me.new) }
        ensures looks { OnlyLooks (ticket_view me.old) (ticket_view me.new) }
        ensures more { MatchBool result (HasMore me.new) (IsQuiet me.new) }
    {
        is_news(self.status(me), me)
    }

    /// Waits until a take has something to report. It gives up after so many turns, or if the pause has expired. Each look is
    /// one load of the front word, the last one too, whose result it returns.
    pub fn await_more<R: Wait, P: Pause>(
        &self,
        rt: &R,
        me: &mut Ticket,
        turns: u64,
        pause: &mut P,
    ) -> bool
        requires { IsTicketOf self.now me.old }
        ensures remains { Remains self.now (ticket_view me.old) (ticket_view me.new) }
        ensures looks { OnlyLooks (ticket_view me.old) (ticket_view me.new) }
        ensures more { MatchBool result (HasMore me.new) (IsQuiet me.new) }
    {
        let mut left = turns;
        self.await_within(rt, me, &mut left, pause)
    }

    /// The same for a wait of several awaits, which has so many turns left in all. It leaves those that it didn't use, and none if
    /// the pause has expired.
    pub fn await_within<R: Wait, P: Pause>(
        &self,
        rt: &R,
        me: &mut Ticket,
        left: &mut u64,
        pause: &mut P,
    ) -> bool
        requires { IsTicketOf self.now me.old }
        ensures remains { Remains self.now (ticket_view me.old) (ticket_view me.new) }
        ensures looks { OnlyLooks (ticket_view me.old) (ticket_view me.new) }
        ensures more { MatchBool result (HasMore me.new) (IsQuiet me.new) }
        ensures bounded { left.new ≤ left.old }
    {
        let waiter = self.admit();
        'turns: while *left > 0 {
            let (status, looked) = self.look(me, self.hear(&waiter));
            if is_news(status, me) {
                break;
            }
            match pause.pause_at(rt, self.bell(), looked, *left) {
                Go::Again => *left -= 1,
                Go::Expired => *left = 0,
            }
        }
        self.dismiss(waiter);
        self.has_more(me)
    }
}

// Whether this status, which the ticket has just seen, has something for it.
fn is_news(status: Status, me: &Ticket) -> bool
    requires { IsStatusOf status (ticket_sight me.now) }
    ensures { MatchBool result (HasMore me.now) (IsQuiet me.now) }
{
    status.closed || status.number != me.next()
}
