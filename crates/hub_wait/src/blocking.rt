//! A receive that waits until something comes.
ghost use Rattle.std.specs.Prelude.{◌≡◌, length};
ghost use Rattle.hub_fifodir.specs.Passes.{HasTaken, IsTicketOf, Remains, slice_after_take, ticket_mark, ticket_view};

use crate::Pause;
use hub_fifodir::{Fifodir, Ticket};
use hub_record::{Event, Taken};
use std::sync::Wait;

/// Takes what waits behind the ticket's cursor, as far as the slice goes. If nothing waits, it first pauses, until an event
/// comes, the fifodir is closed or the ticket is evicted. It gives up after so many turns, or if the pause has expired: only
/// then it returns `Nothing`.
///
/// Each look is one load of the front word. It takes the lock once, at the end.
pub fn receive<R: Wait, P: Pause>(
    rt: &R,
    fifodir: &Fifodir,
    ticket: &mut Ticket,
    out: &mut [Event],
    turns: u64,
    pause: &mut P,
) -> Taken
    requires { IsTicketOf fifodir.now ticket.old }
    ensures remains { Remains fifodir.now (ticket_view ticket.old) (ticket_view ticket.new) }
    ensures mark { ticket_mark ticket.new ≡ ticket_mark ticket.old }
    ensures took { HasTaken ticket.old (length out.old) result ticket.new }
    ensures filled { out.new ≡ slice_after_take ticket.old result ticket.new out.old }
{
    fifodir.await_more(rt, ticket, turns, pause);
    fifodir.take_into(rt, ticket, out)
}
