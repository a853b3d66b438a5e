//! Tickets, and the calls of a fifodir that take one.
ghost use Rattle.std.specs.Prelude.{◌≡◌, length, IfOk, IfErr};
ghost use Rattle.hub_fifodir.specs.Steps.{IsTaker};

use crate::fifodir::Fifodir;
use crate::steps::{self, Seat};
use hub_record::{Enter, Event, SubError, Taken};
use std::sync::Wait;

/// The pass of a subscription. A ticket that was dropped would keep its cursor, and with the policy Hold the events that
/// are pending behind it would fill the fifodir. So a ticket is neither `Copy` nor `Drop`, and only `Fifodir::cancel` takes it.
pub struct Ticket {
    id: u64,
    /// The number of events when it subscribed.
    mark: u64,
    /// The number of the next event that it takes.
    next: u64,
    pub(crate) seat: Seat,
    pub ghost is_taker: { IsTaker seat.at.me id mark next },
}

impl Ticket {
    ghost use Rattle.hub_fifodir.specs.Passes.{ticket_id, ticket_mark, ticket_next};

    /// The number of the subscription; the first is 1.
    pub fn id(&self) -> u64
        ensures { result ≡ ticket_id self.now }
    {
        self.id
    }

    /// The number of events when it subscribed.
    pub fn mark(&self) -> u64
        ensures { result ≡ ticket_mark self.now }
    {
        self.mark
    }

    /// The number of the next event that it takes.
    pub fn next(&self) -> u64
        ensures { result ≡ ticket_next self.now }
    {
        self.next
    }
}

impl Fifodir {
    ghost use Rattle.hub_fifodir.specs.Passes.{IsTicketOf, Remains, HasSoundSight, HasSubscribed, MayRefuseTicket, HasTaken};
    ghost use Rattle.hub_fifodir.specs.Passes.{ticket_mark, ticket_view, slice_after_take};

    /// A new ticket, which begins at the end of the record.
    pub fn subscribe<R: Wait + Enter>(&self, rt: &R) -> Result<Ticket, SubError>
        ensures ok { IfOk result (λ t. IsTicketOf self.now t × HasSoundSight (ticket_view t)
            × HasSubscribed t) }
        ensures refused { IfErr result (MayRefuseTicket self.now) }
    {
        let board = self.board();
        let mut seat = steps::enter(rt, board);
        let mut held = self.lock(rt, &mut seat);
        match held.locked.subscribe() {
            Ok((id, mark)) => {
                steps::rest_as_ticket(board, &mut seat, held);
                Ok(Ticket {
                    id,
                    mark,
                    next: mark,
                    seat,
                })
            }
            Err(refusal) => {
                steps::rest_refused(board, seat, held);
                Err(refusal)
            }
        }
    }

    /// Takes what waits behind the ticket's cursor, as far as the slice goes.
    pub fn take_into<R: Wait>(&self, rt: &R, me: &mut Ticket, out: &mut [Event]) -> Taken
        requires { IsTicketOf self.now me.old }
        ensures remains { Remains self.now (ticket_view me.old) (ticket_view me.new) }
        ensures mark { ticket_mark me.new ≡ ticket_mark me.old }
        ensures took { HasTaken me.old (length out.old) result me.new }
        ensures filled { out.new ≡ slice_after_take me.old result me.new out.old }
    {
        let board = self.board();
        let mut held = self.lock(rt, &mut me.seat);
        let taken = held.locked.take_into(me.id, out).unwrap();
        match taken {
            Taken::Got(count) => {
                steps::rest_moved(board, &mut me.seat, held, count as u64);
                me.next += count as u64;
                Taken::Got(count)
            }
            Taken::Nothing => {
                steps::rest(board, &mut me.seat, held);
                Taken::Nothing
            }
            Taken::End => {
                steps::rest(board, &mut me.seat, held);
                Taken::End
            }
            Taken::Evicted => {
                steps::rest(board, &mut me.seat, held);
                Taken::Evicted
            }
        }
    }

    /// Ends a subscription.
    pub fn cancel<R: Wait>(&self, rt: &R, me: Ticket)
        requires { IsTicketOf self.now me }
    {
        let Ticket {
            id,
            mark: _,
            next: _,
            mut seat,
        } = me;
        let board = self.board();
        let mut held = self.lock(rt, &mut seat);
        held.locked.cancel(id).unwrap();
        steps::rest_gone(board, seat, held);
    }
}
