//! Programs over fifodirs: two threads publish at once, and events are sent on from one fifodir to another.
ghost use Rattle.std.specs.Prelude.{◌≡◌, ℕ, ◌++◌, [], ◌∷◌, OnOk, OnErr, IfOk, IfErr};
ghost use Rattle.hub_record.specs.Runs.{by};
ghost use Rattle.hub_fifodir.specs.Passes.{IsPublisherOf, IsTicketOf, HasTaken, IsRefusedAt, KnewOwnClose, Remains};
ghost use Rattle.hub_fifodir.specs.Passes.{publisher_number, publisher_view, ticket_view, got, seen_by, mine, sent_on};
ghost use Rattle.hub_fifodir.specs.Steps.{Grows};

use crate::fifodir::Fifodir;
use crate::publisher::Publisher;
use crate::ticket::Ticket;
use hub_letters::Letter;
use hub_record::{Event, PubError, Taken};
use std::sync::Wait;
use std::thread;
use std::thread::Threads;
use thiserror::Error;

type Sent = (Publisher, Result<u64, PubError>);

// Sends one publisher's message, as one thread of `send_both`.
fn send<R: Wait>(
    rt: &R,
    fifodir: &Fifodir,
    me: &mut Publisher,
    letters: &[Letter],
) -> Result<u64, PubError>
    requires { IsPublisherOf fifodir.now me.old × (mine me.old ≡ []) }
    ensures pass { IsPublisherOf fifodir.now me.new
        × (publisher_number me.new ≡ publisher_number me.old) }
    ensures mine { OnOk result (mine me.new ≡ letters.now) }
    ensures refused { OnErr result (mine me.new ≡ []) }
    ensures own { KnewOwnClose me.old me.new }
{
    fifodir.publish(rt, me, letters)
}

/// Sends two messages at once, each from a thread of its own, and brings the two publishers together. Both then know
/// the same list of events. In it each publisher's letters are exactly those of its message, if the message was
/// accepted.
pub fn send_both<R: Threads + Wait + Sync>(
    rt: &R,
    fifodir: &Fifodir,
    mut one: Publisher,
    mut other: Publisher,
    first: &[Letter],
    second: &[Letter],
) -> (Sent, Sent)
    requires one { IsPublisherOf fifodir.now one × (mine one ≡ []) }
    requires other { IsPublisherOf fifodir.now other × (mine other ≡ []) }
    ensures one { IsPublisherOf fifodir.now result.0.0
        × OnOk result.0.1 (by (publisher_number result.0.0) (seen_by result.0.0) ≡ first.now) }
    ensures other { IsPublisherOf fifodir.now result.1.0
        × OnOk result.1.1 (by (publisher_number result.1.0) (seen_by result.1.0) ≡ second.now) }
    ensures numbers { (publisher_number result.0.0 ≡ publisher_number one)
        × (publisher_number result.1.0 ≡ publisher_number other) }
    ensures refused { OnErr result.0.1 (mine result.0.0 ≡ [])
        × OnErr result.1.1 (mine result.1.0 ≡ []) }
    ensures own { KnewOwnClose one result.0.0 × KnewOwnClose other result.1.0 }
    ensures same { seen_by result.1.0 ≡ seen_by result.0.0 }
{
    let (one_sent, other_sent) = thread::join_mut(
        rt,
        &mut || -> Result<u64, PubError>
            requires { IsPublisherOf fifodir.now one × (mine one ≡ []) }
            ensures { IsPublisherOf fifodir.entry.now one.exit
                × (publisher_number one.exit ≡ publisher_number one.entry)
                × OnOk result (mine one.exit ≡ first.entry.now)
                × OnErr result (mine one.exit ≡ [])
                × KnewOwnClose one.entry one.exit }
        { send(rt, fifodir, &mut one, first) },
        &mut || -> Result<u64, PubError>
            requires { IsPublisherOf fifodir.now other × (mine other ≡ []) }
            ensures { IsPublisherOf fifodir.entry.now other.exit
                × (publisher_number other.exit ≡ publisher_number other.entry)
                × OnOk result (mine other.exit ≡ second.entry.now)
                × OnErr result (mine other.exit ≡ [])
                × KnewOwnClose other.entry other.exit }
        { send(rt, fifodir, &mut other, second) },
    );
    fifodir.meet(rt, &mut one, &mut other);
    ((one, one_sent), (other, other_sent))
}

/// An event that was taken and couldn't be sent on.
#[derive(Clone, Copy, Debug, PartialEq, Eq, Error)]
#[error("the event could not be sent on: {why}")]
pub struct Unsent {
    /// The event. The ticket doesn't take it again, so a caller that wants to send it later has to keep it.
    pub event: Event,
    /// Why the other fifodir refused its letter.
    pub why: PubError,
}

/// Takes one event from a fifodir, and sends its letter on to another. If the other refuses the letter, the error has
/// the event.
pub fn send_on<R: Wait>(
    rt: &R,
    from: &Fifodir,
    ticket: &mut Ticket,
    to: &Fifodir,
    publisher: &mut Publisher,
) -> Result<Taken, Unsent>
    requires from { IsTicketOf from.now ticket.old }
    requires to { IsPublisherOf to.now publisher.old }
    ensures from { Remains from.now (ticket_view ticket.old) (ticket_view ticket.new) }
    ensures to { IsPublisherOf to.now publisher.new
        × (publisher_number publisher.new ≡ publisher_number publisher.old)
        × Grows (publisher_view publisher.old).sight (publisher_view publisher.new).sight }
    ensures took { IfOk result (λ taken. HasTaken ticket.old 1 taken ticket.new) }
    ensures refused { IfErr result (λ unsent. HasTaken ticket.old 1 (Taken.Got 1) ticket.new
        × (got ticket.new ≡ got ticket.old ++ unsent.event ∷ [])
        × IsRefusedAt publisher.new (unsent.event.letter ∷ []) unsent.why) }
    ensures own { KnewOwnClose publisher.old publisher.new }
    ensures unsent { OnErr result (mine publisher.new ≡ mine publisher.old) }
    ensures sent { IfOk result (λ taken. mine publisher.new
        ≡ mine publisher.old ++ sent_on ticket.old taken ticket.new) }
{
    let mut out = [Event::FILLER];
    let taken = from.take_into(rt, ticket, &mut out);
    let [event] = out;
    if let Taken::Got(_) = taken {
        if let Err(why) = to.publish(rt, publisher, &[event.letter]) {
            return Err(Unsent { event, why });
        }
    }
    Ok(taken)
}
