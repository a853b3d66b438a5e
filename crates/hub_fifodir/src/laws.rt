//! Laws: facts without code, which hold for every table under the rule and for every pass.
ghost use Rattle.std.specs.Prelude.{◌≡◌, ◌≤◌, ◌++◌, drop, length};
ghost use Rattle.hub_record.specs.Runs.{by};
ghost use Rattle.hub_fifodir.specs.Laws.{TicketsDiffer, PublishersDiffer, SeatsAgree, RecordIsHistory};
ghost use Rattle.hub_fifodir.specs.Laws.{TicketsHaveCursors, CursorsHaveTickets, ActiveHavePublishers, BaseIsBehind, HoldKeepsAll, HoldKeepsAllAlways};
ghost use Rattle.hub_fifodir.specs.Passes.{publisher_number, seen_by, mine};
ghost use Rattle.hub_fifodir.specs.Passes.{ticket_mark, ticket_next, ticket_seen, ticket_rules, got};

use crate::publisher::Publisher;
use crate::ticket::Ticket;

/// Two tickets have different ids.
pub fn tickets_differ()
    ensures { TicketsDiffer }
{}

/// Two publishers have different numbers.
pub fn publishers_differ()
    ensures { PublishersDiffer }
{}

/// There is one history: of what two seats have seen, one is a prefix of the other.
pub fn seats_agree()
    ensures { SeatsAgree }
{}

/// While the lock is free, the record behind it represents that history, and the front word shows its status.
pub fn record_is_history()
    ensures { RecordIsHistory }
{}

/// While the lock is free, the value behind it has the cursor of each current ticket.
pub fn tickets_have_cursors()
    ensures { TicketsHaveCursors }
{}

/// It has no other cursor: only tickets hold the base back.
pub fn cursors_have_tickets()
    ensures { CursorsHaveTickets }
{}

/// Each current number has its current publisher.
pub fn active_have_publishers()
    ensures { ActiveHavePublishers }
{}

/// The record keeps what a ticket hasn't taken: the base never passes the next event of a current ticket that isn't
/// evicted.
pub fn base_is_behind()
    ensures { BaseIsBehind }
{}

/// With the policy Hold no ticket is evicted: no more events are pending for a current one than may be.
pub fn hold_keeps_all()
    ensures { HoldKeepsAll }
{}

/// What a ticket took, followed by what is pending behind its cursor, is the record since it subscribed, each event
/// once and in order.
pub fn takes_each_once(_ticket: &Ticket)
    ensures { got _ticket.now ++ drop (ticket_next _ticket.now) (ticket_seen _ticket.now)
        ≡ drop (ticket_mark _ticket.now) (ticket_seen _ticket.now) }
{}

/// The record has exactly those events of a publisher that it published, in their order.
pub fn publishes_each_once(_publisher: &Publisher)
    ensures { by (publisher_number _publisher.now) (seen_by _publisher.now) ≡ mine _publisher.now }
{}

/// A record never has more events than the total of its limits.
pub fn keeps_the_total(_ticket: &Ticket)
    ensures { length (ticket_seen _ticket.now) ≤ (ticket_rules _ticket.now).limits.total }
{}

/// With the policy Hold no more events are pending for a current ticket than may be, also between the steps of a call that has the
/// lock.
pub fn hold_keeps_all_always()
    ensures { HoldKeepsAllAlways }
{}
