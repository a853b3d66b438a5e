//! What a seat of the table knows. Except for `Rules`, no value of these types is ever made: they are used only in
//! proofs.
use hub_letters::Letter;
use hub_record::{Event, Kind, Limits};
use std::collections::LinkedList;

/// The kind and the limits of a fifodir, which are fixed when its table is made.
#[derive(Clone, Copy)]
pub struct Rules {
    pub kind: Kind,
    pub limits: Limits,
}

/// What the locked value has beside the events: cursors by id, the numbers of the current publishers, and how many ids
/// and numbers were given.
pub struct Book {
    /// The number of the event that each current id takes next.
    pub cursors: LinkedList<(u64, u64)>,
    /// How many ids were given.
    pub ids: u64,
    /// The numbers of the current publishers.
    pub active: LinkedList<u64>,
    /// How many publishers' numbers were given.
    pub numbers: u64,
}

/// A ticket: what its takes returned, and whether it was cancelled.
pub struct Taking {
    pub id: u64,
    pub mark: u64,
    pub next: u64,
    /// What its takes returned, in order.
    pub got: LinkedList<Event>,
    /// Whether it was cancelled.
    pub gone: bool,
}

/// A publisher: the letters that it published, and whether it left.
pub struct Writing {
    pub number: u64,
    /// The letters that it published, in order.
    pub mine: LinkedList<Letter>,
    /// Whether it left.
    pub gone: bool,
}

/// What a seat is.
pub enum Role {
    /// It has entered, and isn't a pass yet.
    Visitor,
    /// It carries what another seat has seen.
    Note,
    /// It is a subscription's.
    Ticket(Taking),
    /// It is a publisher's.
    Publisher(Writing),
    /// It was a note, and another seat has joined it. It isn't used any more.
    Spent,
}

/// The record at one moment. `closed` is 0, or the number of the publisher that closed it.
pub struct Sight {
    pub seen: LinkedList<Event>,
    pub closed: u64,
}

/// What one seat knows.
pub struct View {
    pub rules: Rules,
    pub sight: Sight,
    pub role: Role,
    /// The state of the locked value, while the seat has it.
    pub held: Option<Book>,
    /// The sight of a note that the seat has joined.
    pub met: Option<Sight>,
}
