//! The names that one reply lists.
ghost use Rattle.std.specs.Prelude.{◌≡◌, ◌≢◌, ◌≤◌, List, ℕ, drop, length, take, vec_capacity, vec_len, IfOk, OnErr, []};
ghost use Rattle.hub_requests.specs.Listings.{FittingIsLongest, OneIsLongest, RepliesShowAll, fitting, greatest_fit, names_reply};
ghost use Rattle.hub_requests.specs.Names.{names_text};
ghost use Rattle.hub_requests.specs.declared.bounds.TheConstants.{ROOM_FOR_NAMES};

use crate::bounds::ROOM_FOR_NAMES;
use crate::name::Name;
use crate::reply::Reply;
use std::alloc::{AllocError, Global};
use std::marker::Model;

/// Names of fifodirs, in the order in which they were made: as many as fit in one reply, at most. In contracts it is the
/// list of their texts.
#[derive(Debug, Drop)]
pub struct Listing {
    names: Vec<Name>,
}

impl Model for Listing {
    ghost use Rattle.std.specs.Prelude.{◌≤◌, List, ℕ, length};
    ghost use Rattle.hub_requests.specs.Names.{names_text};
    ghost use Rattle.hub_requests.specs.declared.bounds.TheConstants.{ROOM_FOR_NAMES};

    ghost Value = { List (List ℕ) };

    ghost view = { λ l. l.names.items };

    ghost invariant = { λ l. length (names_text l.names.items) ≤ ROOM_FOR_NAMES };
}

impl Listing {
    /// The names, borrowed.
    pub fn items(&self) -> &[Name]
        ensures shown { result.now ≡ self.now }
        ensures short { length (names_text self.now) ≤ ROOM_FOR_NAMES }
    {
        &self.names
    }

    /// Laws of the names that fit in a reply: they are the longest beginning that fits, and no other list is. Replies that
    /// are asked for one after another, each from where the one before it ended, show every name once and in order.
    pub fn replies_lose_no_name()
        ensures longest { FittingIsLongest }
        ensures only { OneIsLongest }
        ensures whole { RepliesShowAll }
    {}
}

/// The reply that lists the names from place `from` on, as many as fit. An error says that memory ran out, and comes only
/// if there is a name to list.
pub fn names_reply(alloc: Global, names: &[Name], from: u64) -> Result<Reply, AllocError>
    ensures ok { IfOk result (λ reply. reply ≡ names_reply names.now from) }
    ensures err { OnErr result (fitting (drop from names.now) ≢ []) }
{
    let first = from.min(names.len() as u64) as usize;
    let names = &names[first..];
    let count = count_fitting(names);
    if count == 0 {
        return Ok(Reply::Nothing);
    }
    let names = copies(alloc, &names[..count])?;
    Ok(Reply::Listed(Listing { names }))
}

/// How many of the first names fit in one reply.
fn count_fitting(names: &[Name]) -> usize
    ensures count { result ≡ greatest_fit names.now (length names.now) }
    ensures few { result ≤ length names.now }
    ensures fits { length (names_text (take result names.now)) ≤ ROOM_FOR_NAMES }
{
    let mut room = ROOM_FOR_NAMES;
    for i in 0..names.len() {
        let needed = names[i].bytes().len() + 1;
        if needed > room {
            return i;
        }
        room -= needed;
    }
    names.len()
}

fn copies(alloc: Global, names: &[Name]) -> Result<Vec<Name>, AllocError>
    ensures { IfOk result (λ copies. copies.items ≡ names.now) }
{
    let mut copies = Vec::with_capacity(alloc, names.len())?;
    for name in names {
        copies.push_reserved(name.copy()?);
    }
    Ok(copies)
}
