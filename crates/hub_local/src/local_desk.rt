//! The desk of one thread, its state, and its implementation of `Desk`.
ghost use Rattle.std.specs.Prelude.{IfOk};

use crate::local_desk::subscriptions::release_all;
use crate::local_desk::wills::carry_out;
use hub_letters::Letter;
use hub_listen::{Listener, Mode};
use hub_record::{Enter, Kind, Record};
use hub_requests::{Desk, Name, Reply, Request, Wills, limits};
use indexmap::IndexMap;
use std::alloc::{AllocError, Global};
use std::marker::Model;
use std::sync::Wait;

mod awaits;
mod fifodirs;
mod laws;
mod listeners;
mod listings;
mod nexts;
mod subscriptions;
mod waits;
mod wills;

/// A fifodir that only this desk uses.
#[derive(Drop)]
struct LocalFifodir {
    kept: Record,
    /// Whether its service reports readiness. None if the fifodir is plain.
    reports: Option<bool>,
}

/// What a handle is for: the subscription with this id at the fifodir with this name.
#[derive(Drop)]
struct Holding {
    name: Name,
    id: u64,
    /// The listener, if the handle is a listener's.
    hearing: Option<LocalListener>,
}

/// A listener. Its own mode is always `Repeat`: the desk ends it after a hit if `mode` is `Once`.
#[derive(Drop)]
struct LocalListener {
    listener: Listener,
    /// Whether the handle's subscription ends with a hit.
    mode: Mode,
    /// A letter that was taken for the listener but not searched, because memory ran out. The next poll hears it first.
    held: Option<Letter>,
}

/// A desk for one thread, over records of its own. It publishes as publisher 1.
#[derive(Drop)]
pub struct LocalDesk {
    alloc: Global,
    /// In the order in which they were made.
    fifodirs: IndexMap<Name, LocalFifodir>,
    /// What the current handles hold, by their numbers.
    holdings: IndexMap<u64, Holding>,
    /// How many handles were given so far.
    given: u64,
    /// What it has to tell at its end.
    wills: Wills,
}

impl Model for LocalDesk {
    ghost use Rattle.hub_requests.specs.Wills.{wills_in};
    ghost use Rattle.hub_local.specs.Representing.{Local, RepresentsSome};

    ghost Value = { Local };

    ghost view = { λ d. record {
      fifodirs = d.fifodirs.entries;
      holdings = d.holdings.entries;
      given = d.given;
      wills = wills_in d.wills;
    } };

    ghost invariant = { λ d. RepresentsSome (record {
      fifodirs = d.fifodirs.entries;
      holdings = d.holdings.entries;
      given = d.given;
      wills = wills_in d.wills;
    }) };
}

impl LocalDesk {
    ghost use Rattle.hub_local.specs.Desks.{new_desk};
    ghost use Rattle.hub_local.specs.Representing.{RepresentsDesk};

    /// A desk without fifodirs and handles.
    pub fn new(alloc: Global) -> Result<LocalDesk, AllocError>
        ensures { IfOk result (λ desk. RepresentsDesk desk new_desk) }
    {
        Ok(LocalDesk {
            alloc,
            fifodirs: IndexMap::new(alloc),
            holdings: IndexMap::new(alloc),
            given: 0,
            wills: Wills::new(alloc),
        })
    }
}

impl Desk for LocalDesk {
    ghost use Rattle.hub_local.specs.Representing.{AsksDesk, Ended};

    ghost asks = { AsksDesk };

    ghost ends = { Ended };

    fn ask<H: Wait + Enter>(&mut self, _rt: &H, request: &Request) -> Reply {
        match request {
            Request::Svc {
                name,
                waiting,
                total,
                notifies,
                evict,
            } => self.make(
                name,
                Kind::Service,
                Some(*notifies),
                limits(*waiting, *total, *evict),
            ),
            Request::Dir {
                name,
                waiting,
                total,
                evict,
            } => self.make(name, Kind::Plain, None, limits(*waiting, *total, *evict)),
            Request::Sub { name } => self.subscribe(name),
            Request::Pub { name, letters } => self.publish(name, letters),
            Request::Tell { name, state } => self.tell(name, *state),
            Request::Will { name, state } => self.will(name, *state),
            Request::Take { id, max } => self.take(*id, *max),
            Request::Cancel { id } => self.cancel(*id),
            Request::Close { name } => self.close(name),
            Request::Status { name } => self.status(name),
            Request::About { name } => self.about(name),
            Request::Listen {
                name,
                mode,
                pattern,
            } => self.listen(name, *mode, pattern),
            Request::Poll { id } => self.poll(*id),
            Request::Await { id, turns: _ } => self.look(*id),
            Request::Next { id, turns: _ } => self.next(*id),
            Request::Wait {
                span,
                want,
                turns: _,
                names,
            } => self.wait(*span, *want, names),
            Request::Names { from } => self.list(*from),
        }
    }

    fn end<H: Wait>(&mut self, _rt: &H) {
        release_all(&mut self.fifodirs, &self.holdings);
        self.holdings.clear();
        carry_out(&mut self.fifodirs, &self.wills);
        self.wills.clear();
    }
}
