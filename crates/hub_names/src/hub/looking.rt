//! What the lock of a hub gives: its names at one moment, or a change of them.
ghost use Rattle.std.specs.Prelude.{◌≡◌, option_map, IfOk, IfSome, IfErr, OnOk};
ghost use Rattle.std.specs.Str.{bytes_eq};
ghost use Rattle.indexmap.specs.IndexMap.{get, keys};

use super::named::Named;
use super::{Found, Hub, HubError};
use hub_fifodir::Enter;
use hub_record::{Kind, Limits};
use hub_requests::{MOST_NAMES, Name, Reply};
use std::alloc::AllocError;
use std::snapshot::Snapshot;
use std::sync::{RwLockReadGuard, RwLockWriteGuard, Wait};

pub(super) mod guarded;

/// What a hub had under its names at one moment, as contracts see it: it has no bytes. Only the hub's own lock gives one.
#[derive(Drop)]
pub struct NamesLook {
    hub: Snapshot<Hub>,
    /// What was under the hub's lock.
    named: Snapshot<Named>,
}

impl NamesLook {
    ghost use Rattle.hub_names.specs.Looks.{IsLookAt, given_by};

    /// A look at what the hub has under its lock.
    fn at(hub: &Hub, named: &Named) -> NamesLook
        ensures at { IsLookAt hub.now result }
        ensures seen { given_by result ≡ named.now }
    {
        prove!(named.count() <= MOST_NAMES);
        NamesLook {
            hub: Snapshot::of(hub),
            named: Snapshot::of(named),
        }
    }
}

/// What a hub had under its names when its lock was taken, and what when it was released, as contracts see it.
#[derive(Drop)]
pub struct NamesChange {
    before: NamesLook,
    after: NamesLook,
}

/// The lock of a hub, taken for a look. Of what a lock gives a contract knows only the type. That it is the lock of this hub
/// is known by its lifetime: no other lock that `at` can reach lives as long.
#[derive(Drop)]
pub(super) struct Looking<'a> {
    hub: &'a Hub,
    named: RwLockReadGuard<'a, Named>,
}

impl<'a> Looking<'a> {
    ghost use Rattle.hub_names.specs.Hubs.{IsFoundIn, found_as, given_as};
    ghost use Rattle.hub_names.specs.Looks.{IsLookAt, Lists, given_by, hub_of, locked_by};

    pub(super) fn at<H: Wait>(hub: &'a Hub, rt: &H) -> Looking<'a>
        ensures { hub_of result ≡ hub.now }
    {
        Looking {
            hub,
            named: hub.named.read(rt),
        }
    }

    /// What it sees.
    pub(super) fn look(&self) -> NamesLook
        ensures at { IsLookAt (hub_of self.now) result }
        ensures seen { given_by result ≡ locked_by self.now }
    {
        NamesLook::at(self.hub, &self.named)
    }

    /// The fifodir of this name, if it has one.
    pub(super) fn find(&self, name: &Name) -> Result<Option<Found>, AllocError>
        ensures seen { IfOk result (λ found. option_map given_as found ≡ option_map found_as
            (get bytes_eq (locked_by self.now).fifodirs name.now)) }
        ensures found { IfOk result (λ found. IfSome found (IsFoundIn (hub_of self.now) name.now)) }
    {
        match self.named.find(name)? {
            Some(made) => Ok(Some(Found::of(made, self.look()))),
            None => Ok(None),
        }
    }

    /// The names from place `from` on, as many as fit in one reply.
    pub(super) fn list(&self, from: u64) -> Reply
        ensures { Lists (keys (locked_by self.now).fifodirs) from result }
    {
        self.named.list(from)
    }
}

/// The lock of a hub, taken for one change. It is the lock of this hub as that of a `Looking` is.
#[derive(Drop)]
pub(super) struct Changing<'a> {
    hub: &'a Hub,
    named: RwLockWriteGuard<'a, Named>,
}

impl<'a> Changing<'a> {
    ghost use Rattle.hub_names.specs.Changes.{HasMadeUnder, IsChangeAt, IsWhyUnmade, hub_changed};

    pub(super) fn at<H: Wait + Enter>(hub: &'a Hub, rt: &H) -> Changing<'a>
        ensures { hub_changed result ≡ hub.now }
    {
        Changing {
            hub,
            named: hub.named.write(rt),
        }
    }

    /// Makes a fifodir under a name that has none, and releases the lock.
    pub(super) fn make<H: Enter>(
        self,
        rt: &H,
        name: &Name,
        kind: Kind,
        limits: Limits,
        notifies: bool,
    ) -> (NamesChange, Result<(), HubError>)
        ensures at { IsChangeAt (hub_changed self.entry) result.0 }
        ensures ok { OnOk result.1 (HasMadeUnder kind limits notifies name.now result.0) }
        ensures err { IfErr result.1 (IsWhyUnmade name.now result.0) }
    {
        let Changing { hub, mut named } = self;
        let before = NamesLook::at(hub, &named);
        let made = named.make(rt, name, kind, limits, notifies);
        let after = NamesLook::at(hub, &named);
        (NamesChange { before, after }, made)
    }
}
