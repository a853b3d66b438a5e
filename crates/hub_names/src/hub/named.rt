//! What is under a hub's lock.
ghost use Rattle.std.specs.Prelude.{◌≡◌, ◌≤◌, ◌++◌, ◌∷◌, [], ℕ, List, length, true, false, is_some, option_map, IfOk, OnOk, OnErr, Err};
ghost use Rattle.std.specs.Str.{bytes_eq};
ghost use Rattle.indexmap.specs.IndexMap.{IsUnique, get, index_map_len, keys};
ghost use Rattle.hub_requests.specs.declared.bounds.TheConstants.{MOST_NAMES};

use super::looking::guarded::Guarded;
use super::{HubError, Made};
use hub_fifodir::{Bell, Enter, Fifodir};
use hub_record::{Kind, Limits};
use hub_requests::{MOST_NAMES, Name, Refusal, Reply, names_reply};
use indexmap::IndexMap;
use std::alloc::{AllocError, Global};
use std::sync::Arc;

/// The fifodirs of a hub by name. Only `make` changes them, and `none` gives them behind their lock, so nobody can put others in
/// their place.
#[derive(Drop)]
pub(super) struct Named {
    alloc: Global,
    /// Shared by all fifodirs, so that a wait for several of them sleeps until one changes.
    bell: Arc<Bell, Global>,
    fifodirs: IndexMap<Name, Made>,
    ghost few: { index_map_len fifodirs ≤ MOST_NAMES },
}

impl Named {
    ghost use Rattle.hub_names.specs.Hubs.{HasMade, found_as};
    ghost use Rattle.hub_names.specs.Looks.{Lists};

    /// Those of a new hub, with its bell: none yet.
    pub(super) fn none(bell: Arc<Bell, Global>, alloc: Global) -> Guarded<Named> {
        Guarded::new(Named {
            alloc,
            bell,
            fifodirs: IndexMap::new(alloc),
        })
    }

    /// How many there are: no more than may be, and no two of one name.
    pub(super) fn count(&self) -> usize
        ensures few { length (keys self.now.fifodirs) ≤ MOST_NAMES }
        ensures unlike { IsUnique bytes_eq self.now.fifodirs }
        ensures count { result ≡ length (keys self.now.fifodirs) }
    {
        self.fifodirs.len()
    }

    /// Makes a fifodir under a name that has none. It asks for `Enter`, so that what only looks can't make one.
    pub(super) fn make<H: Enter>(
        &mut self,
        _rt: &H,
        name: &Name,
        kind: Kind,
        limits: Limits,
        notifies: bool,
    ) -> Result<(), HubError>
        ensures exists { is_some (get bytes_eq self.old.fifodirs name.now) ≡ true
            → result ≡ Err HubError.Exists }
        ensures many { is_some (get bytes_eq self.old.fifodirs name.now) ≡ false
            → MOST_NAMES ≤ index_map_len self.old.fifodirs → result ≡ Err HubError.Many }
        ensures exists_only { result ≡ Err HubError.Exists
            → is_some (get bytes_eq self.old.fifodirs name.now) ≡ true }
        ensures many_only { result ≡ Err HubError.Many
            → MOST_NAMES ≤ index_map_len self.old.fifodirs }
        ensures ok { OnOk result (HasMade kind limits notifies
            (get bytes_eq self.new.fifodirs name.now)) }
        ensures others { OnOk result ((other : List ℕ) → bytes_eq name.now other ≡ false
            → get bytes_eq self.new.fifodirs other ≡ get bytes_eq self.old.fifodirs other) }
        ensures last { OnOk result (keys self.new.fifodirs
            ≡ keys self.old.fifodirs ++ name.now ∷ []) }
        ensures err { OnErr result (self.new.fifodirs.entries ≡ self.old.fifodirs.entries) }
    {
        if self.fifodirs.contains_key(name) {
            return Err(HubError::Exists);
        }
        if self.fifodirs.len() >= MOST_NAMES {
            return Err(HubError::Many);
        }
        let key = name.copy()?;
        let bell = Arc::try_clone(&self.bell)?;
        let fifodir = Fifodir::with_bell(self.alloc, kind, limits, bell)?;
        let Ok(dir) = Arc::new(self.alloc, fifodir) else {
            return Err(HubError::Memory);
        };
        match self.fifodirs.insert(key, Made { dir, notifies }) {
            Ok(_) => Ok(()),
            Err(_) => Err(HubError::Memory),
        }
    }

    pub(super) fn find(&self, name: &Name) -> Result<Option<Made>, AllocError>
        ensures { IfOk result (λ made. option_map found_as made ≡ option_map found_as
            (get bytes_eq self.now.fifodirs name.now)) }
    {
        match self.fifodirs.get(name) {
            Some(made) => Ok(Some(made.copy()?)),
            None => Ok(None),
        }
    }

    /// The names from place `from` on, as many as fit in one reply.
    pub(super) fn list(&self, from: u64) -> Reply
        ensures { Lists (keys self.now.fifodirs) from result }
    {
        match names_reply(self.alloc, self.fifodirs.keys().as_slice(), from) {
            Ok(reply) => reply,
            Err(_) => Reply::No(Refusal::Memory),
        }
    }
}
