//! The fifodirs that sessions share, by name.
ghost use Rattle.std.specs.Prelude.{◌≡◌, option_map, IfOk, IfErr, IfSome, OnOk};
ghost use Rattle.std.specs.Arc.{arc_value};

use hub_fifodir::{Bell, Enter, Fifodir};
use hub_record::{Kind, Limits};
use hub_requests::{Name, Reply};
use std::alloc::{AllocError, Global};
use std::sync::{Arc, Wait};
use thiserror::Error;

mod looking;
mod named;

use looking::guarded::Guarded;
use looking::{Changing, Looking};
pub use looking::{NamesChange, NamesLook};
use named::Named;

/// Why no fifodir was made.
#[derive(Clone, Copy, Debug, PartialEq, Eq, Error)]
pub enum HubError {
    /// A fifodir has this name already.
    #[error("a fifodir has this name")]
    Exists,
    /// [`MOST_NAMES`] fifodirs have names.
    #[error("too many fifodirs")]
    Many,
    #[error("out of memory")]
    Memory,
}

impl From<AllocError> for HubError {
    ghost use Rattle.std.specs.Prelude.{◌≡◌};
    ghost use Rattle.hub_names.specs.declared.hub.HubError.TheVariants.{Memory};

    ghost from_gives = { λ _ error. error ≡ Memory };

    fn from(_: AllocError) -> HubError {
        HubError::Memory
    }
}

/// A fifodir that has a name.
#[derive(Drop)]
pub struct Made {
    pub dir: Arc<Fifodir, Global>,
    /// Whether its service reports readiness.
    pub notifies: bool,
}

impl Made {
    ghost use Rattle.hub_names.specs.Hubs.{found_as};

    /// The same fifodir, to be kept once more.
    fn copy(&self) -> Result<Made, AllocError>
        ensures { IfOk result (λ made. found_as made ≡ found_as self.now) }
    {
        let dir = Arc::try_clone(&self.dir)?;
        Ok(Made {
            dir,
            notifies: self.notifies,
        })
    }
}

/// A fifodir that was found, with the look that found it. Only [`Hub::find`] makes one.
#[derive(Drop)]
pub struct Found {
    pub dir: Arc<Fifodir, Global>,
    /// Whether its service reports readiness.
    pub notifies: bool,
    /// What the hub then had under its names, as contracts see it.
    look: NamesLook,
}

impl Found {
    ghost use Rattle.hub_names.specs.Hubs.{found_as, given_as};

    /// What this look found.
    fn of(made: Made, look: NamesLook) -> Found
        ensures given { given_as result ≡ found_as made }
        ensures look { result.look ≡ look }
    {
        let Made { dir, notifies } = made;
        Found {
            dir,
            notifies,
            look,
        }
    }

    /// The same fifodir, to be kept once more.
    pub(crate) fn copy(&self) -> Result<Made, AllocError>
        ensures dir { IfOk result (λ made. arc_value made.dir ≡ arc_value self.now.dir) }
        ensures notifies { IfOk result (λ made. made.notifies ≡ self.now.notifies) }
    {
        let dir = Arc::try_clone(&self.dir)?;
        Ok(Made {
            dir,
            notifies: self.notifies,
        })
    }
}

/// The fifodirs that sessions share.
#[derive(Drop)]
pub struct Hub {
    named: Guarded<Named>,
    /// The bell of all its fifodirs, which wakes late.
    bell: Arc<Bell, Global>,
    /// No clause says what this is, so no contract can show that two hubs are one. Nothing reads it at run time.
    mark: u64,
}

impl Hub {
    ghost use Rattle.hub_names.specs.Changes.{HasMadeUnder, IsChangeAt, IsWhyUnmade};
    ghost use Rattle.hub_names.specs.Hubs.{IsFoundIn, given_as, seen_under};
    ghost use Rattle.hub_names.specs.Looks.{IsLookAt, Lists, names_seen};

    /// A hub without a name.
    pub fn new(alloc: Global) -> Result<Hub, AllocError> {
        let Ok(bell) = Arc::new(alloc, Bell::late()) else {
            return Err(AllocError);
        };
        Ok(Hub {
            named: Named::none(Arc::try_clone(&bell)?, alloc),
            bell,
            mark: 0,
        })
    }

    /// Wakes those who sleep until a fifodir changes that has changed. Whoever changed one calls this before it waits for anything.
    pub fn settle(&self) {
        self.bell.settle();
    }

    /// Makes a fifodir under a name that has none. The change tells contracts what the hub had before, and what after.
    pub fn make_named<H: Wait + Enter>(
        &self,
        rt: &H,
        name: &Name,
        kind: Kind,
        limits: Limits,
        notifies: bool,
    ) -> (NamesChange, Result<(), HubError>)
        ensures at { IsChangeAt self.now result.0 }
        ensures ok { OnOk result.1 (HasMadeUnder kind limits notifies name.now result.0) }
        ensures err { IfErr result.1 (IsWhyUnmade name.now result.0) }
    {
        Changing::at(self, rt).make(rt, name, kind, limits, notifies)
    }

    /// The fifodir of this name, if it has one, with the look at the hub that found it or didn't. It stays as long as the hub
    /// does.
    pub fn find<H: Wait>(
        &self,
        rt: &H,
        name: &Name,
    ) -> (NamesLook, Result<Option<Found>, AllocError>)
        ensures at { IsLookAt self.now result.0 }
        ensures seen { IfOk result.1 (λ found. option_map given_as found
            ≡ seen_under result.0 name.now) }
        ensures found { IfOk result.1 (λ found. IfSome found (IsFoundIn self.now name.now)) }
    {
        let names = Looking::at(self, rt);
        (names.look(), names.find(name))
    }

    /// The names from place `from` on, in the order in which they were made and as many as fit in one reply, with the look at
    /// the hub that saw them.
    pub fn list<H: Wait>(&self, rt: &H, from: u64) -> (NamesLook, Reply)
        ensures at { IsLookAt self.now result.0 }
        ensures lists { Lists (names_seen result.0) from result.1 }
    {
        let names = Looking::at(self, rt);
        (names.look(), names.list(from))
    }
}
