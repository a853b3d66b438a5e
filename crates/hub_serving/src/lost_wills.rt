//! The wills of sessions that couldn't be carried out.
ghost use Rattle.std.specs.Prelude.{◌≡◌};
ghost use Rattle.hub_serving.specs.Pending.{line_of_wills};

use crate::noting::NotedNames;
use hub_endings::HubLine;
use hub_requests::Name;
use std::alloc::{AllocError, Global};
use std::sync::atomic::{AtomicU64, Ordering};
use std::sync::{Arc, Wait};

/// Counts wills that sessions couldn't carry out, and has the names of their fifodirs, until somebody tells of them. What threads share
/// isn't seen by contracts.
#[derive(Drop)]
pub(crate) struct LostWills {
    count: Arc<AtomicU64, Global>,
    names: NotedNames,
}

impl LostWills {
    pub(crate) fn new(alloc: Global) -> Result<LostWills, AllocError> {
        let count = Arc::new(alloc, AtomicU64::new(0))?;
        let names = NotedNames::new(alloc)?;
        Ok(LostWills { count, names })
    }

    /// A share for another thread.
    pub(crate) fn share(&self) -> Result<LostWills, AllocError> {
        let count = Arc::try_clone(&self.count)?;
        let names = self.names.share()?;
        Ok(LostWills { count, names })
    }

    /// So many more were lost, at fifodirs with these names.
    pub(crate) fn add<H: Wait>(&self, rt: &H, wills: u64, names: &[Name]) {
        if wills > 0 {
            self.count.fetch_add(wills, Ordering::Relaxed);
        }
        for name in names {
            self.names.note(rt, name);
        }
    }

    /// Takes the names of their fifodirs, each once.
    pub(crate) fn take_names<H: Wait>(&self, rt: &H, alloc: Global) -> Vec<Name> {
        self.names.take(rt, alloc)
    }

    /// The line that tells how many were lost since it was last asked for, if there are any.
    pub(crate) fn take(&self) -> Option<HubLine> {
        line_of_wills(self.count.swap(0, Ordering::Relaxed))
    }
}

fn line_of_wills(wills: u64) -> Option<HubLine>
    ensures { result ≡ line_of_wills wills }
{
    match wills {
        0 => None,
        wills => Some(HubLine::Wills { wills }),
    }
}
