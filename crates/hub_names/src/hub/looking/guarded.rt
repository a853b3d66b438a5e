//! A lock that what only looks can't take for a change.

use hub_fifodir::Enter;
use std::sync::{RwLock, RwLockReadGuard, RwLockWriteGuard, Wait};

/// A value that many may look at, or one may change. Only the parent module can call `write`, and only with `Enter`, so a call that
/// finds or lists can't. Here the value is of any type, so nothing in this file can change it either.
#[derive(Drop)]
pub(crate) struct Guarded<T> {
    lock: RwLock<T>,
}

impl<T> Guarded<T> {
    pub(crate) fn new(value: T) -> Guarded<T> {
        Guarded {
            lock: RwLock::new(value),
        }
    }

    /// Takes the lock for a look.
    pub(crate) fn read<H: Wait>(&self, rt: &H) -> RwLockReadGuard<'_, T> {
        self.lock.read(rt)
    }

    /// Takes the lock for a change.
    pub(super) fn write<H: Wait + Enter>(&self, rt: &H) -> RwLockWriteGuard<'_, T> {
        self.lock.write(rt)
    }
}
