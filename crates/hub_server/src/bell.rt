//! The bell that a worker rings as it leaves.

use std::sync::{Condvar, Mutex, Wait};

/// Tells that workers have left.
#[derive(Drop)]
pub(crate) struct Bell {
    /// Whether a worker has left since this was looked at.
    rang: Mutex<bool>,
    came: Condvar,
}

impl Bell {
    pub(crate) fn new() -> Bell {
        Bell {
            rang: Mutex::new(false),
            came: Condvar::new(),
        }
    }

    pub(crate) fn ring<H: Wait>(&self, rt: &H) {
        *self.rang.lock(rt) = true;
        self.came.notify_one();
    }

    /// Waits until a worker has left.
    pub(crate) fn hear<H: Wait>(&self, rt: &H) {
        let mut rang = self.rang.lock(rt);
        'silent: for _ in rt.forever() {
            if *rang {
                break;
            }
            rang = self.came.wait(rt, rang);
        }
        *rang = false;
    }
}
