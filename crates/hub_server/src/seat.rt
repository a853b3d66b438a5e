//! What a worker shares with who puts another one in its place.

use std::alloc::Global;
use std::sync::atomic::AtomicBool;
use std::sync::{Mutex, Wait};

/// How many bytes a worker takes as it leaves. Once it has ended they are freed. When so large a piece is freed, the C library joins all
/// free pieces of the heap that it is from, and returns the end of that heap to the system.
const PIECE: usize = 100_000;

/// What a worker shares with who puts another one in its place.
#[derive(Drop)]
pub(crate) struct Seat {
    /// The worker sets this as its last step.
    pub(crate) has_left: AtomicBool,
    /// What the worker has taken of its heap as it left.
    piece: Mutex<Option<Vec<u8>>>,
}

impl Seat {
    pub(crate) fn new() -> Seat {
        Seat {
            has_left: AtomicBool::new(false),
            piece: Mutex::new(None),
        }
    }

    pub(crate) fn take_piece<H: Wait>(&self, rt: &H, alloc: Global) {
        *self.piece.lock(rt) = Vec::with_capacity(alloc, PIECE).ok();
    }

    pub(crate) fn free_piece<H: Wait>(&self, rt: &H) {
        *self.piece.lock(rt) = None;
    }
}
