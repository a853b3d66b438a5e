//! A pause for waits that end by what other threads do.

use hub_wait::{Go, Pause};
use std::sync::Wait;
use std::thread;

/// Lets other threads run, and never loses patience.
#[derive(Clone, Copy)]
pub struct Yielding;

impl Pause for Yielding {
    fn pause<R: Wait>(&mut self, _rt: &R) -> Go {
        thread::yield_now();
        Go::Again
    }
}
