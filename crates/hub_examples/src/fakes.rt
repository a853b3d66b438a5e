// crates.txt: YOURS: hub_fakes
use hub_fakes::{Dripping, Narrow};

/// A reader that gives one byte at a time and never fails, and a writer that takes two bytes at a time and fails at its third
/// write.
pub fn slow_streams(bytes: &[u8]) -> (Dripping<'_>, Narrow) {
    (Dripping::new(bytes, 1, 0), Narrow::new(2, 3))
}
