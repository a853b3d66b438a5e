//! Which of two doors.

/// A door of a hub that has two.
#[derive(Clone, Copy, Debug, PartialEq, Eq)]
pub enum Side {
    /// The door whose sessions may do all.
    First,
    /// The door whose sessions only look.
    Looking,
}
