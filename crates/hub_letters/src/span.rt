//! How many services a wait is for.

/// How many of the services a wait is for: `-a` and `-o` of `s6-svwait`.
#[derive(Clone, Copy, Debug, PartialEq, Eq)]
pub enum Span {
    /// Each of the services.
    All,
    /// At least one of the services.
    Any,
}
