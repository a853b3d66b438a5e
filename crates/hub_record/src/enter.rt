//! What a runtime may do beside waiting.

/// The runtime of a program. Other crates can't name this trait, so no type of theirs has it.
pub trait ProgramRuntime {}

impl ProgramRuntime for HostRuntime {}

/// A runtime that may make passes. Only what gives a new publisher or ticket asks for it. A call that asks for no more than `Wait`
/// can't make a pass, and so it publishes, takes and closes by those alone that it is given.
pub trait Enter: ProgramRuntime {}

impl Enter for HostRuntime {}
