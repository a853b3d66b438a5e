//! Tests of sessions on threads and of the subcommands: over memory with streams that fail, and over Unix sockets.
//!
//! They call what is public. A crate that had its tests in itself would be proved twice: by itself, and with them.
#![tactic(auto)]

#[cfg(test)]
mod tests;
