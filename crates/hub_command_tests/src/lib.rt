//! Tests of the command line: what its words ask for, the socket of words that name none, and durations. And of a wait that takes longer
//! than a test may.
//!
//! They call what is public. A crate that had its tests in itself would be proved twice: by itself, and with them.
#![tactic(auto)]

#[cfg(test)]
mod tests;
