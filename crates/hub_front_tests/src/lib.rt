//! Tests of lines, replies, one session and a client's relay, over memory with streams that drip and fail.
//!
//! They call what is public. A crate that had its tests in itself would be proved twice: by itself, and with them.
#![tactic(auto)]

#[cfg(test)]
mod tests;
