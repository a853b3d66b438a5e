//! Tests of the two desks: tables of requests and replies, whose values were found by hand, and sessions one after the
//! other over one hub.
//!
//! They call what is public. A crate that had its tests in itself would be proved twice: by itself, and with them.
#![tactic(auto)]

#[cfg(test)]
mod tests;
