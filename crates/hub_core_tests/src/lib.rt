//! Worked examples of the crates below the desks, whose values were found by hand.
//!
//! The values are in tables. Small functions compare, and the tests alone assert: each assertion costs the prover seconds.
//! A function that has passes can't return by `?`, since they can't be dropped. So it gets the next pass from a function
//! that aborts if the pass is refused.
//! The tests call what is public. A crate that had its tests in itself would be proved twice: by itself, and with them.
#![tactic(auto)]

#[cfg(test)]
mod tests;
