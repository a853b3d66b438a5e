//! Tests of one session that gathers its replies: when it reads and writes, and what it has then answered.
//!
//! They call what is public. They need no hub and no threads, so they are proved before the crates that have those.
#![tactic(auto)]

#[cfg(test)]
mod tests;
