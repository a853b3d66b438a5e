// crates.txt: YOURS: hub_commands hub_dialing hub_endings
use hub_commands::ask_words;
use hub_dialing::Dial;
use hub_endings::Ending;
use std::alloc::Global;
use std::sync::Wait;

/// Asks the hub at a socket how a fifodir is, and puts its reply behind `reply`. If the hub refuses, what to do about it comes behind
/// `hints`. Answers the exit status for it.
pub fn ask_status<H: Wait>(
    rt: &H,
    alloc: Global,
    dialer: &mut impl Dial,
    socket: &str,
    name: &str,
    reply: &mut Vec<u8>,
    hints: &mut Vec<u8>,
) -> Result<u8, Ending> {
    ask_words(rt, alloc, dialer, socket, &["status", name], reply, hints)
}
