// crates.txt: YOURS: hub_running hub_dialing hub_endings
use hub_dialing::Dial;
use hub_endings::end_status;
use hub_running::{Enter, run};
use std::alloc::{AllocGlobal, Global};
use std::fs::{File, Files};
use std::net::Net;
use std::rt::Runtime;
use std::sync::Wait;
use std::thread::Threads;

/// Does what the words of the program's command line say. Answers the exit status, and puts what is written behind `output`, and what is
/// noted on the way behind `notes`.
pub fn status_of<H>(
    rt: &H,
    alloc: Global,
    dialer: &mut impl Dial,
    mut input: &[u8],
    output: &mut Vec<u8>,
    notes: &mut Vec<u8>,
) -> u8
where
    H: Runtime
        + Files<File = File>
        + AllocGlobal
        + Net
        + Threads
        + Wait
        + Enter
        + Copy
        + Send
        + 'static,
{
    let ended = run(rt, alloc, dialer, &mut input, output, notes);
    end_status(&ended)
}
