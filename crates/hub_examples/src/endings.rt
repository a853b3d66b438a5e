// crates.txt: YOURS: hub_endings
use hub_endings::{Ending, Fault, end_status, tell_end};
use std::alloc::Global;
use std::io::Stderr;

/// Writes the line of the fault, if something failed. Answers the status that the program ends with.
pub fn status_after(alloc: Global, done: Result<(), Fault>, errors: &mut Stderr) -> u8 {
    let ended = match done {
        Ok(()) => Ok(0),
        Err(fault) => Err(Ending::Failed(fault)),
    };
    match tell_end(alloc, &ended, errors) {
        Ok(()) => end_status(&ended),
        Err(_) => 1,
    }
}
