// crates.txt: YOURS: hub_showing hub_dialing hub_endings
use hub_dialing::Dial;
use hub_endings::Ending;
use hub_showing::show_status;
use std::alloc::Global;
use std::sync::Wait;

/// Puts a table of all fifodirs of the hub at a socket behind `table`. What the hub refuses comes behind `notes`. Answers the exit status
/// for it.
pub fn table_of_all<H: Wait>(
    rt: &H,
    alloc: Global,
    dialer: &mut impl Dial,
    socket: &str,
    table: &mut Vec<u8>,
    notes: &mut Vec<u8>,
) -> Result<u8, Ending> {
    show_status(rt, alloc, dialer, socket, false, &[], table, notes)
}
