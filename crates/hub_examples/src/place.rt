// crates.txt: YOURS: hub_endings hub_place
use hub_endings::Fault;
use hub_place::take_place;
use std::alloc::Global;
use std::fs::{File, Files};
use std::net::Net;

/// Whether a hub could listen at this path now. It takes the place, and leaves it. An error says why no hub could.
pub fn is_free<H: Files<File = File> + Net>(
    rt: &H,
    alloc: Global,
    socket: &str,
) -> Result<bool, Fault> {
    match take_place(rt, alloc, socket) {
        Ok(place) => {
            place.leave(rt);
            Ok(true)
        }
        Err(Fault::Taken) => Ok(false),
        Err(fault) => Err(fault),
    }
}
