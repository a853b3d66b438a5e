// crates.txt: YOURS: hub_endings hub_serving
use hub_endings::{Fault, tell_faults};
use hub_serving::{Enter, serve};
use std::alloc::Global;
use std::fs::Files;
use std::io::Stderr;
use std::net::Net;
use std::rt::Clock;
use std::sync::Wait;
use std::thread::Threads;

/// Serves 8 connections at a socket, and writes a line for each that stopped. Answers whether none did and all lines were
/// written.
pub fn serve_at<H>(rt: &H, alloc: Global, socket: &str, errors: &mut Stderr) -> Result<bool, Fault>
where
    H: Files + Net + Clock + Threads + Wait + Enter + Copy + Send + 'static,
{
    let report = serve(rt, alloc, socket, 8)?;
    match tell_faults(alloc, &report, errors) {
        Ok(()) => Ok(report.is_clean()),
        Err(_) => Ok(false),
    }
}
