// crates.txt: YOURS: hub_names hub_requests hub_fifodir hub_record anyhow
use anyhow::{Result, anyhow};
use hub_fifodir::{Enter, Fifodir};
use hub_names::Hub;
use hub_record::{Kind, Limits};
use hub_requests::Name;
use std::alloc::Global;
use std::sync::{Arc, Wait};

/// Makes the fifodir of a service in a hub, so that sessions can ask for it by this name, and returns it.
pub fn make_service<H: Wait + Enter>(
    rt: &H,
    hub: &Hub,
    name: Name,
) -> Result<Arc<Fifodir, Global>> {
    let limits = Limits::of(64, 1_000_000, 1_000_000).ok_or_else(|| anyhow!("no limits"))?;
    hub.make_named(rt, &name, Kind::Service, limits, true).1?;
    match hub.find(rt, &name).1? {
        Some(found) => Ok(found.dir),
        None => Err(anyhow!("no fifodir")),
    }
}
