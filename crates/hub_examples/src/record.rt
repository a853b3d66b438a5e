// crates.txt: YOURS: hub_record hub_letters anyhow
use anyhow::{Result, anyhow};
use hub_letters::Letter;
use hub_record::{Event, Kind, Limits, Record, Taken};
use std::alloc::Global;

/// Publishes a message to a new record with one subscription, and takes its first events into `out`.
pub fn publish_and_take(alloc: Global, message: &[Letter], out: &mut [Event]) -> Result<Taken> {
    // At most 64 events may be pending, and there may be 1,000 events and 10 subscriptions in all.
    let limits = Limits::of(64, 1_000, 10).ok_or_else(|| anyhow!("no limits"))?;
    let mut record = Record::new(alloc, Kind::Plain, limits)?;
    let (id, _mark) = record.subscribe()?;
    // 7 is the number of the publisher. A message of more than 64 letters is refused as `Full`.
    let _first = record.publish(7, message)?;
    let taken = record.take_into(id, out)?;
    record.cancel(id)?;
    Ok(taken)
}
