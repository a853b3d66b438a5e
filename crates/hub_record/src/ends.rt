//! What is added at the end of a backlog, and what is released at its beginning: events, each with its count of cursors.
ghost use Rattle.std.specs.Prelude.{◌≡◌, ◌≤◌, ◌<◌, ◌+◌, ◌-◌, ◌++◌, length, replicate, min, IfSome, drop};
ghost use Rattle.circular_buffer.specs.Buffer.{buffer};
ghost use Rattle.hub_record.specs.World.{as_events};
ghost use Rattle.hub_record.specs.Backlog.{first_place};

use crate::Event;
use crate::counts::{Counts, add_place, cut_places, first_place, lengthen};
use crate::ring::{add, cut, push_in};
use circular_buffer::HeapCircularBuffer;
use hub_letters::Letter;

/// Releases the first events, with their counts, and adds the letters as events, at which there is no cursor.
#[inline(always)]
pub(crate) fn append(
    ring: &mut HeapCircularBuffer<Event>,
    counts: &mut Counts,
    over: usize,
    who: u64,
    letters: &[Letter],
)
    requires over { (over ≤ length ring.old.items) × (over < length counts.old.items) }
    requires events { length ring.old.items - over + length letters.now ≤ ring.old.capacity }
    requires counts { length counts.old.items - over + length letters.now ≤ counts.old.capacity }
    ensures events { ring.new ≡ buffer
        (drop over ring.old.items ++ as_events who letters.now) ring.old.capacity }
    ensures counts { counts.new ≡ buffer
        (drop over counts.old.items ++ replicate (length letters.now) 0) counts.old.capacity }
{
    // Many messages have one letter that fits.
    if over == 0 && letters.len() == 1 {
        let event = Event {
            who,
            letter: letters[0],
        };
        add(ring, event);
        add_place(counts);
        return;
    }
    cut(ring, over);
    cut_places(counts, over);
    push_in(ring, who, letters);
    lengthen(counts, letters.len());
}

/// Releases the events before the first cursor, with their counts. Returns how many there were. The place of the first cursor
/// may be known; else it is looked for.
#[cold]
#[inline(never)]
pub(crate) fn release(
    ring: &mut HeapCircularBuffer<Event>,
    counts: &mut Counts,
    known: Option<usize>,
) -> usize
    requires places { length ring.old.items < length counts.old.items }
    requires known { IfSome known (λ first. first ≡ first_place counts.old.items) }
    ensures count { result ≡ min (first_place counts.old.items) (length ring.old.items) }
    ensures events { ring.new ≡ buffer (drop result ring.old.items) ring.old.capacity }
    ensures counts { counts.new ≡ buffer (drop result counts.old.items) counts.old.capacity }
{
    let first = match known {
        Some(first) => first,
        None => first_place(counts),
    };
    let count = first.min(ring.len());
    cut(ring, count);
    cut_places(counts, count);
    count
}
