//! The limits of a record, at the ends of their ranges.
use hub_record::Limits;

const MOST: u64 = 1_000_000_000_000;

/// How many may be pending, how many events there may be in all, how many ids, and whether these are limits.
static LIMITS: [(u64, u64, u64, bool); 8] = [
    (1, 1, 1, true),
    (4096, MOST, MOST, true),
    (0, 1, 1, false),
    (4097, 1, 1, false),
    (1, 0, 1, false),
    (1, MOST + 1, 1, false),
    (1, 1, 0, false),
    (1, 1, MOST + 1, false),
];

/// The number of rows before the first that isn't so; of all, if each is so.
fn rows_that_are_so() -> usize {
    let mut count: usize = 0;
    for (waiting, total, ids, are_limits) in LIMITS.iter() {
        if Limits::of(*waiting, *total, *ids).is_some() != *are_limits {
            return count;
        }
        count = count.wrapping_add(1);
    }
    count
}

#[test]
fn limits_within_their_ranges(rt: HostRuntime) {
    assert_eq!(rt; rows_that_are_so(), 8);
}
