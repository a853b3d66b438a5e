//! The counts of a record: how many cursors are at each number from the base to the end.
ghost use Rattle.std.specs.Prelude.{◌≡◌, ◌≤◌, ◌<◌, ◌+◌, ◌-◌, ◌*◌, ◌++◌, [], ◌∷◌, IfOk, IfSome, IsSome, Some, drop, length, get_or, replicate, position, nat_lt};
ghost use Rattle.circular_buffer.specs.Buffer.{buffer};
ghost use Rattle.hub_record.specs.declared.limits.TheConstants.{MOST_PASSES};
ghost use Rattle.hub_record.specs.Backlog.{first_place, with_one_more, with_one_less};

use crate::ring::{add, cut};
use circular_buffer::HeapCircularBuffer;
use std::alloc::{AllocError, Global};
use std::marker::Model;

/// How many cursors are at each place: at the base, behind each event from there on, and last at the end.
#[derive(Drop)]
pub struct Counts {
    /// How many are at the base. Most takes leave from there, and each publish asks for it.
    first: u64,
    /// How many are at each later place that isn't apart.
    later: HeapCircularBuffer<u64>,
    /// How many are at the end, where most takes arrive. None if `later` has it, or the end is the base.
    last: Option<u64>,
}

impl Model for Counts {
    ghost use Rattle.std.specs.Prelude.{ℕ, ◌+◌, ◌∷◌};
    ghost use Rattle.circular_buffer.specs.Buffer.{Buffer, buffer};
    ghost use Rattle.hub_record.specs.Backlog.{with_last};

    ghost Value = { Buffer ℕ };

    ghost view = { λ c. buffer (c.first ∷ with_last c.later.items c.last) (c.later.capacity + 1) };
}

impl Counts {
    /// One place, at which there is no cursor, with room for this many more.
    pub fn new(alloc: Global, room: usize) -> Result<Counts, AllocError>
        ensures { IfOk result (λ c. c ≡ buffer (0 ∷ []) (room + 1)) }
    {
        Ok(Counts {
            first: 0,
            later: HeapCircularBuffer::with_capacity(alloc, room)?,
            last: None,
        })
    }
}

/// Adds a place, at which there is no cursor.
#[inline(always)]
pub fn add_place(counts: &mut Counts)
    requires { length counts.old.items < counts.old.capacity }
    ensures { counts.new ≡ buffer (counts.old.items ++ 0 ∷ []) counts.old.capacity }
{
    if let Some(count) = counts.last {
        add(&mut counts.later, count);
    }
    counts.last = Some(0);
}

/// Adds this many places, at which there is no cursor.
pub fn lengthen(counts: &mut Counts, more: usize)
    requires { length counts.old.items + more ≤ counts.old.capacity }
    ensures { counts.new ≡ buffer (counts.old.items ++ replicate more 0) counts.old.capacity }
{
    if let Some(count) = counts.last {
        add(&mut counts.later, count);
        counts.last = None;
    }
    add_zeros(&mut counts.later, more);
}

fn add_zeros(counts: &mut HeapCircularBuffer<u64>, more: usize)
    requires { length counts.old.items + more ≤ counts.old.capacity }
    ensures { counts.new ≡ buffer (counts.old.items ++ replicate more 0) counts.old.capacity }
{
    for _ in 0..more % 32 {
        add(counts, 0);
    }
    add_blocks(counts, more / 32);
}

// A long message costs less if its places are added 32 at a time.
fn add_blocks(counts: &mut HeapCircularBuffer<u64>, blocks: usize)
    requires { length counts.old.items + 32 * blocks ≤ counts.old.capacity }
    ensures { counts.new
        ≡ buffer (counts.old.items ++ replicate (32 * blocks) 0) counts.old.capacity }
{
    for _ in 0..blocks {
        counts.fill_from_slice(&[0; 32]);
    }
}

/// Drops the first places. At least one stays.
pub fn cut_places(counts: &mut Counts, count: usize)
    requires { count < length counts.old.items }
    ensures { counts.new ≡ buffer (drop count counts.old.items) counts.old.capacity }
{
    if count == 0 {
        return;
    }
    if count <= counts.later.len() {
        let Some(first) = counts.later.get(count - 1) else {
            unreachable!()
        };
        counts.first = *first;
        cut(&mut counts.later, count);
        return;
    }
    let Some(last) = counts.last else {
        unreachable!()
    };
    keep_last(counts, last);
}

/// Drops all places but the last, at which there are so many cursors.
#[inline(always)]
pub fn keep_last(counts: &mut Counts, there: u64)
    requires { there ≡ get_or counts.old.items (length counts.old.items - 1) 0 }
    ensures { counts.new ≡ buffer
        (drop (length counts.old.items - 1) counts.old.items) counts.old.capacity }
{
    counts.first = there;
    counts.later.clear();
    counts.last = None;
}

/// Counts one cursor more at a place, and returns how many are there now.
#[inline(always)]
pub fn one_more(counts: &mut Counts, place: usize) -> u64
    requires place { place < length counts.old.items }
    requires few { get_or counts.old.items place 0 ≤ MOST_PASSES }
    ensures there { result ≡ get_or counts.old.items place 0 + 1 }
    ensures counts { counts.new ≡ buffer
        (with_one_more counts.old.items place) counts.old.capacity }
{
    if place == 0 {
        counts.first += 1;
        return counts.first;
    }
    if place > counts.later.len() {
        return more_at_last(&mut counts.last);
    }
    more_at(&mut counts.later, place - 1)
}

#[inline(always)]
fn more_at_last(last: &mut Option<u64>) -> u64
    requires { IfSome last.old (λ n. n ≤ MOST_PASSES) × IsSome last.old }
    ensures there { IfSome last.old (λ n. result ≡ n + 1) }
    ensures count { last.new ≡ Some result }
{
    let Some(count) = *last else { unreachable!() };
    *last = Some(count + 1);
    count + 1
}

#[inline(always)]
fn more_at(counts: &mut HeapCircularBuffer<u64>, place: usize) -> u64
    requires place { place < length counts.old.items }
    requires few { get_or counts.old.items place 0 ≤ MOST_PASSES }
    ensures there { result ≡ get_or counts.old.items place 0 + 1 }
    ensures counts { counts.new ≡ buffer
        (with_one_more counts.old.items place) counts.old.capacity }
{
    let Some(count) = counts.get_mut(place) else {
        unreachable!()
    };
    *count += 1;
    *count
}

/// Counts one cursor less at a place, and returns how many are left there.
#[inline(always)]
pub fn one_less(counts: &mut Counts, place: usize) -> u64
    requires place { place < length counts.old.items }
    requires some { 0 < get_or counts.old.items place 0 }
    ensures left { result ≡ get_or counts.old.items place 0 - 1 }
    ensures counts { counts.new ≡ buffer
        (with_one_less counts.old.items place) counts.old.capacity }
{
    if place == 0 {
        counts.first -= 1;
        return counts.first;
    }
    if place > counts.later.len() {
        return less_at_last(&mut counts.last);
    }
    less_at(&mut counts.later, place - 1)
}

fn less_at_last(last: &mut Option<u64>) -> u64
    requires { IfSome last.old (λ n. 0 < n) × IsSome last.old }
    ensures left { IfSome last.old (λ n. result ≡ n - 1) }
    ensures count { last.new ≡ Some result }
{
    let Some(count) = *last else { unreachable!() };
    *last = Some(count - 1);
    count - 1
}

fn less_at(counts: &mut HeapCircularBuffer<u64>, place: usize) -> u64
    requires place { place < length counts.old.items }
    requires some { 0 < get_or counts.old.items place 0 }
    ensures left { result ≡ get_or counts.old.items place 0 - 1 }
    ensures counts { counts.new ≡ buffer
        (with_one_less counts.old.items place) counts.old.capacity }
{
    let Some(count) = counts.get_mut(place) else {
        unreachable!()
    };
    *count -= 1;
    *count
}

/// The first place at which there is a cursor, or the number of places.
pub fn first_place(counts: &Counts) -> usize
    ensures { result ≡ first_place counts.now.items }
{
    if has_first(counts) {
        return 0;
    }
    let place = first_in(&counts.later).min(counts.later.len());
    if place < counts.later.len() {
        return place + 1;
    }
    let Some(last) = counts.last else {
        return place + 1;
    };
    if last > 0 {
        return place + 1;
    }
    place + 2
}

#[inline(never)]
fn first_in(counts: &HeapCircularBuffer<u64>) -> usize
    ensures { result ≡ first_place counts.now.items }
{
    let (front, back) = counts.as_slices();
    if let Some(place) = first_counted(front) {
        return place;
    }
    front.len() + first_counted(back).unwrap_or(back.len())
}

fn first_counted(counts: &[u64]) -> Option<usize>
    ensures { result ≡ position (λ n. nat_lt 0 n) counts.now }
{
    counts.iter().position(|count| *count > 0)
}

/// Whether a cursor is at the first place.
pub fn has_first(counts: &Counts) -> bool
    ensures { result ≡ nat_lt 0 (get_or counts.now.items 0 0) }
{
    counts.first > 0
}
