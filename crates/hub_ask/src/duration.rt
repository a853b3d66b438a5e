//! How long something may take.
ghost use Rattle.std.specs.Prelude.{◌≡◌, ◌⊎◌, ◌<◌, ◌≤◌, ◌^◌, ℕ, IfNone, IfSome, MatchOption};
ghost use Rattle.std.specs.Option.{SomeIff};
ghost use Rattle.std.specs.Str.Parse.{IsNumeral, digits_value};
ghost use Rattle.hub_ask.specs.Durations.{AreParts, AsksFor, IsPlace, SpellsDuration, WritesFraction, WritesNumber, turns_of_request};
ghost use Rattle.hub_ask.specs.Lines.{bytes_of};
ghost use Rattle.hub_ask.specs.declared.duration.TheConstants.{MOST_MILLIS};
ghost use Rattle.hub_requests.specs.declared.bounds.TheConstants.{MOST_TURNS};

use crate::line::Line;
use hub_protocol::parse;
use hub_requests::Request;
use std::alloc::Global;

/// The most milliseconds of a duration: those of 1,000 hours.
pub const MOST_MILLIS: u64 = 3_600_000_000;

// The bytes of a duration before its unit, and how many milliseconds one of its unit has.
fn parts_of(text: &str) -> (&str, u64)
    ensures { AreParts text.now result.0.now result.1 }
{
    if let Some(number) = text.strip_suffix("ms") {
        (number, 1)
    } else if let Some(number) = text.strip_suffix("s") {
        (number, 1_000)
    } else if let Some(number) = text.strip_suffix("m") {
        (number, 60_000)
    } else if let Some(number) = text.strip_suffix("h") {
        (number, 3_600_000)
    } else {
        (text, 1_000)
    }
}

// The number that these digits write. None if there are other bytes, or if it has more than 64 bits.
fn number_of(digits: &str) -> Option<u64>
    ensures { SomeIff result (IsNumeral 10 digits.now × (digits_value 10 digits.now < 2 ^ 64))
        (digits_value 10 digits.now) }
{
    if digits.starts_with('+') {
        return None;
    }
    digits.parse::<u64>().ok()
}

// How many thousandths the last of so many digits behind a point counts. None if there may not be so many.
fn place_of(count: usize) -> Option<u64>
    ensures { MatchOption result ((place : ℕ) → IsPlace count place → ⊥) (IsPlace count) }
{
    match count {
        1 => Some(100),
        2 => Some(10),
        3 => Some(1),
        _ => None,
    }
}

// The thousandths that these digits behind a point write.
fn fraction_of(digits: &str) -> Option<u64>
    ensures none { IfNone result ((thousandths : ℕ) → WritesFraction digits.now thousandths
        → 2 ^ 64 ≤ thousandths) }
    ensures some { IfSome result (WritesFraction digits.now) }
{
    let place = place_of(digits.len())?;
    number_of(digits)?.checked_mul(place)
}

// The thousandths of a number, which may have a point.
fn thousandths_of(number: &str) -> Option<u64>
    ensures none { IfNone result ((thousandths : ℕ) → WritesNumber number.now thousandths
        → 2 ^ 64 ≤ thousandths) }
    ensures some { IfSome result (WritesNumber number.now) }
{
    match number.split_once('.') {
        Some((whole, fraction)) => {
            let behind = fraction_of(fraction)?;
            let front = number_of(whole)?.checked_mul(1_000)?;
            front.checked_add(behind)
        }
        None => number_of(number)?.checked_mul(1_000),
    }
}

/// The milliseconds of a duration: a number with `ms`, `s`, `m` or `h`, or alone for seconds. It may have a point, and three digits
/// behind it. None if it is another text, has a part of a millisecond, or is too long.
pub fn millis_of(text: &str) -> Option<u64>
    ensures none { IfNone result ((millis : ℕ) → SpellsDuration text.now millis
        → MOST_MILLIS < millis) }
    ensures some { IfSome result (SpellsDuration text.now) }
    ensures few { IfSome result (λ millis. millis ≤ MOST_MILLIS) }
{
    let (number, unit) = parts_of(text);
    let micros = thousandths_of(number)?.checked_mul(unit)?;
    let millis = micros / 1_000;
    if micros % 1_000 != 0 || millis > MOST_MILLIS {
        return None;
    }
    Some(millis)
}

/// For how many turns a hub may sleep before it answers this request: those of a `wait`, an `await` or a `next`, else none.
pub fn turns_of_request(request: &Request) -> u64
    ensures { result ≡ turns_of_request request.now }
{
    match request {
        Request::Wait { turns, .. } | Request::Await { turns, .. } | Request::Next { turns, .. } =>
            *turns,
        _ => 0,
    }
}

/// For how many turns a hub may sleep before it answers this line: those of the request that it spells, and else none.
pub fn turns_asked(alloc: Global, line: &Line) -> u64
    ensures few { result ≤ MOST_TURNS }
    ensures asked { (result ≡ 0) ⊎ AsksFor (bytes_of line.now) result }
{
    match parse(alloc, line.as_bytes()) {
        Ok(request) => turns_of_request(&request),
        Err(_) => 0,
    }
}
