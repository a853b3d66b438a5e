//! What the tests share.
use hub_letters::Letter;
use hub_record::Event;
use std::alloc::{AllocError, Global};
use std::io;
use std::io::ErrorKind;
use std::process::Abort;

/// The letters of a text. A byte that is no letter is an error.
pub(crate) fn word(alloc: Global, text: &str) -> io::Result<Vec<Letter>> {
    let mut letters = Vec::new(alloc);
    for byte in text.as_bytes() {
        letters.push(Letter::of(*byte).ok_or(ErrorKind::InvalidData)?)?;
    }
    Ok(letters)
}

/// So many times a letter.
pub(crate) fn run_of(alloc: Global, byte: u8, count: usize) -> Result<Vec<Letter>, AllocError> {
    vec![in alloc; Letter::of(byte).unwrap_or(Letter::LEAST); count]
}

/// Powers of two and their neighbours, up to what may be pending or gathered.
static LARGE: [usize; 12] = [
    511, 512, 513, 1023, 1024, 1025, 2047, 2048, 2049, 4094, 4095, 4096,
];

/// How many sizes are tried.
pub(crate) const SIZES_TRIED: usize = 313;

/// The sizes that are tried: each from 0 to 300, and the large ones. The last is 4,096.
pub(crate) fn size_at(place: usize) -> usize {
    match place.checked_sub(301) {
        Some(place) => LARGE.get(place).copied().unwrap_or(0),
        None => place,
    }
}

/// What a place has that no take wrote to.
pub(crate) const BLANK: (u64, u8) = (0, b'!');

/// What three places have then.
pub(crate) const BLANKS: [(u64, u8); 3] = [BLANK, BLANK, BLANK];

/// A row of a table: its name, its kind with its limits, and the calls.
macro_rules! row {
    ($name:literal, $kind:ident $limits:tt: $($step:ident $(($($value:expr),*))?),*) => {
        Row {
            name: $name,
            kind: Kind::$kind,
            limits: $limits,
            steps: &[$(Step::$step $(($($value),*))?),*],
        }
    };
}

pub(crate) use row;

/// Whether the events are these publishers' numbers and letters.
pub(crate) fn are_events(events: &[Event], wanted: &[(u64, u8)]) -> bool {
    for (event, (who, byte)) in events.iter().zip(wanted.iter()) {
        if event.who != *who || event.letter.byte() != *byte {
            return false;
        }
    }
    events.len() == wanted.len()
}

/// Fails with the name of the first row that isn't as its table says.
pub(crate) fn none_is_unlike(rt: &impl Abort, unlike: Option<&str>) {
    assert_eq!(rt; unlike, None);
}
