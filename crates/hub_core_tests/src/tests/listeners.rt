ghost use Rattle.std.specs.Prelude.{◌≡◌, IfOk};
ghost use Rattle.hub_listen.specs.Listening.{new_listening};

use crate::tests::fixtures::{SIZES_TRIED, none_is_unlike, run_of, size_at, word};
use hub_letters::Letter;
use hub_listen::{Feed, FeedError, ListenError, Listener, Mode};
use std::alloc::{AllocError, Global};
use std::io;
use std::test::Fail;

/// Makes a listener.
pub(crate) fn listener_for(
    alloc: Global,
    pattern: &str,
    mode: Mode,
) -> Result<Listener, ListenError>
    ensures { IfOk result (λ listener. listener ≡ new_listening pattern.now mode) }
{
    Listener::new(alloc, pattern, mode)
}

/// A piece and the answer to it, and the text and the last hit afterwards.
type Piece = (&'static str, Feed, &'static str, &'static str);

/// A pattern, and the pieces that its listener hears.
type Row = (&'static str, Mode, &'static [Piece]);

static HEARD: [Row; 10] = [
    ("b", Mode::Repeat, &[("abb", Feed::Hit(2), "", "ab")]),
    ("$", Mode::Repeat, &[("xy", Feed::Hit(1), "", "x")]),
    (
        "ab",
        Mode::Repeat,
        &[
            ("a", Feed::Quiet, "a", ""),
            ("babab", Feed::Hit(1), "", "ab"),
            ("abab", Feed::Hit(2), "", "ab"),
            ("ab", Feed::Hit(2), "", "ab"),
        ],
    ),
    (
        "u.*U",
        Mode::Repeat,
        &[
            ("s", Feed::Quiet, "s", ""),
            ("u", Feed::Quiet, "su", ""),
            ("U", Feed::Hit(1), "", "suU"),
            ("U", Feed::Quiet, "U", "suU"),
        ],
    ),
    (
        "^b",
        Mode::Repeat,
        &[("ab", Feed::Quiet, "ab", ""), ("b", Feed::Quiet, "abb", "")],
    ),
    (
        "d",
        Mode::Once,
        &[
            ("udd", Feed::Hit(2), "", "ud"),
            ("d", Feed::Spent, "", "ud"),
            ("", Feed::Spent, "", "ud"),
        ],
    ),
    (
        "d",
        Mode::Repeat,
        &[
            ("udd", Feed::Hit(2), "", "ud"),
            ("d", Feed::Hit(1), "", "d"),
            ("", Feed::Quiet, "", "d"),
        ],
    ),
    (
        "^ab",
        Mode::Repeat,
        &[
            ("ab", Feed::Hit(2), "", "ab"),
            ("abc", Feed::Hit(2), "", "ab"),
        ],
    ),
    (
        "a*",
        Mode::Repeat,
        &[
            ("xy", Feed::Hit(1), "", "x"),
            ("", Feed::Quiet, "", "x"),
            ("y", Feed::Hit(1), "", "y"),
        ],
    ),
    (
        "b$",
        Mode::Repeat,
        &[
            ("abc", Feed::Hit(2), "", "ab"),
            ("c", Feed::Quiet, "c", "ab"),
            ("b", Feed::Hit(1), "", "cb"),
        ],
    ),
];

fn hears_piece(alloc: Global, listener: &mut Listener, row: &Piece) -> io::Result<bool> {
    let (piece, answer, text, hit) = row;
    let piece = word(alloc, piece)?;
    let text = word(alloc, text)?;
    let hit = word(alloc, hit)?;
    Ok(
        listener.feed(piece.as_slice()) == Ok(*answer)
            && *listener.text() == *text.as_slice()
            && *listener.hit() == *hit.as_slice(),
    )
}

fn hears(alloc: Global, listener: &mut Listener, pieces: &[Piece]) -> io::Result<bool> {
    for piece in pieces {
        if !hears_piece(alloc, listener, piece)? {
            return Ok(false);
        }
    }
    Ok(true)
}

fn is_heard_so(alloc: Global, row: &Row) -> io::Result<bool> {
    let (pattern, mode, pieces) = row;
    match listener_for(alloc, pattern, *mode) {
        Ok(mut listener) => hears(alloc, &mut listener, pieces),
        Err(_) => Ok(false),
    }
}

/// The pattern of the first row that isn't so.
fn first_unlike(alloc: Global) -> io::Result<Option<&'static str>> {
    for row in HEARD.iter() {
        if !is_heard_so(alloc, row)? {
            return Ok(Some(row.0));
        }
    }
    Ok(None)
}

/// A letter that a listener for `b` hears so many times in one piece, and the answer; then how many letters it has, how
/// many its hit has, and whether it is spent.
type Run = (u8, usize, Result<Feed, FeedError>, usize, usize, bool);

/// It hits at the last letter for which there is room.
static HITS: [Run; 3] = [
    (b'a', 4095, Ok(Feed::Quiet), 4095, 0, false),
    (b'b', 1, Ok(Feed::Hit(1)), 0, 4096, true),
    (b'a', 1, Ok(Feed::Spent), 0, 4096, true),
];

/// It is full.
static FILLS: [Run; 3] = [
    (b'a', 4096, Ok(Feed::Quiet), 4096, 0, false),
    (b'a', 1, Err(FeedError::Overlong), 4096, 0, false),
    (b'b', 1, Err(FeedError::Overlong), 4096, 0, false),
];

fn hears_run(alloc: Global, listener: &mut Listener, run: &Run) -> Result<bool, AllocError> {
    let (byte, count, answer, text, hit, is_spent) = run;
    let letters = run_of(alloc, *byte, *count)?;
    Ok(
        listener.feed(letters.as_slice()) == *answer
            && listener.text().len() == *text
            && listener.hit().len() == *hit
            && listener.is_spent() == *is_spent,
    )
}

fn hears_runs(alloc: Global, listener: &mut Listener, runs: &[Run]) -> Result<bool, AllocError> {
    for run in runs {
        if !hears_run(alloc, listener, run)? {
            return Ok(false);
        }
    }
    Ok(true)
}

fn are_heard_so(alloc: Global, runs: &[Run]) -> Result<bool, AllocError> {
    match listener_for(alloc, "b", Mode::Once) {
        Ok(mut listener) => hears_runs(alloc, &mut listener, runs),
        Err(_) => Ok(false),
    }
}

/// Whether a piece before its hit, and the same with its hit, are heard so, and leave nothing.
fn hears_and_hits(
    listener: &mut Listener,
    piece: &[Letter],
    hit: &[Letter],
    piece_with_hit: &[Letter],
) -> bool {
    let count = piece_with_hit.len();
    listener.feed(piece) == Ok(Feed::Quiet)
        && *listener.text() == *piece
        && listener.feed(hit) == Ok(Feed::Hit(1))
        && *listener.hit() == *piece_with_hit
        && listener.feed(piece_with_hit) == Ok(Feed::Hit(count))
        && *listener.hit() == *piece_with_hit
        && listener.text().is_empty()
}

/// How many letters the first piece before a hit has that is heard otherwise; none if there is none.
fn piece_unlike(alloc: Global) -> Result<Option<usize>, AllocError> {
    let hit = run_of(alloc, b'b', 1)?;
    let mut letters = run_of(alloc, b'a', 4095)?;
    letters.extend_from_slice(&hit)?;
    let Ok(mut listener) = listener_for(alloc, "b", Mode::Repeat) else {
        return Ok(Some(0));
    };
    for place in 0..SIZES_TRIED - 1 {
        let count = size_at(place);
        let start = letters.len().saturating_sub(count).saturating_sub(1);
        let (Some(piece), Some(with_hit)) = (letters.get(..count), letters.get(start..)) else {
            return Ok(Some(count));
        };
        if !hears_and_hits(&mut listener, piece, &hit, with_hit) {
            return Ok(Some(count));
        }
    }
    Ok(None)
}

/// How many letters that are no hit a listener hears one at a time.
fn letters_one_at_a_time(alloc: Global) -> Result<usize, AllocError> {
    let letters = run_of(alloc, b'a', 5000)?;
    let Ok(mut listener) = listener_for(alloc, "b", Mode::Repeat) else {
        return Ok(0);
    };
    let mut heard: usize = 0;
    for letter in letters.iter() {
        if listener.feed(&[*letter]) != Ok(Feed::Quiet) {
            break;
        }
        heard = heard.wrapping_add(1);
        if listener.text().len() != heard {
            break;
        }
    }
    Ok(heard)
}

/// What a new listener for the pattern answers; none if there is no listener, or it answers nothing.
fn hit_of(alloc: Global, pattern: &str, letters: &[Letter]) -> Option<Feed> {
    match listener_for(alloc, pattern, Mode::Once) {
        Ok(mut listener) => listener.feed(letters).ok(),
        Err(_) => None,
    }
}

/// How many bytes the first pattern of `a` alone has that doesn't hit at as many letters; 201 if there is none. The empty
/// one hits at each letter, and a desk takes no more than 200 bytes.
fn patterns_before_one_unlike(alloc: Global) -> Result<usize, AllocError> {
    let letters = run_of(alloc, b'a', 200)?;
    let mut pattern = String::new(alloc);
    for count in 0..201usize {
        if hit_of(alloc, &pattern, &letters) != Some(Feed::Hit(count.max(1))) {
            return Ok(count);
        }
        pattern.push('a')?;
    }
    Ok(201)
}

#[test]
fn pieces_and_patterns_of_each_size(rt: HostRuntime) -> Result<(), Fail> {
    assert_eq!(rt; piece_unlike(rt.alloc())?, None);
    assert_eq!(rt; letters_one_at_a_time(rt.alloc())?, 4096);
    assert_eq!(rt; patterns_before_one_unlike(rt.alloc())?, 201);
    Ok(())
}

#[test]
fn hits_and_what_they_leave(rt: HostRuntime) -> Result<(), Fail> {
    none_is_unlike(&rt, first_unlike(rt.alloc())?);
    assert!(rt;
        are_heard_so(rt.alloc(), &HITS)?,
        "a hit at the last letter for which there is room"
    );
    assert!(rt; are_heard_so(rt.alloc(), &FILLS)?, "a full listener");
    Ok(())
}
