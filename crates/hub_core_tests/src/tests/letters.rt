use crate::tests::fixtures::{none_is_unlike, word};
use hub_letters::{Flags, Letter, Stage};
use std::alloc::Global;
use std::io;
use std::test::Fail;

/// A byte, and whether it is a letter.
static BYTES: [(u8, bool); 4] = [(0x20, false), (0x21, true), (0x7E, true), (0x7F, false)];

fn letters_are_from_bang_to_tilde() -> bool {
    for (byte, is_letter) in BYTES.iter() {
        let is_so = match Letter::of(*byte) {
            Some(letter) => *is_letter && letter.byte() == *byte,
            None => !*is_letter,
        };
        if !is_so {
            return false;
        }
    }
    Letter::LEAST.byte() == b'!'
}

/// Whether just `s`, `d` and `D` fall, by themselves and among others.
fn s_d_and_big_d_fall() -> bool {
    for byte in b'!'..=b'~' {
        let Some(letter) = Letter::of(byte) else {
            return false;
        };
        let falls = byte == b's' || byte == b'd' || byte == b'D';
        let among = [Letter::LEAST, letter, Letter::LEAST];
        if letter.falls() != falls || Letter::any_falls(&among) != falls {
            return false;
        }
    }
    !Letter::any_falls(&[])
}

/// The letters of the columns of `NEXT`.
static LETTERS: [u8; 8] = *b"suUdDOxa";

const OFF: Option<Stage> = Some(Stage::Off);

const IDLE: Option<Stage> = Some(Stage::Idle);

const STARTING: Option<Stage> = Some(Stage::Starting);

const READY: Option<Stage> = Some(Stage::Ready);

const ENDING: Option<Stage> = Some(Stage::Ending);

/// By stage, the stage after each letter; none if the letter is unlawful there.
static NEXT: [(Stage, &[Option<Stage>]); 5] = [
    (
        Stage::Off,
        &[IDLE, None, None, None, None, None, None, None],
    ),
    (
        Stage::Idle,
        &[IDLE, STARTING, None, None, None, IDLE, OFF, None],
    ),
    (
        Stage::Starting,
        &[IDLE, None, READY, ENDING, None, STARTING, OFF, None],
    ),
    (
        Stage::Ready,
        &[IDLE, None, None, ENDING, None, READY, OFF, None],
    ),
    (
        Stage::Ending,
        &[IDLE, None, None, None, IDLE, ENDING, OFF, None],
    ),
];

fn leads_to(stage: Stage, row: &[Option<Stage>]) -> bool {
    for (byte, next) in LETTERS.iter().zip(row.iter()) {
        match Letter::of(*byte) {
            Some(letter) if stage.next(letter) == *next => {}
            _ => return false,
        }
    }
    row.len() == LETTERS.len()
}

fn stages_lead_to_their_next() -> bool {
    for (stage, row) in NEXT.iter() {
        if !leads_to(*stage, row) {
            return false;
        }
    }
    true
}

fn codes_and_flags_are_one_to_one() -> bool {
    let started = Flags {
        up: true,
        settled: false,
        supervised: true,
        failed: false,
    };
    started.code() == 5 && Flags::of_code(5) == Some(started) && Flags::of_code(16).is_none()
}

/// A word, the first place with an unlawful letter, and the code of the flags after the word.
type Row = (&'static str, Option<u64>, u64);

static WORDS: [Row; 22] = [
    ("", None, 0),
    ("s", None, 6),
    ("su", None, 5),
    ("suU", None, 7),
    ("sud", None, 4),
    ("sudD", None, 6),
    ("suUdDu", None, 5),
    ("suO", None, 13),
    ("suOdD", None, 14),
    ("suOdDu", None, 5),
    ("sOx", None, 10),
    ("sus", None, 6),
    ("sux", None, 1),
    ("susx", None, 2),
    ("sxsu", None, 5),
    ("O", Some(0), 8),
    ("u", Some(0), 1),
    ("sU", Some(1), 7),
    ("sudu", Some(3), 5),
    ("sxO", Some(2), 10),
    ("suu", Some(2), 5),
    ("sdD", Some(1), 6),
];

/// What `s6-supervise` 2.11.3.2 was seen to send, and the code of the flags after it. All of it is lawful.
static SENT: [(&str, u64); 12] = [
    ("su", 5),
    ("s", 6),
    ("suU", 7),
    ("sudD", 6),
    ("sudDu", 5),
    ("suUd", 4),
    ("suUdDuU", 7),
    ("suUdOD", 14),
    ("suUdODuU", 7),
    ("sx", 2),
    ("suUx", 3),
    ("suUsuU", 7),
];

/// Whether this is the first place of the word with an unlawful letter, and the code of the flags after it.
fn is_so(alloc: Global, text: &str, place: Option<u64>, code: u64) -> io::Result<bool> {
    let letters = word(alloc, text)?;
    let unlawful = Stage::Off.follow(letters.as_slice()).err();
    let flags = Flags::none().after_all(letters.as_slice());
    Ok(unlawful == place && flags.code() == code)
}

/// The first word that isn't as its row says.
fn first_unlike(alloc: Global) -> io::Result<Option<&'static str>> {
    for (text, place, code) in WORDS.iter() {
        if !is_so(alloc, text, *place, *code)? {
            return Ok(Some(*text));
        }
    }
    for (text, code) in SENT.iter() {
        if !is_so(alloc, text, None, *code)? {
            return Ok(Some(*text));
        }
    }
    Ok(None)
}

#[test]
fn letters_stages_and_flags(rt: HostRuntime) {
    assert!(rt;
        letters_are_from_bang_to_tilde(),
        "letters are the bytes from bang to tilde"
    );
    assert!(rt; s_d_and_big_d_fall(), "the letters that fall");
    assert!(rt;
        stages_lead_to_their_next(),
        "the next stage by stage and letter"
    );
    assert!(rt; codes_and_flags_are_one_to_one(), "codes and flags");
}

#[test]
fn lawful_words_and_their_flags(rt: HostRuntime) -> Result<(), Fail> {
    none_is_unlike(&rt, first_unlike(rt.alloc())?);
    Ok(())
}
