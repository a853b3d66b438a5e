//! Classes of characters that reach beyond the letters: in texts of letters they mean what `regex` reads in them.
use crate::tests::fixtures::none_is_unlike;
use crate::tests::listeners::listener_for;
use hub_letters::Letter;
use hub_listen::{Feed, Mode};
use regex::Regex;
use std::alloc::Global;

/// Classes, and the letters that each has, in the order of their bytes.
static CLASSES: [(&str, &str); 29] = [
    (".", EACH),
    ("\\S", EACH),
    ("\\s", ""),
    ("[!-~]", EACH),
    ("[^\\s]", EACH),
    (
        "[^!]",
        "\"#$%&'()*+,-./0123456789:;<=>?@ABCDEFGHIJKLMNOPQRSTUVWXYZ[\\]^_`abcdefghijklmnopqrstuvwxyz{|}~",
    ),
    (
        "[^~]",
        "!\"#$%&'()*+,-./0123456789:;<=>?@ABCDEFGHIJKLMNOPQRSTUVWXYZ[\\]^_`abcdefghijklmnopqrstuvwxyz{|}",
    ),
    ("[^!-}]", "~"),
    ("[^\"-~]", "!"),
    ("[\\x{0}-!]", "!"),
    ("[~-\\x{10FFFF}]", "~"),
    ("[\\x{0}-\\x20]", ""),
    ("[\\x7F-\\x{10FFFF}]", ""),
    ("[^\\x{0}-\\x{10FFFF}]", ""),
    (
        "\\w",
        "0123456789ABCDEFGHIJKLMNOPQRSTUVWXYZ_abcdefghijklmnopqrstuvwxyz",
    ),
    ("\\W", "!\"#$%&'()*+,-./:;<=>?@[\\]^`{|}~"),
    ("[^\\w!]", "\"#$%&'()*+,-./:;<=>?@[\\]^`{|}~"),
    ("\\d", "0123456789"),
    ("[^\\D5]", "012346789"),
    ("\\p{Greek}", ""),
    ("[\\p{Greek}a]", "a"),
    ("\\P{Greek}", EACH),
    ("\\p{Lu}", "ABCDEFGHIJKLMNOPQRSTUVWXYZ"),
    ("(?i)k", "Kk"),
    ("(?i)[k]", "Kk"),
    (
        "(?i)[^k]",
        "!\"#$%&'()*+,-./0123456789:;<=>?@ABCDEFGHIJLMNOPQRSTUVWXYZ[\\]^_`abcdefghijlmnopqrstuvwxyz{|}~",
    ),
    ("(?i)[\\x{212A}\\x{17F}]", "KSks"),
    (
        "(?-u:\\w)",
        "0123456789ABCDEFGHIJKLMNOPQRSTUVWXYZ_abcdefghijklmnopqrstuvwxyz",
    ),
    ("(?-u:[[:punct:]])", "!\"#$%&'()*+,-./:;<=>?@[\\]^_`{|}~"),
];

const EACH: &str =
    "!\"#$%&'()*+,-./0123456789:;<=>?@ABCDEFGHIJKLMNOPQRSTUVWXYZ[\\]^_`abcdefghijklmnopqrstuvwxyz{|}~";

/// Patterns of such classes.
static PATTERNS: [&str; 18] = [
    "\\W\\w",
    "[^a]b",
    "(?i)[k-m]+z",
    "\\b\\w{3}\\b",
    "(?:\\W|\\x{E9}|a)+!",
    ".{3}~",
    "[^\\W\\d]{2}",
    "\\pL\\PL",
    "(?:[\\x{E9}-\\x{FF}]|x)y",
    "\\x{E9}|b",
    "[\\x{E9}]*c",
    "(?:[\\x{3B1}-\\x{3C9}]a|bc)+d",
    "^\\S+$",
    "\\B.\\B",
    "(?i)(?:s|\\x{E9})\\Ws",
    "(?:.a??)*?[^!-}]",
    "\\p{Greek}?(?:[^\\p{Latin}]|Z)\\w{2,}?[^-~]",
    "(?-u:\\b\\w)[^ \\x{80}-\\x{10FFFF}]{2}\\.",
];

static TEXTS: [&str; 10] = [
    "!a~b.c!xyd~~",
    "abc-def.ghi",
    "a!b!abc!~!.!",
    "LMz.klmZ",
    "s!S.s~s",
    "bcbcad.xy",
    "_0_1a!Z!aa1~",
    "~~~~",
    "!!!",
    "Q1.w2,e3;R4:t5",
];

/// The letter with this byte, which a listener hears alone.
fn hits_alone(alloc: Global, pattern: &str, byte: u8) -> Option<bool> {
    let letter = Letter::of(byte)?;
    let mut listener = listener_for(alloc, pattern, Mode::Repeat).ok()?;
    Some(listener.feed(&[letter]) == Ok(Feed::Hit(1)))
}

/// The first class that has other letters than its row says.
fn first_class_unlike(alloc: Global) -> Option<&'static str> {
    for (class, letters) in CLASSES.iter() {
        for byte in b'!'..=b'~' {
            if hits_alone(alloc, class, byte) != Some(letters.as_bytes().contains(&byte)) {
                return Some(*class);
            }
        }
    }
    None
}

/// Whether a listener has its hits where `regex` first finds a match in what was gathered.
fn hits_as_found(alloc: Global, pattern: &str, text: &str) -> Option<bool> {
    let regex = Regex::new(alloc, pattern).ok()?;
    let mut matcher = regex.matcher(alloc).ok()?;
    let mut listener = listener_for(alloc, pattern, Mode::Repeat).ok()?;
    let mut from = 0;
    for end in 1..=text.len() {
        let letter = Letter::of(*text.as_bytes().get(end - 1)?)?;
        let hit = listener.feed(&[letter]) == Ok(Feed::Hit(1));
        if hit != matcher.is_match(text.get(from..end)?) {
            return Some(false);
        }
        if hit {
            from = end;
        }
    }
    Some(true)
}

/// The first pattern with other hits in one of the texts.
fn first_pattern_unlike(alloc: Global) -> Option<&'static str> {
    for pattern in PATTERNS.iter() {
        for text in TEXTS.iter() {
            if hits_as_found(alloc, pattern, text) != Some(true) {
                return Some(*pattern);
            }
        }
    }
    None
}

#[test]
fn classes_have_their_letters(rt: HostRuntime) {
    none_is_unlike(&rt, first_class_unlike(rt.alloc()));
}

#[test]
fn hits_are_where_regex_finds_a_match(rt: HostRuntime) {
    none_is_unlike(&rt, first_pattern_unlike(rt.alloc()));
}
