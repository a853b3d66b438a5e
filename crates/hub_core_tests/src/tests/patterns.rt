//! Texts that are patterns, and texts that are none.
use crate::tests::fixtures::none_is_unlike;
use crate::tests::listeners::listener_for;
use hub_listen::{ListenError, Mode};
use regex::Regex;
use std::alloc::Global;

/// Texts that are no pattern, and whether `regex` reads each, and refuses it for its size.
static NO_PATTERNS: [(&str, bool); 8] = [
    ("(", false),
    ("a)", false),
    ("[b-a]", false),
    ("*", false),
    ("\\", false),
    ("a{4000000000}", true),
    ("(?:a{1000}){1000}", true),
    ("(?:(?:\\w{99}){99}){99}", true),
];

/// Texts, and whether each is a pattern for which a listener keeps at most 64 KiB.
static SIZES: [(&str, bool); 20] = [
    (".{100}", true),
    ("[a-z]{200}", true),
    ("\\w{20}", true),
    ("\\w{100}", true),
    ("\\w{100}Z", true),
    ("((\\pL{9}){9}){5}", true),
    ("(?i)[k]{100}", true),
    ("\\S+", true),
    ("[^a]{1000}", true),
    ("(?-u:\\w{100})", true),
    ("(x+x+)+y", true),
    (".{1458}", true),
    (".{1459}", false),
    ("\\w{727}", true),
    ("\\w{728}", false),
    ("((a?){300}){300}z", false),
    ("(?:[ab]?){10900}z", false),
    ("(?:(?:a|b|){74}){74}c", false),
    ("(?:(?:[ab]?){104}){104}c", false),
    ("(?-u:.)", false),
];

/// Whether a listener is made for the text, or none if it is refused for want of memory.
fn is_pattern(alloc: Global, text: &str) -> Option<bool> {
    match listener_for(alloc, text, Mode::Once) {
        Ok(_) => Some(true),
        Err(ListenError::Pattern) | Err(ListenError::Large) => Some(false),
        Err(_) => None,
    }
}

fn is_too_large(alloc: Global, text: &str) -> bool {
    matches!(Regex::new(alloc, text), Err(regex::Error::CompiledTooBig))
}

/// The first text that is a pattern, or whose size is another than its row says.
fn first_no_pattern_unlike(alloc: Global) -> Option<&'static str> {
    for (text, large) in NO_PATTERNS.iter() {
        if is_pattern(alloc, text) != Some(false) || is_too_large(alloc, text) != *large {
            return Some(*text);
        }
    }
    None
}

/// The first text that is a pattern and shouldn't be, or the other way round.
fn first_size_unlike(alloc: Global) -> Option<&'static str> {
    for (text, fits) in SIZES.iter() {
        if is_pattern(alloc, text) != Some(*fits) {
            return Some(*text);
        }
    }
    None
}

#[test]
fn patterns_by_text_and_size(rt: HostRuntime) {
    none_is_unlike(&rt, first_no_pattern_unlike(rt.alloc()));
    none_is_unlike(&rt, first_size_unlike(rt.alloc()));
}
