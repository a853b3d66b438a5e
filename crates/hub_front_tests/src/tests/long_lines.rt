//! The longest line, and the longest pattern.
use crate::tests::parsing::read;
use crate::tests::relay_sizes::text_of;
use hub_protocol::Bad;
use std::test::Fail;

/// The front of a line, how often a letter follows, and the end; then the size of the line, and the rule that it breaks. A
/// line has at most 512 bytes, and a pattern 200.
static LONG: [(&str, u8, usize, &str, usize, Option<Bad>); 6] = [
    ("pub web ", b'a', 504, "", 512, None),
    ("pub web ", b'a', 505, "", 513, Some(Bad::Long)),
    ("pub web ", b'a', 503, "\r", 512, Some(Bad::Text)),
    ("pub web ", b'a', 503, "\ra", 513, Some(Bad::Long)),
    ("listen w once ", b' ', 200, "", 214, None),
    ("listen w once ", b' ', 201, "", 215, Some(Bad::Form)),
];

#[test]
fn lines_and_patterns_have_their_longest(rt: HostRuntime) -> Result<(), Fail> {
    for (front, letter, count, end, size, want) in &LONG {
        let line = text_of(rt.alloc(), front, *letter, *count, end)?;
        let answer = read(rt.alloc(), &line);
        assert_eq!(rt; line.len(), *size);
        assert_eq!(rt; answer.err(), *want, "{size} bytes");
    }
    Ok(())
}
