//! Lines and what they are read as.

use hub_protocol::{Bad, parse, write_request};
use hub_requests::Request;
use std::alloc::Global;
use std::process::Abort;

/// A line, of which a test knows nothing.
pub fn read(alloc: Global, line: &[u8]) -> Result<Request, Bad> {
    parse(alloc, line)
}

/// Lines that spell requests.
static GOOD: [&str; 34] = [
    "dir web 64 1000",
    "dir w 1 1",
    "dir w 4096 1000000000000",
    "svc v 4 10 0",
    "svc v 4 10 1",
    // The last word.
    "dir evict 64 1000 evict",
    "svc v 4 10 0 evict",
    "svc v 4 10 1 evict",
    "sub A-Z_a.z09",
    "sub abcdefghijklmnopqrstuvwxyz012345",
    "pub web !~x",
    "take 1 256",
    "take 0 1",
    "cancel 9999999999999",
    "close dir",
    "status -",
    "listen web repeat u.*U",
    "listen web once (",
    "listen w once  ",
    "listen w repeat  a  b ",
    "poll 1",
    "poll 9999999999999",
    "await 1 0",
    "await 0 1000000",
    "await 9999999999999 5000",
    "names 0",
    "names 9999999999999",
    "wait all up 0 web web",
    "wait any ready 2 b a",
    "wait any down 1000000 v",
    "wait all finished 3 web",
    "wait all restarted 5 web",
    "wait any restarted-ready 30000 db web",
    "wait any up 1 a b c d e f g h i j k l m n o p q r s t u v w x y z 1 2 3 4 5 6",
];

/// The line is read, and what is read is written as the line again. Which request that is, the contracts of `parse` and
/// `write_request` say; what it does, the rows of `hub_rows` say.
fn expect_request(rt: &impl Abort, alloc: Global, line: &str) {
    let request = read(alloc, line.as_bytes());
    assert!(rt; request.is_ok(), "{line}");
    if let Ok(request) = request {
        expect_line(rt, alloc, &request, line);
    }
}

/// The line of the request is this one, with an LF.
fn expect_line(rt: &impl Abort, alloc: Global, request: &Request, line: &str) {
    let mut out = Vec::new(alloc);
    let written = write_request(request, &mut out);
    assert!(rt; written.is_ok(), "{line}");
    assert_eq!(rt; out.len(), line.len() + 1, "{line}");
    assert!(rt; out.starts_with(line.as_bytes()), "{line}");
    assert!(rt; out.ends_with(b"\n"), "{line}");
}

#[test]
fn good_lines_spell_requests(rt: HostRuntime) {
    for line in &GOOD {
        expect_request(&rt, rt.alloc(), line);
    }
}

/// Lines, and the first rule that each breaks.
static BAD: [(&str, Bad); 115] = [
    ("dir web 0 10", Bad::Range),
    ("dir web 4097 10", Bad::Range),
    ("dir web 04 10", Bad::Form),
    ("dir we+b 4 10", Bad::Form),
    ("DIR web 4 10", Bad::Word),
    ("take 1 257", Bad::Range),
    ("pub web", Bad::Form),
    ("", Bad::Word),
    ("sub\tweb", Bad::Text),
    // Spaces.
    (" sub web", Bad::Word),
    (" ", Bad::Word),
    ("sub ", Bad::Form),
    ("sub", Bad::Form),
    ("sub  web", Bad::Form),
    ("sub web ", Bad::Form),
    ("dir web  4 10", Bad::Form),
    ("pub web a b", Bad::Form),
    ("pub web ", Bad::Form),
    // Other bytes, and their place among the rules.
    ("sub web\r", Bad::Text),
    ("sub web\x7f", Bad::Text),
    ("nonsense\n", Bad::Text),
    ("nonsense", Bad::Word),
    ("dirs web 4 10", Bad::Word),
    ("di web 4 10", Bad::Word),
    ("dir we+b 0 0", Bad::Form),
    ("dir web 0 10 1", Bad::Form),
    // Numerals.
    ("cancel 00", Bad::Form),
    ("cancel 01", Bad::Form),
    ("cancel +1", Bad::Form),
    ("cancel 1a", Bad::Form),
    ("cancel 10000000000000", Bad::Form),
    ("take 1 9999999999999", Bad::Range),
    // Ranges.
    ("take 1 0", Bad::Range),
    ("dir web 4 0", Bad::Range),
    ("dir web 4 1000000000001", Bad::Range),
    ("svc v 4 10 2", Bad::Range),
    ("svc v 0 10 1", Bad::Range),
    // The last word.
    ("dir web 64 1000 Evict", Bad::Form),
    ("dir web 64 1000 evicts", Bad::Form),
    ("dir web 64 1000 evic", Bad::Form),
    ("dir web 64 1000 evict x", Bad::Form),
    ("dir web 64 1000 evict evict", Bad::Form),
    ("dir web 64 1000  evict", Bad::Form),
    ("dir web 64 1000 evict ", Bad::Form),
    ("dir web 64 1000 ", Bad::Form),
    ("dir web 64 evict", Bad::Form),
    ("svc db 64 1000 evict", Bad::Form),
    ("svc db 64 1000 1 evict 1", Bad::Form),
    ("svc db 64 1000 2 evict", Bad::Range),
    ("dir web 0 1000 evict", Bad::Range),
    ("dir web 0 1000 Evict", Bad::Form),
    // A name has at most 32 bytes.
    ("sub abcdefghijklmnopqrstuvwxyz0123456", Bad::Form),
    // Listeners.
    ("listen", Bad::Form),
    ("listen w", Bad::Form),
    ("listen w once", Bad::Form),
    ("listen w once ", Bad::Form),
    ("listen w  once u", Bad::Form),
    ("listen w twice u", Bad::Form),
    ("listen w+ once u", Bad::Form),
    ("listen w once u\t", Bad::Text),
    ("listens w once u", Bad::Word),
    ("poll", Bad::Form),
    ("poll 1 1", Bad::Form),
    ("poll 10000000000000", Bad::Form),
    // Sleeping for a handle.
    ("await", Bad::Form),
    ("await ", Bad::Form),
    ("await 1", Bad::Form),
    ("await 1 ", Bad::Form),
    ("await 1 2 3", Bad::Form),
    ("await 1  2", Bad::Form),
    ("await 1 02", Bad::Form),
    ("await 01 2", Bad::Form),
    ("await web 2", Bad::Form),
    ("await 10000000000000 2", Bad::Form),
    ("await 1 10000000000000", Bad::Form),
    ("await 1000001 0 ", Bad::Form),
    ("await 1 1000001", Bad::Range),
    ("await 9999999999999 9999999999999", Bad::Range),
    ("awaits 1 2", Bad::Word),
    ("awai 1 2", Bad::Word),
    // The names of fifodirs.
    ("names", Bad::Form),
    ("names ", Bad::Form),
    ("names 0 ", Bad::Form),
    ("names  0", Bad::Form),
    ("names 0 1", Bad::Form),
    ("names 00", Bad::Form),
    ("names 01", Bad::Form),
    ("names web", Bad::Form),
    ("names -1", Bad::Form),
    ("names 10000000000000", Bad::Form),
    ("names 12345678901234567890", Bad::Form),
    ("names 1234567890123456789012345", Bad::Form),
    ("namess 0", Bad::Word),
    ("name 0", Bad::Word),
    // Waits.
    ("wait all up 0", Bad::Form),
    ("wait all up 0 ", Bad::Form),
    ("wait all up 0 web ", Bad::Form),
    ("wait all up 0  web", Bad::Form),
    ("wait all up 0 a  b", Bad::Form),
    ("wait both up 0 web", Bad::Form),
    ("wait all gone 0 web", Bad::Form),
    ("wait all restart 5 web", Bad::Form),
    ("wait all Restarted 5 web", Bad::Form),
    ("wait all restarted-Ready 5 web", Bad::Form),
    ("wait all restarted_ready 5 web", Bad::Form),
    ("wait all restarted- 5 web", Bad::Form),
    ("wait all restarted-ready", Bad::Form),
    ("wait up all 0 web", Bad::Form),
    ("wait all up 01 web", Bad::Form),
    (
        "wait any up 1 a b c d e f g h i j k l m n o p q r s t u v w x y z 1 2 3 4 5 6 7",
        Bad::Form,
    ),
    ("wait all up 1000001 web", Bad::Range),
    ("wait all up 9999999999999 web", Bad::Range),
    ("wait all up 10000000000000 web", Bad::Form),
    ("wait all up 1000001 we+b", Bad::Form),
    ("wait all up 1000001", Bad::Form),
];

#[test]
fn other_lines_are_refused_by_the_first_rule_they_break(rt: HostRuntime) {
    for (line, want) in &BAD {
        let answer = read(rt.alloc(), line.as_bytes());
        assert_eq!(rt; answer.err(), Some(*want), "{line}");
    }
}
