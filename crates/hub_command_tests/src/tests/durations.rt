//! The milliseconds that durations spell.
use hub_ask::millis_of;
use std::test::Fail;

/// The milliseconds of durations, as timeout(1) and systemd.time(7) read them.
static DURATIONS: [(&str, u64); 26] = [
    ("0", 0),
    ("0ms", 0),
    ("0.0s", 0),
    ("007", 7_000),
    ("90", 90_000),
    ("0.5", 500),
    ("1ms", 1),
    ("500ms", 500),
    ("1.0ms", 1),
    ("1s", 1_000),
    ("0.5s", 500),
    ("0.25s", 250),
    ("0.125s", 125),
    ("0.001s", 1),
    ("2.000s", 2_000),
    ("1m", 60_000),
    ("1.5m", 90_000),
    ("0.001m", 60),
    ("2m", 120_000),
    ("1h", 3_600_000),
    ("0.1h", 360_000),
    ("0.999h", 3_596_400),
    ("3600000s", 3_600_000_000),
    ("3600000000ms", 3_600_000_000),
    ("999.999h", 3_599_996_400),
    ("1000h", 3_600_000_000),
];

/// What is none, or too long.
static OTHERS: &str =
    "s ms m h . .5 5. 5.s .5s 1.5.5 5x 5S 5M 5H 5d 5us 5min 5sec 1h30m 1,5s 5e3 0x5 +5 -5 -5s s5 5ss 5sm 5mss
    0.5ms 0.0005s 0.0001h 1.0000s 0.5.ms inf infinity nan ٣s 5ſ 1000.001h 1001h 3600001s 3600000001ms
    18446744073709551616 18446744073709551616ms 18446744073709551.616s 99999999999999999999h 5124095576030431h";

#[test]
fn durations(rt: HostRuntime) -> Result<(), Fail> {
    for (text, millis) in &DURATIONS {
        assert_eq!(rt; millis_of(text), Some(*millis), "at {text}");
    }
    for text in OTHERS.split_whitespace() {
        assert_eq!(rt; millis_of(text), None, "at {text}");
    }
    for text in &["", " ", "5 s", " 5s", "5s ", "5\n", "5s\n"] {
        assert_eq!(rt; millis_of(text), None, "at {text:?}");
    }
    Ok(())
}
