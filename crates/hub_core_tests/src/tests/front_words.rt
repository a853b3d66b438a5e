//! Front words, as they are packed.
use hub_fifodir::word;
use hub_letters::Flags;
use hub_record::Status;

/// The number, the code of the flags, whether it is closed, and the front word.
static WORDS: [(u64, u64, bool, u64); 6] = [
    (0, 0, false, 0),
    (2, 5, false, 69),
    (2, 0, true, 80),
    (3, 7, false, 103),
    (3, 7, true, 119),
    (5, 14, false, 174),
];

/// Whether each status is packed into its word, and read from it.
fn words_are_those_of_the_rows() -> bool {
    for (number, code, closed, want) in WORDS.iter() {
        let Some(flags) = Flags::of_code(*code) else {
            return false;
        };
        let status = Status {
            number: *number,
            flags,
            closed: *closed,
        };
        if word::pack(status) != *want || word::unpack(*want) != status {
            return false;
        }
    }
    true
}

#[test]
fn front_words_are_packed(rt: HostRuntime) {
    assert!(rt; words_are_those_of_the_rows(), "front words");
}
