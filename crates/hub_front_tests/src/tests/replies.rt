//! Lines of replies, and what they are read as.

use hub_letters::Flags;
use hub_protocol::{BorrowedReply, read_reply};
use hub_record::{Kind, Policy, Status};
use hub_requests::{About, LONGEST_REPLY, Refusal};
use std::test::Fail;

const SUPERVISED_UP: Flags = Flags {
    up: true,
    settled: false,
    supervised: true,
    failed: false,
};

const EACH: Flags = Flags {
    up: true,
    settled: true,
    supervised: true,
    failed: true,
};

/// What a line is read as.
static READ: [(&str, BorrowedReply<'static>); 45] = [
    ("ok\n", BorrowedReply::Done),
    ("ok 0\n", BorrowedReply::Number(0)),
    (
        "ok 18446744073709551615\n",
        BorrowedReply::Number(18446744073709551615),
    ),
    (
        "ok 12 5 open\n",
        BorrowedReply::State(Status {
            number: 12,
            flags: SUPERVISED_UP,
            closed: false,
        }),
    ),
    (
        "ok 1000000000000 15 closed\n",
        BorrowedReply::State(Status {
            number: 1000000000000,
            flags: EACH,
            closed: true,
        }),
    ),
    (
        "ok dir 0 1 1000000000000 hold 0 0 0\n",
        BorrowedReply::About(About {
            kind: Kind::Plain,
            notifies: false,
            waiting: 1,
            total: 1000000000000,
            policy: Policy::Hold,
            subscriptions: 0,
            publishers: 0,
            pending: 0,
        }),
    ),
    (
        "ok svc 1 4096 5 evict 1024 3 18446744073709551615\n",
        BorrowedReply::About(About {
            kind: Kind::Service,
            notifies: true,
            waiting: 4096,
            total: 5,
            policy: Policy::Evict,
            subscriptions: 1024,
            publishers: 3,
            pending: 18446744073709551615,
        }),
    ),
    ("got sU\n", BorrowedReply::Got(b"sU")),
    ("got !~\n", BorrowedReply::Got(b"!~")),
    ("got \n", BorrowedReply::Got(b"")),
    ("hit suU\n", BorrowedReply::Hit(b"suU")),
    ("none\n", BorrowedReply::Nothing),
    ("end\n", BorrowedReply::End),
    ("evicted\n", BorrowedReply::Evicted),
    ("yes\n", BorrowedReply::Yes(b"")),
    ("yes 2\n", BorrowedReply::Yes(b"2")),
    ("yes -\n", BorrowedReply::Yes(b"-")),
    ("yes - 2 0\n", BorrowedReply::Yes(b"- 2 0")),
    (
        "yes 1 2 3 4 5 6 7 8 9 10 11 12 13 14 15 16 17 18 19 20 21 22 23 24 25 26 27 28 29 30 31 32\n",
        BorrowedReply::Yes(
            b"1 2 3 4 5 6 7 8 9 10 11 12 13 14 15 16 17 18 19 20 21 22 23 24 25 26 27 28 29 30 31 32",
        ),
    ),
    ("never\n", BorrowedReply::Never),
    ("late\n", BorrowedReply::Late),
    ("names\n", BorrowedReply::Listed(b"")),
    ("names web\n", BorrowedReply::Listed(b"web")),
    ("names a db.1 -\n", BorrowedReply::Listed(b"a db.1 -")),
    (
        "names abcdefghijklmnopqrstuvwxyz012345\n",
        BorrowedReply::Listed(b"abcdefghijklmnopqrstuvwxyz012345"),
    ),
    ("no long\n", BorrowedReply::No(Refusal::Long)),
    ("no text\n", BorrowedReply::No(Refusal::Text)),
    ("no word\n", BorrowedReply::No(Refusal::Word)),
    ("no form\n", BorrowedReply::No(Refusal::Form)),
    ("no range\n", BorrowedReply::No(Refusal::Range)),
    ("no right\n", BorrowedReply::No(Refusal::Right)),
    ("no name\n", BorrowedReply::No(Refusal::Name)),
    ("no exists\n", BorrowedReply::No(Refusal::Exists)),
    ("no kind\n", BorrowedReply::No(Refusal::Kind)),
    ("no id\n", BorrowedReply::No(Refusal::Id)),
    ("no many\n", BorrowedReply::No(Refusal::Many)),
    ("no spent\n", BorrowedReply::No(Refusal::Spent)),
    ("no closed\n", BorrowedReply::No(Refusal::Closed)),
    ("no unlawful 0\n", BorrowedReply::No(Refusal::Unlawful(0))),
    (
        "no unlawful 511\n",
        BorrowedReply::No(Refusal::Unlawful(511)),
    ),
    ("no full\n", BorrowedReply::No(Refusal::Full)),
    ("no pattern\n", BorrowedReply::No(Refusal::Pattern)),
    ("no overlong\n", BorrowedReply::No(Refusal::Overlong)),
    ("no memory\n", BorrowedReply::No(Refusal::Memory)),
    (
        "ok 0 0 open\n",
        BorrowedReply::State(Status {
            number: 0,
            flags: Flags {
                up: false,
                settled: false,
                supervised: false,
                failed: false,
            },
            closed: false,
        }),
    ),
];

/// No lines of replies.
static OTHERS: [&str; 66] = [
    "",
    "\n",
    "ok",
    "ok\r\n",
    "ok \n",
    "ok\nok\n",
    " ok\n",
    "OK\n",
    "okay\n",
    "ok 01\n",
    "ok +1\n",
    "ok -1\n",
    "ok -\n",
    "ok 18446744073709551616\n",
    "ok 1 \n",
    "ok 1 2\n",
    "ok 1 16 open\n",
    "ok 1 02 open\n",
    "ok 1 2 Open\n",
    "ok 1 2 open \n",
    "ok 1 2 open open\n",
    "ok  1 2 open\n",
    "ok dir\n",
    "ok Dir 0 1 1 hold 0 0 0\n",
    "ok log 0 1 1 hold 0 0 0\n",
    "ok dir 2 1 1 hold 0 0 0\n",
    "ok dir 00 1 1 hold 0 0 0\n",
    "ok dir 0 01 1 hold 0 0 0\n",
    "ok dir 0 1 - hold 0 0 0\n",
    "ok dir 0 1 1 holds 0 0 0\n",
    "ok svc 1 1 1 evict 0 0\n",
    "ok svc 1 1 1 evict 0 0 0 0\n",
    "ok svc 1 1 1 evict 0 0 \n",
    "ok svc 1 1 1 0 0 0\n",
    "got\n",
    "got s U\n",
    "got s\tU\n",
    "got \u{7f}\n",
    "got é\n",
    "hit\n",
    "hit a \n",
    "none \n",
    "none 1\n",
    "end x\n",
    "evicted web\n",
    "yes \n",
    "yes 01\n",
    "yes --\n",
    "yes 1  2\n",
    "yes 1 2 3 4 5 6 7 8 9 10 11 12 13 14 15 16 17 18 19 20 21 22 23 24 25 26 27 28 29 30 31 32 33\n",
    "yes 18446744073709551616\n",
    "never 1\n",
    "late -\n",
    "names \n",
    "names a  b\n",
    "names a/b\n",
    "names abcdefghijklmnopqrstuvwxyz0123456\n",
    "no\n",
    "no \n",
    "no such\n",
    "no name \n",
    "no name web\n",
    "no unlawful\n",
    "no unlawful -\n",
    "no unlawful 1 2\n",
    "no  name\n",
];

#[test]
fn a_line_is_read_as_its_reply(rt: HostRuntime) -> Result<(), Fail> {
    for (text, want) in READ {
        assert_eq!(rt; read_reply(text.as_bytes()), Some(want), "{text}");
    }
    Ok(())
}

#[test]
fn other_lines_are_no_reply(rt: HostRuntime) -> Result<(), Fail> {
    for text in OTHERS {
        assert_eq!(rt; read_reply(text.as_bytes()), None, "{text}");
    }
    Ok(())
}

// As many letters as the longest reply has, and one more.
#[test]
fn a_reply_has_an_end(rt: HostRuntime) -> Result<(), Fail> {
    for (count, wanted) in [(4095, Some(4095)), (4096, Some(4096)), (4097, None)] {
        let mut text = Vec::from_slice(rt.alloc(), b"got ")?;
        for _ in 0..count {
            text.push(b'u')?;
        }
        text.push(b'\n')?;
        let letters = match read_reply(&text) {
            Some(BorrowedReply::Got(letters)) => Some(letters.len()),
            _ => None,
        };
        assert_eq!(rt; letters, wanted, "{count}");
        assert_eq!(rt; text.len() <= LONGEST_REPLY, wanted.is_some(), "{count}");
    }
    Ok(())
}
