//! The text of each reply.

use hub_letters::{Flags, Letter, MOST_GATHERED};
use hub_protocol::write_reply;
use hub_record::{Kind, Policy, Status};
use hub_requests::{About, Excerpt, MOST_SERVICES, Name, Numbers, Refusal, Reply, names_reply};
use std::alloc::{AllocError, Global};
use std::process::Abort;
use std::test::Fail;

/// What a reply is made of.
#[derive(Clone, Copy)]
enum Form {
    Done,
    Number(u64),
    State(Status),
    About(About),
    Got(&'static [u8]),
    Hit(&'static [u8]),
    Nothing,
    End,
    Evicted,
    Yes(&'static [Option<u64>]),
    Never,
    Late,
    Names(&'static [&'static str]),
    No(Refusal),
}

fn letters_of(rt: &impl Abort, alloc: Global, text: &[u8]) -> Result<Excerpt, AllocError> {
    let mut letters = Vec::new(alloc);
    for byte in text {
        letters.push(Letter::of(*byte).expect(rt, "a letter"))?;
    }
    assert!(rt; letters.len() <= MOST_GATHERED);
    Ok(Excerpt::of(letters))
}

fn numbers_of(rt: &impl Abort, alloc: Global, list: &[Option<u64>]) -> Result<Numbers, AllocError> {
    let mut numbers = Vec::new(alloc);
    for number in list {
        numbers.push(*number)?;
    }
    assert!(rt; numbers.len() <= MOST_SERVICES);
    Ok(Numbers::of(numbers))
}

/// The reply that lists these names.
fn listing_of(rt: &impl Abort, alloc: Global, list: &[&str]) -> Result<Reply, AllocError> {
    let mut names = Vec::new(alloc);
    for text in list {
        let name = Name::of(alloc, text.as_bytes())?;
        names.push(name.expect(rt, "a name"))?;
    }
    names_reply(alloc, &names, 0)
}

fn reply_of(rt: &impl Abort, alloc: Global, form: Form) -> Result<Reply, AllocError> {
    Ok(match form {
        Form::Done => Reply::Done,
        Form::Number(number) => Reply::Number(number),
        Form::State(status) => Reply::State(status),
        Form::About(about) => Reply::About(about),
        Form::Got(letters) => Reply::Got(letters_of(rt, alloc, letters)?),
        Form::Hit(letters) => Reply::Hit(letters_of(rt, alloc, letters)?),
        Form::Nothing => Reply::Nothing,
        Form::End => Reply::End,
        Form::Evicted => Reply::Evicted,
        Form::Yes(numbers) => Reply::Yes(numbers_of(rt, alloc, numbers)?),
        Form::Never => Reply::Never,
        Form::Late => Reply::Late,
        Form::Names(names) => listing_of(rt, alloc, names)?,
        Form::No(refusal) => Reply::No(refusal),
    })
}

const OPEN: Status = Status {
    number: 12,
    flags: Flags {
        up: true,
        settled: false,
        supervised: true,
        failed: false,
    },
    closed: false,
};

const CLOSED: Status = Status {
    number: 0,
    flags: Flags {
        up: false,
        settled: false,
        supervised: false,
        failed: false,
    },
    closed: true,
};

const HELD: About = About {
    kind: Kind::Plain,
    notifies: false,
    waiting: 64,
    total: 1000,
    policy: Policy::Hold,
    subscriptions: 2,
    publishers: 3,
    pending: 4,
};

const EVICTING: About = About {
    kind: Kind::Service,
    notifies: true,
    waiting: 1,
    total: 1000000000000,
    policy: Policy::Evict,
    subscriptions: 0,
    publishers: 0,
    pending: 0,
};

/// Each reply, and its text.
static REPLIES: [(Form, &str); 37] = [
    (Form::Done, "ok\n"),
    (Form::Number(0), "ok 0\n"),
    (
        Form::Number(18446744073709551615),
        "ok 18446744073709551615\n",
    ),
    (Form::State(OPEN), "ok 12 5 open\n"),
    (Form::State(CLOSED), "ok 0 0 closed\n"),
    (Form::About(HELD), "ok dir 0 64 1000 hold 2 3 4\n"),
    (
        Form::About(EVICTING),
        "ok svc 1 1 1000000000000 evict 0 0 0\n",
    ),
    (Form::Got(b"sU"), "got sU\n"),
    (Form::Nothing, "none\n"),
    (Form::End, "end\n"),
    (Form::Evicted, "evicted\n"),
    (Form::Hit(b"suU"), "hit suU\n"),
    (Form::Yes(&[Some(2)]), "yes 2\n"),
    (Form::Yes(&[None, Some(2)]), "yes - 2\n"),
    (Form::Never, "never\n"),
    (Form::Late, "late\n"),
    (Form::Names(&[]), "none\n"),
    (Form::Names(&["web"]), "names web\n"),
    (Form::Names(&["a", "db.1"]), "names a db.1\n"),
    (Form::No(Refusal::Unlawful(10)), "no unlawful 10\n"),
    (Form::No(Refusal::Long), "no long\n"),
    (Form::No(Refusal::Text), "no text\n"),
    (Form::No(Refusal::Word), "no word\n"),
    (Form::No(Refusal::Form), "no form\n"),
    (Form::No(Refusal::Range), "no range\n"),
    (Form::No(Refusal::Right), "no right\n"),
    (Form::No(Refusal::Name), "no name\n"),
    (Form::No(Refusal::Exists), "no exists\n"),
    (Form::No(Refusal::Kind), "no kind\n"),
    (Form::No(Refusal::Id), "no id\n"),
    (Form::No(Refusal::Many), "no many\n"),
    (Form::No(Refusal::Spent), "no spent\n"),
    (Form::No(Refusal::Closed), "no closed\n"),
    (Form::No(Refusal::Full), "no full\n"),
    (Form::No(Refusal::Pattern), "no pattern\n"),
    (Form::No(Refusal::Overlong), "no overlong\n"),
    (Form::No(Refusal::Memory), "no memory\n"),
];

/// The text of the reply. None if it can't be written.
fn text_of(rt: &impl Abort, alloc: Global, form: Form) -> Result<Option<Vec<u8>>, AllocError> {
    let reply = reply_of(rt, alloc, form)?;
    let mut out = Vec::new(alloc);
    Ok(match write_reply(&reply, &mut out) {
        Ok(_) => Some(out),
        Err(_) => None,
    })
}

/// The first of these texts that its reply doesn't have.
fn text_unlike(rt: &impl Abort, alloc: Global) -> Result<Option<&'static str>, AllocError> {
    for (form, want) in &REPLIES {
        match text_of(rt, alloc, *form)? {
            Some(text) if text.as_slice() == want.as_bytes() => {}
            _ => return Ok(Some(*want)),
        }
    }
    Ok(None)
}

#[test]
fn each_reply_has_its_text(rt: HostRuntime) -> Result<(), Fail> {
    assert_eq!(rt; text_unlike(&rt, rt.alloc())?, None);
    Ok(())
}
