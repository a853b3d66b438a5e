//! What a person may do about a refusal of a hub.
ghost use Rattle.std.specs.Prelude.{◌≡◌, ◌==◌, position};
ghost use Rattle.hub_commands.specs.Hints.{Hints, first_word, form_hint, hint_in, hint_of, refusal_in};

use hub_ask::write_note;
use hub_io::Sink;
use hub_protocol::BorrowedReply;
use hub_requests::Refusal;

/// A word, and the hint at the form of its request.
type Form = (&'static [u8], &'static [u8]);

/// The hint at the form of each request, behind its word. `tests/words` compares these with the table of forms.
const FORMS: &[Form] = &[
    (b"dir", b"ftrighub: the form is: dir NAME W T [evict]\n"),
    (b"svc", b"ftrighub: the form is: svc NAME W T R [evict]\n"),
    (b"sub", b"ftrighub: the form is: sub NAME\n"),
    (b"pub", b"ftrighub: the form is: pub NAME LETTERS\n"),
    (
        b"tell",
        b"ftrighub: the form is: tell NAME off|down|up|ready|failed\n",
    ),
    (
        b"will",
        b"ftrighub: the form is: will NAME off|down|failed|none\n",
    ),
    (b"take", b"ftrighub: the form is: take ID MAX\n"),
    (b"cancel", b"ftrighub: the form is: cancel ID\n"),
    (b"close", b"ftrighub: the form is: close NAME\n"),
    (b"status", b"ftrighub: the form is: status NAME\n"),
    (b"about", b"ftrighub: the form is: about NAME\n"),
    (
        b"listen",
        b"ftrighub: the form is: listen NAME once|repeat PATTERN\n",
    ),
    (b"poll", b"ftrighub: the form is: poll ID\n"),
    (b"await", b"ftrighub: the form is: await ID TURNS\n"),
    (b"next", b"ftrighub: the form is: next ID TURNS\n"),
    (
        b"wait",
        b"ftrighub: the form is: wait all|any up|ready|down|finished|restarted|restarted-ready TURNS NAME..\n",
    ),
    (b"names", b"ftrighub: the form is: names FROM\n"),
];

// The place of the first space.
fn first_space(line: &[u8]) -> Option<usize>
    ensures { result ≡ position (λ byte. byte == 32) line.now }
{
    line.iter().position(|byte| *byte == b' ')
}

// What is before the first space of a line, or all of it.
fn first_word(line: &[u8]) -> &[u8]
    ensures { result.now ≡ first_word line.now }
{
    match first_space(line) {
        Some(end) => &line[..end],
        None => line,
    }
}

// The hint of the first of these that has the word, or where all forms are.
fn hint_in(forms: &[Form], word: &[u8]) -> &'static [u8]
    ensures { result.now ≡ hint_in
        (λ form. form.0.now) (λ form. form.1.now) forms.now word.now }
{
    for form in forms {
        if form.0 == word {
            return form.1;
        }
    }
    b"ftrighub: the forms are in `ftrighub script --help`\n"
}

// The hint at the form of the word.
fn form_hint(word: &[u8]) -> &'static [u8]
    ensures { result.now ≡ form_hint word.now }
{
    hint_in(FORMS, word)
}

// The hint at this refusal of the line.
fn hint_of(line: &[u8], refusal: Refusal) -> &'static [u8]
    ensures { result.now ≡ hint_of line.now refusal }
{
    match refusal {
        Refusal::Long =>
            b"ftrighub: a line has at most 512 bytes: publish a long message in several\n",
        Refusal::Text => b"ftrighub: a line has the bytes from space to ~, and no tab or UTF-8\n",
        Refusal::Word =>
            b"ftrighub: the words are dir svc sub pub tell will take cancel close status about listen poll await next wait names\n",
        Refusal::Form => form_hint(first_word(line)),
        Refusal::Range =>
            b"ftrighub: W is 1 to 4096, T 1 to 1000000000000, R 0 or 1, MAX 1 to 256, TURNS 0 to 1000000\n",
        Refusal::Right => b"ftrighub: this socket only looks: ask at the hub's own socket\n",
        Refusal::Name => b"ftrighub: there is no such fifodir: make it by `ftrighub make NAME`\n",
        Refusal::Exists =>
            b"ftrighub: there is such a fifodir: `ftrighub ask about NAME` shows it\n",
        Refusal::Kind =>
            b"ftrighub: this fifodir isn't a service's: make one by `ftrighub make NAME`\n",
        Refusal::Id =>
            b"ftrighub: a handle is of one session, and `ask` ends its session: use `ftrighub call`\n",
        Refusal::Many =>
            b"ftrighub: a limit of the hub is reached: end sessions or subscriptions\n",
        Refusal::Spent => b"ftrighub: this fifodir has no numbers left: make a new one\n",
        Refusal::Closed =>
            b"ftrighub: this fifodir is closed, and nothing opens it: make a new one\n",
        Refusal::Unlawful(_) =>
            b"ftrighub: a service can't do that now: `ftrighub status NAME` shows its state\n",
        Refusal::Full =>
            b"ftrighub: too many events are pending: retry once the subscribers have taken some\n",
        Refusal::Pattern => b"ftrighub: the pattern isn't a regular expression, or is too large\n",
        Refusal::Overlong =>
            b"ftrighub: 4096 letters came without a hit: cancel the listener, and listen again\n",
        Refusal::Memory => b"ftrighub: the hub has no memory left: retry\n",
    }
}

// Why it is refused, if this is a refusal.
fn refusal_in(read: BorrowedReply<'_>) -> Option<Refusal>
    ensures { result ≡ refusal_in read.entry }
{
    match read {
        BorrowedReply::No(refusal) => Some(refusal),
        _ => None,
    }
}

/// Writes the hint at a refusal of this line. Another reply has none.
pub(crate) fn note_hint<F: Sink>(line: &[u8], reply: BorrowedReply<'_>, notes: &mut F)
    ensures { Hints (record { contents = F.contents; faults = F.faults })
        notes.old notes.new line.now (refusal_in reply.entry) }
{
    if let Some(refusal) = refusal_in(reply) {
        write_note(hint_of(line, refusal), notes);
    }
}
