//! Requests and replies as the rows of a text, for every desk. There is ample memory: a reply `no memory` fails its test.
ghost use Rattle.std.specs.Prelude.{IfOk};
ghost use Rattle.hub_requests.specs.Ranges.{IsInRange};

use hub_letters::Letter;
use hub_protocol::{parse, write_reply};
use hub_record::Letters;
use hub_requests::{Desk, Enter, Name, Reply, Request};
use std::alloc::{AllocError, AllocGlobal, Global};
use std::process::Abort;
use std::sync::Wait;

/// What happens at a desk.
#[derive(Clone, Copy)]
pub enum Step {
    /// The rows of this text are asked in turn.
    Rows(&'static str),
    /// All 256 handles are made, at `web`: so many listeners for `b`, and then subscriptions.
    AllHandles(u64),
    /// `web` gets its first message, of so many `a`.
    Letters(usize),
    /// The session ends.
    End,
}

pub fn name_of(rt: &impl Abort, alloc: Global, text: &str) -> Result<Name, AllocError> {
    let name = Name::of(alloc, text.as_bytes())?;
    Ok(name.expect(rt, "a name"))
}

/// The request that a line spells.
pub fn request(rt: &impl Abort, alloc: Global, line: &str) -> Request
    ensures { IsInRange result }
{
    parse(alloc, line.as_bytes()).expect(rt, "a request")
}

fn try_many_letters(rt: &impl Abort, alloc: Global, count: usize) -> Result<Request, AllocError>
    ensures { IfOk result IsInRange }
{
    let name = name_of(rt, alloc, "web")?;
    let letter = Letter::of(b'a').expect(rt, "a letter");
    Ok(Request::Pub {
        name,
        letters: Letters::of(vec![in alloc; letter; count]?),
    })
}

/// The request to publish so many `a` to `web`. No line spells more than 504.
pub fn many_letters(rt: &impl Abort, alloc: Global, count: usize) -> Request
    ensures { IsInRange result }
{
    try_many_letters(rt, alloc, count).expect(rt, "a message")
}

/// Asks, of which the prover knows nothing afterwards.
pub fn answer_to<H: Wait + Enter, D: Desk>(rt: &H, desk: &mut D, request: &Request) -> Reply
    requires { IsInRange request.now }
{
    desk.ask(rt, request)
}

/// Asks, and wants this line for the reply.
fn expect<H: AllocGlobal + Abort + Wait + Enter, D: Desk>(
    rt: &H,
    desk: &mut D,
    request: &Request,
    want: &str,
)
    requires { IsInRange request.now }
{
    let reply = answer_to(rt, desk, request);
    let mut line = Vec::new(rt.alloc());
    assert!(rt; write_reply(&reply, &mut line).is_ok(), "{want}");
    let _ = line.pop();
    assert_eq!(rt; line.as_slice(), want.as_bytes(), "{want}");
}

/// Asks a line, and wants the one behind the arrow for the reply.
fn ask_row<H: AllocGlobal + Abort + Wait + Enter, D: Desk>(rt: &H, desk: &mut D, row: &str) {
    let (line, want) = row.split_once(" -> ").expect(rt, "an arrow");
    expect(rt, desk, &request(rt, rt.alloc(), line.trim()), want);
}

/// Asks each row in turn: a line, an arrow and the line of its reply. A semicolon is between rows that share a line.
pub fn run<H: AllocGlobal + Abort + Wait + Enter, D: Desk>(rt: &H, desk: &mut D, rows: &str) {
    for line in rows.trim().lines() {
        for row in line.split(';') {
            ask_row(rt, desk, row);
        }
    }
}

/// Asks for a handle, which has this number.
pub fn expect_number<H: Abort + Wait + Enter, D: Desk>(
    rt: &H,
    desk: &mut D,
    request: &Request,
    number: u64,
)
    requires { IsInRange request.now }
{
    let reply = answer_to(rt, desk, request);
    assert!(rt; matches!(reply, Reply::Number(given) if given == number));
}

/// Asks the line for handles, which have the numbers from the first to the last.
fn expect_numbers<H: AllocGlobal + Abort + Wait + Enter, D: Desk>(
    rt: &H,
    desk: &mut D,
    line: &str,
    first: u64,
    last: u64,
) {
    let request = request(rt, rt.alloc(), line);
    for number in first..=last {
        expect_number(rt, desk, &request, number);
    }
}

/// Takes each step in turn.
pub fn go<H: AllocGlobal + Abort + Wait + Enter, D: Desk>(rt: &H, desk: &mut D, steps: &[Step]) {
    for step in steps {
        match step {
            Step::Rows(rows) => run(rt, desk, rows),
            Step::AllHandles(listeners) => {
                expect_numbers(rt, desk, "listen web repeat b", 1, *listeners);
                expect_numbers(rt, desk, "sub web", listeners.saturating_add(1), 256);
            }
            Step::Letters(count) => {
                expect(rt, desk, &many_letters(rt, rt.alloc(), *count), "ok 0");
            }
            Step::End => desk.end(rt),
        }
    }
}
