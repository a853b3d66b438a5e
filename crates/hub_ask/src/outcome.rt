//! How a request went.
ghost use Rattle.std.specs.Prelude.{◌≡◌, ℕ, List, Some, count_by};
ghost use Rattle.hub_protocol.specs.Spelling.{is_space};
ghost use Rattle.hub_ask.specs.declared.outcome.Outcome.{Outcome as outcome};
ghost use Rattle.hub_requests.specs.Texts.{text_of};
ghost use Rattle.hub_requests.specs.declared.reply.Reply.{Reply as reply};
ghost use Rattle.hub_protocol.specs.Replies.{IsOfHub, Shows};
ghost use Rattle.hub_ask.specs.Outcomes.{has_count, outcome_of, outcome_read, replies_to_wait, status_of, Tells, TellsOfWait, RepliesToWait};

use hub_protocol::{BorrowedReply, read_reply};

/// How a request went, by its reply.
#[derive(Clone, Copy, Debug, PartialEq, Eq)]
pub enum Outcome {
    /// It was carried out.
    Done,
    /// The hub refused it.
    Refused,
    /// What is wanted can't come about any more.
    Never,
    /// It isn't known in time.
    Late,
    /// There is nothing to have: nothing is pending, or nothing will be any more.
    Nothing,
}

// How a request went that has this reply.
fn outcome_of(read: BorrowedReply<'_>) -> Outcome
    ensures { result ≡ outcome_read read.entry }
{
    match read {
        BorrowedReply::Done
        | BorrowedReply::Number(_)
        | BorrowedReply::State(_)
        | BorrowedReply::About(_)
        | BorrowedReply::Got(_)
        | BorrowedReply::Hit(_)
        | BorrowedReply::Yes(_)
        | BorrowedReply::Listed(_) => Outcome::Done,
        BorrowedReply::No(_) => Outcome::Refused,
        BorrowedReply::Never => Outcome::Never,
        BorrowedReply::Late => Outcome::Late,
        BorrowedReply::Nothing | BorrowedReply::End | BorrowedReply::Evicted => Outcome::Nothing,
    }
}

fn spaces(text: &[u8]) -> usize
    ensures { result ≡ count_by is_space text.now }
{
    text.iter().filter(|byte| **byte == b' ').count()
}

// Whether there are so many numbers or dashes, with one space between two.
fn has_count(text: &[u8], count: usize) -> bool
    ensures { result ≡ has_count text.now count }
{
    if text.is_empty() {
        return count == 0;
    }
    count > 0 && spaces(text) == count - 1
}

// Whether a hub may reply so to a wait for so many services.
fn replies_to_wait(read: BorrowedReply<'_>, services: usize) -> bool
    ensures { result ≡ replies_to_wait services read.entry }
{
    match read {
        BorrowedReply::Yes(numbers) => has_count(numbers, services),
        BorrowedReply::Never | BorrowedReply::Late | BorrowedReply::No(_) => true,
        _ => false,
    }
}

impl Outcome {
    /// How the request of this reply line went. None if the line isn't that of a reply of a hub.
    pub fn of(line: &[u8]) -> Option<Outcome>
        ensures { Tells line.now result }
    {
        let read = read_reply(line)?;
        Some(outcome_of(read))
    }

    /// How the wait for so many services went that has this reply line. None if a hub doesn't reply so to one.
    pub fn of_wait(line: &[u8], services: usize) -> Option<Outcome>
        ensures { TellsOfWait services line.now result }
    {
        let read = read_reply(line)?;
        if replies_to_wait(read, services) {
            Some(outcome_of(read))
        } else {
            None
        }
    }

    /// How a request went that has this reply.
    pub fn of_reply(shown: BorrowedReply<'_>) -> Outcome
        ensures { (it : reply) → Shows shown.entry it → result ≡ outcome_of it }
    {
        outcome_of(shown)
    }

    /// The exit status.
    pub fn status(self) -> u8
        ensures { result ≡ status_of self }
    {
        match self {
            Outcome::Done => 0,
            Outcome::Refused => 3,
            Outcome::Never => 4,
            Outcome::Late => 5,
            Outcome::Nothing => 6,
        }
    }

    /// A law: a line tells one outcome at most.
    #[tactic(auto, using(crate::proofs::Tellings::one))]
    pub fn is_one()
        ensures { (line : List ℕ) (one other : outcome) → Tells line (Some one)
            → Tells line (Some other) → one ≡ other }
    {}

    /// A law: each reply of a hub tells the outcome of its kind.
    #[tactic(auto, using(crate::proofs::Tellings::of_reply))]
    pub fn is_that_of_the_reply()
        ensures { (it : reply) → IsOfHub it → Tells (text_of it) (Some (outcome_of it)) }
    {}

    /// A law: so does each reply of a hub to a wait, as the reply to a wait.
    #[tactic(auto, using(crate::proofs::Tellings::of_wait))]
    pub fn is_that_of_the_wait()
        ensures { (services : ℕ) (it : reply) → IsOfHub it → RepliesToWait services it
            → TellsOfWait services (text_of it) (Some (outcome_of it)) }
    {}
}
