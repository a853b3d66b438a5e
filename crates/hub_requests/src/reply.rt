//! The answers to clients.

use crate::about::About;
use crate::listing::Listing;
use crate::texts::{Excerpt, Numbers, number_is_short};
use hub_record::{PubError, Status, SubError};
use std::alloc::AllocError;

/// The answer to one line.
#[derive(Drop)]
pub enum Reply {
    /// The request was carried out.
    Done,
    /// A handle (to `sub` and `listen`), or the number of a message's first event (to `pub` and `tell`).
    Number(u64),
    /// The status of a fifodir.
    State(Status),
    /// What a fifodir is, and how much is there.
    About(About),
    /// The letters of the events that were taken.
    Got(Excerpt),
    /// The letters of a listener's hit.
    Hit(Excerpt),
    /// No event is pending, or none that completes a hit; or there is no name to list.
    Nothing,
    /// No event is pending, and none will be: the fifodir is closed.
    End,
    /// No event is pending, and none will be: more were pending than may be, and the subscription was evicted.
    Evicted,
    /// All of the services are as wanted, or at least one of them for `any`. Each has its number of events here, or
    /// none if it isn't as wanted.
    Yes(Numbers),
    /// What was wanted doesn't hold, and can't hold any more.
    Never,
    /// Neither was known when the wait ended, or nothing had come when an `await` or a `next` did.
    Late,
    /// The names of fifodirs, in the order in which they were made.
    Listed(Listing),
    /// The request was refused. Nothing has changed, except what a `wait` or a `poll` had done until then.
    No(Refusal),
}

/// Why a line was refused. `docs/manual/protocol.md` has the order in which reasons are checked.
#[derive(Clone, Copy, Debug, PartialEq, Eq)]
pub enum Refusal {
    /// The line has more than 512 bytes.
    Long,
    /// A byte of the line isn't within 0x20 to 0x7E.
    Text,
    /// The line doesn't begin with the word of a request.
    Word,
    /// The line doesn't have the form of its word.
    Form,
    /// A number is outside its range.
    Range,
    /// The session came by a door that only looks, and the request would change something, or hold a publisher up.
    Right,
    /// No fifodir has this name.
    Name,
    /// A fifodir has this name already.
    Exists,
    /// A `wait`, a `tell` or a `will` names a plain fifodir, and needs a service's.
    Kind,
    /// This session has no handle with this number, or it isn't of the sort that the request needs.
    Id,
    /// The limit of names, handles, subscriptions or publishers that may exist at one time is reached.
    Many,
    /// No number is left for a handle, a subscription, a publisher or an event.
    Spent,
    /// The fifodir is closed.
    Closed,
    /// The letter at this place of the message, from 0, is unlawful there.
    Unlawful(u64),
    /// More events would be pending for the slowest subscription than the fifodir's limit, and it isn't evicted; or the
    /// message alone is longer than that. The publisher retries in the first case.
    Full,
    /// The text isn't a pattern, or the pattern is too large.
    Pattern,
    /// The listener has gathered as many letters as it may, without a hit.
    Overlong,
    /// Memory ran out.
    Memory,
}

impl Reply {
    ghost use Rattle.std.specs.Prelude.{◌≡◌, ◌≤◌, length};
    ghost use Rattle.hub_requests.specs.Refusals.{reply_to_publish};
    ghost use Rattle.hub_requests.specs.Lateness.{or_late};
    ghost use Rattle.hub_requests.specs.Texts.{text_of};
    ghost use Rattle.hub_requests.specs.declared.bounds.TheConstants.{LONGEST_REPLY};

    /// What a `pub` or a `tell` is answered.
    pub fn to_publish(published: Result<u64, PubError>) -> Reply
        ensures { result ≡ reply_to_publish published }
    {
        match published {
            Ok(first) => Reply::Number(first),
            Err(error) => Reply::No(Refusal::from(error)),
        }
    }

    /// What a `next` is answered that has waited for a take or a poll with this reply.
    pub fn or_late(self) -> Reply
        ensures { result ≡ or_late self }
    {
        match self {
            Reply::Nothing => Reply::Late,
            reply => reply,
        }
    }

    /// A law: the text of a reply has at most `LONGEST_REPLY` bytes.
    pub fn is_short(&self)
        ensures { length (text_of self.now) ≤ LONGEST_REPLY }
    {
        match self {
            Reply::Number(number) => number_is_short(*number),
            Reply::State(status) => {
                number_is_short(status.number);
                number_is_short(status.flags.code());
            }
            Reply::About(about) => {
                number_is_short(about.waiting);
                number_is_short(about.total);
                number_is_short(about.subscriptions);
                number_is_short(about.publishers);
                number_is_short(about.pending);
            }
            Reply::Got(letters) | Reply::Hit(letters) => {
                letters.items();
            }
            Reply::Yes(numbers) => numbers.are_short(),
            Reply::Listed(names) => {
                names.items();
            }
            Reply::No(Refusal::Unlawful(place)) => number_is_short(*place),
            Reply::Done
            | Reply::Nothing
            | Reply::End
            | Reply::Evicted
            | Reply::Never
            | Reply::Late
            | Reply::No(_) => {}
        }
    }
}

impl From<AllocError> for Refusal {
    ghost use Rattle.std.specs.Prelude.{◌≡◌};
    ghost use Rattle.hub_requests.specs.declared.reply.Refusal.TheVariants as no;

    ghost from_gives = { λ _ refusal. refusal ≡ no.Memory };

    fn from(_error: AllocError) -> Refusal {
        Refusal::Memory
    }
}

impl From<SubError> for Refusal {
    ghost use Rattle.std.specs.Prelude.{◌≡◌};
    ghost use Rattle.hub_requests.specs.Refusals.{refusal_of_sub};

    ghost from_gives = { λ error refusal. refusal ≡ refusal_of_sub error };

    fn from(error: SubError) -> Refusal {
        match error {
            SubError::Closed => Refusal::Closed,
            SubError::Many => Refusal::Many,
            SubError::Spent => Refusal::Spent,
            SubError::Memory => Refusal::Memory,
        }
    }
}

impl From<PubError> for Refusal {
    ghost use Rattle.std.specs.Prelude.{◌≡◌};
    ghost use Rattle.hub_requests.specs.Refusals.{refusal_of_pub};

    ghost from_gives = { λ error refusal. refusal ≡ refusal_of_pub error };

    fn from(error: PubError) -> Refusal {
        match error {
            PubError::Closed => Refusal::Closed,
            PubError::Unlawful(place) => Refusal::Unlawful(place),
            PubError::Spent => Refusal::Spent,
            PubError::Full => Refusal::Full,
        }
    }
}
