//! How a fifodir is, by its status.
ghost use Rattle.std.specs.Prelude.{◌≡◌, ◌≢◌, MatchOption};
ghost use Rattle.hub_record.specs.declared.Status.{Status as status};
ghost use Rattle.hub_requests.specs.Texts.{text_of};
ghost use Rattle.hub_requests.specs.declared.reply.Reply.TheVariants as reply;
ghost use Rattle.hub_protocol.specs.Replies.{IsOfHub};
ghost use Rattle.hub_ask.specs.States.{status_told};

use hub_letters::Flags;
use hub_protocol::{BorrowedReply, read_reply};

/// How a fifodir is, as the reply to its `status` says.
#[derive(Clone, Copy, Debug, PartialEq, Eq)]
pub struct State {
    /// How many events were published.
    pub events: u64,
    /// The flags after all of them.
    pub flags: Flags,
    /// Whether it is closed.
    pub is_closed: bool,
}

impl State {
    /// The state that this reply line tells, such as `ok 3 7 open` with its LF. None if it isn't the reply to a `status`.
    pub fn of(line: &[u8]) -> Option<State>
        ensures { MatchOption result
            ((it : status) → IsOfHub (reply.State it) → line.now ≢ text_of (reply.State it))
            (λ state. line.now ≡ text_of (reply.State (status_told state))) }
    {
        let read = read_reply(line)?;
        let BorrowedReply::State(status) = read else {
            return None;
        };
        Some(State {
            events: status.number,
            flags: status.flags,
            is_closed: status.closed,
        })
    }
}
