//! A reply that a hub gave.
ghost use Rattle.std.specs.Prelude.{◌≡◌, MatchOption, None, Some};
ghost use Rattle.hub_protocol.specs.Replies.{IsReadReply, IsShown};
ghost use Rattle.hub_ask.specs.Telling.{IsReply, IsNoReply};

use hub_protocol::{BorrowedReply, read_reply};

/// The line of a reply of a hub, with its LF.
#[derive(Debug, Drop)]
pub struct Heard {
    line: Vec<u8>,
    ghost told: { ∥ IsReply line.items ∥₁ },
}

impl Heard {
    ghost use Rattle.hub_ask.specs.Hearing.{line_of};

    /// The reply of this line. None if it is the line of no reply of a hub.
    pub fn of(line: Vec<u8>) -> Option<Heard>
        ensures { MatchOption result (IsNoReply line.items) (λ heard. line_of heard ≡ line.items) }
    {
        if read_reply(&line).is_none() {
            return None;
        }
        Some(Heard { line })
    }

    /// The reply.
    pub fn reply(&self) -> BorrowedReply<'_>
        ensures { IsShown (line_of self.now) result }
    {
        match read_reply(&self.line) {
            Some(reply) => reply,
            None => unreachable!(),
        }
    }

    /// The line, with its LF.
    pub fn line(&self) -> &[u8]
        ensures { result.now ≡ line_of self.now }
    {
        &self.line
    }
}
