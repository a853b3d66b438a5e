//! The lines about services that aren't as wanted.
ghost use Rattle.std.specs.Prelude.{◌≡◌, ◌≢◌, MatchOption};
ghost use Rattle.hub_letters.specs.declared.want.Want.{Want as wants};
ghost use Rattle.hub_protocol.specs.Spelling.{text_of_want};

use crate::fault::AskError;
use crate::heard::Heard;
use crate::state::State;
use hub_letters::Want;
use hub_protocol::BorrowedReply;
use hub_requests::Refusal;
use std::alloc::{AllocError, Global};
use std::io::{self, Write};

/// What is wanted by this word.
pub(crate) fn want_of(word: &str) -> Option<Want>
    ensures { MatchOption result ((want : wants) → word.now ≢ text_of_want want)
        (λ want. word.now ≡ text_of_want want) }
{
    Some(match word {
        "up" => Want::Up,
        "ready" => Want::Ready,
        "down" => Want::Down,
        "finished" => Want::Finished,
        "restarted" => Want::Restarted,
        "restarted-ready" => Want::RestartedReady,
        _ => return None,
    })
}

// How a service is that isn't as wanted, by the reply to its `status`.
fn state_of(want: Want, status: &Result<Option<Heard>, AskError>) -> &'static str {
    let Ok(Some(heard)) = status else {
        return "down";
    };
    match State::of(heard.line()) {
        None => "down",
        Some(state) if state.is_closed => "closed",
        Some(state) if state.flags.failed => "failed, won't be restarted",
        Some(state) => state_with(want, state.flags.up),
    }
}

// How a service is that may come to be as wanted.
fn state_with(want: Want, is_up: bool) -> &'static str {
    match (want, is_up) {
        (Want::Ready | Want::RestartedReady, true) => "up, not ready",
        (Want::Restarted, true) => "up, not restarted",
        (Want::Finished, false) => "down, not finished",
        (_, true) => "up",
        (_, false) => "down",
    }
}

// Why a service isn't as wanted, by the replies to a wait for it alone and to its `status`. None if it is.
fn reason_of(
    want: Want,
    met: &Heard,
    status: &Result<Option<Heard>, AskError>,
) -> Option<&'static str> {
    match met.reply() {
        BorrowedReply::No(Refusal::Name) => Some("no such service"),
        BorrowedReply::No(Refusal::Kind) => Some("not a service"),
        BorrowedReply::No(Refusal::Closed) | BorrowedReply::Late | BorrowedReply::Never => {
            Some(state_of(want, status))
        }
        _ => None,
    }
}

/// Writes a line on the service if it isn't as wanted, by what came of a wait for it alone and of its `status`.
pub(crate) fn tell_state<F: Write>(
    alloc: Global,
    want: Want,
    name: &str,
    met: &Option<Heard>,
    status: &Result<Option<Heard>, AskError>,
    notes: &mut F,
) -> Result<(), AllocError> {
    let Some(met) = met else {
        return Ok(());
    };
    if let Some(reason) = reason_of(want, met, status) {
        let line = format!(in alloc; "{name}: {reason}\n")?;
        let _: io::Result<()> = notes.write_all(line.as_bytes());
    }
    Ok(())
}
