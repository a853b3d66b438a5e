//! Which names of a wait a hub doesn't have.
ghost use Rattle.std.specs.Prelude.{◌≡◌, ◌≢◌, All, IfOk, IfErr, MatchBool};
ghost use Rattle.hub_ask.specs.Asking.{FailsToHear, Hears};
ghost use Rattle.hub_commands.specs.Missing.{AsksNames, IsMissing};
ghost use Rattle.hub_protocol.specs.Spelling.{form_of, spelling};
ghost use Rattle.hub_requests.specs.declared.request.Request.TheVariants as request;

use hub_ask::{AskError, Client, GRACE, Heard, Replies, Requests};
use hub_protocol::BorrowedReply;
use hub_requests::{MOST_NAMES, Request};
use std::alloc::{AllocError, Global};
use std::sync::Wait;

// How many names the text has, with one space between two.
fn count_of(names: &[u8]) -> u64 {
    if names.is_empty() {
        return 0;
    }
    let spaces = names.iter().filter(|byte| **byte == b' ').count() as u64;
    spaces.saturating_add(1)
}

// Puts names behind these.
fn put_names(more: &[u8], names: &mut Vec<u8>) -> Result<(), AllocError> {
    if !names.is_empty() {
        names.push(b' ')?;
    }
    names.extend_from_slice(more)
}

// Asks for the names from this place on.
fn hear_names<H: Wait, SR: Replies, SW: Requests>(
    rt: &H,
    alloc: Global,
    from: u64,
    client: &mut Client<SR, SW>,
) -> Result<Option<Heard>, AskError>
    ensures ok { IfOk result (Hears
        (SW.contents client.old.sender) (SW.contents client.new.sender)
        (SR.remaining client.old.receiver) (SR.remaining client.new.receiver)
        (spelling (form_of (request.Names from)))) }
    ensures err { IfErr result (FailsToHear
        (SW.contents client.old.sender) (SW.contents client.new.sender)
        (SR.remaining client.old.receiver) (SR.remaining client.new.receiver)
        (spelling (form_of (request.Names from))) client.new.is_broken) }
{
    client.hear(rt, alloc, &Request::Names { from })
}

// Puts the names that this reply lists behind these. True if it lists none, so that these are all.
fn put_listed(heard: &Option<Heard>, names: &mut Vec<u8>) -> Result<bool, AskError> {
    let Some(heard) = heard else {
        return Err(AskError::Unknown);
    };
    match heard.reply() {
        BorrowedReply::Listed(listed) if !listed.is_empty() => {
            put_names(listed, names)?;
            Ok(false)
        }
        BorrowedReply::Nothing => Ok(true),
        _ => Err(AskError::Unknown),
    }
}

/// All names of the hub, with one space between two. It has a second for its replies.
pub(crate) fn names_there<H: Wait, SR: Replies, SW: Requests>(
    rt: &H,
    alloc: Global,
    client: &mut Client<SR, SW>,
) -> Result<Vec<u8>, AskError>
    ensures { AsksNames (SW.contents client.old.sender) (SW.contents client.new.sender) }
{
    client.allow(GRACE);
    let mut names = Vec::new(alloc);
    // Each reply but the last has a name at least.
    'replies: for _ in 0..MOST_NAMES + 1 {
        let heard = hear_names(rt, alloc, count_of(&names), client)?;
        if put_listed(&heard, &mut names)? {
            return Ok(names);
        }
    }
    Err(AskError::Unknown)
}

fn is_other(one: &[u8], name: &[u8]) -> bool
    ensures { MatchBool result (one.now ≢ name.now) (one.now ≡ name.now) }
{
    one != name
}

// Whether the name is none of these, which have one space between two.
fn is_missing(name: &[u8], there: &[u8]) -> bool
    ensures { MatchBool result (IsMissing there.now name.now) (IsMissing there.now name.now → ⊥) }
{
    there
        .split(|byte| *byte == b' ')
        .all(|one| is_other(one, name))
}

/// Which of these names aren't among those of the hub.
pub(crate) fn missing_of<'a>(
    alloc: Global,
    wanted: &[&'a str],
    there: &[u8],
) -> Result<Vec<&'a str>, AllocError>
    ensures { IfOk result (λ it. All (λ name. IsMissing there.now name.now) it.items) }
{
    let mut missing = Vec::new(alloc);
    'names: for name in wanted {
        if is_missing(name.as_bytes(), there) {
            missing.push(*name)?;
        }
    }
    Ok(missing)
}
