//! The names of a hub.
ghost use Rattle.std.specs.Prelude.{◌≡◌, ◌≢◌, ◌++◌, [], map, IfOk, IfErr, OnOk};
ghost use Rattle.hub_protocol.specs.Spelling.{fields_of};
ghost use Rattle.hub_look.specs.Stops.{IsOwnStop};
ghost use Rattle.hub_ask.specs.Streams.{streams};
ghost use Rattle.hub_look.specs.Tables.{IsPagePut, IsPutOf, ListsNames};

use crate::asking::ask_about;
use crate::peer::Peer;
use crate::stop::Stop;
use hub_ask::{AskError, Replies, Requests};
use hub_io::Sink;
use hub_protocol::BorrowedReply;
use hub_requests::{MOST_NAMES, Request};
use std::alloc::{AllocError, Global};
use std::str;
use std::sync::Wait;

// Puts copies of the words behind these names.
fn put_words(alloc: Global, words: &[&str], names: &mut Vec<String>) -> Result<(), AllocError>
    ensures { OnOk result (map (λ name. name.bytes.items) names.new.items
        ≡ map (λ name. name.bytes.items) names.old.items ++ map (λ word. word.now) words.now) }
{
    'words: for word in words {
        names.push(word.to_string(alloc)?)?;
    }
    Ok(())
}

// The words between the spaces of a text.
fn words_of(alloc: Global, text: &str) -> Result<Vec<&str>, AllocError>
    ensures { IfOk result (λ words. map (λ word. word.now) words.items ≡ fields_of text.now) }
{
    text.split(' ').collect(alloc)
}

// Puts the names that a reply lists behind these. It lists one at least.
fn put_names(alloc: Global, listed: &[u8], names: &mut Vec<String>) -> Result<(), Stop>
    ensures some { OnOk result (listed.now ≢ []) }
    ensures ok { OnOk result (map (λ name. name.bytes.items) names.new.items
        ≡ map (λ name. name.bytes.items) names.old.items ++ fields_of listed.now) }
    ensures err { IfErr result IsOwnStop }
{
    match str::from_utf8(listed) {
        Ok(text) if !text.is_empty() => Ok(put_words(alloc, &words_of(alloc, text)?, names)?),
        _ => Err(Stop::Fault(AskError::Unknown)),
    }
}

// Puts the names that this reply lists behind these. True if it lists none, so that these are all.
fn put_listed(
    alloc: Global,
    reply: BorrowedReply<'_>,
    names: &mut Vec<String>,
) -> Result<bool, Stop>
    ensures ok { IfOk result (IsPutOf reply.entry (map (λ name. name.bytes.items) names.old.items)
        (map (λ name. name.bytes.items) names.new.items)) }
    ensures err { IfErr result IsOwnStop }
{
    match reply {
        BorrowedReply::Listed(listed) => {
            put_names(alloc, listed, names)?;
            Ok(false)
        }
        BorrowedReply::Nothing => Ok(true),
        _ => Err(Stop::Fault(AskError::Unknown)),
    }
}

// Asks for the names behind these, and puts those of the reply there. True if it lists none, so that these are all.
fn put_page<H: Wait, SR: Replies, SW: Requests, F: Sink>(
    rt: &H,
    alloc: Global,
    peer: &mut Peer<SR, SW>,
    names: &mut Vec<String>,
    notes: &mut F,
) -> Result<bool, Stop>
    ensures begun { peer.new.begun ≡ peer.old.begun }
    ensures ok { IfOk result (IsPagePut
        (streams SW.contents SR.remaining F.contents F.faults peer.old.client notes.old)
        (streams SW.contents SR.remaining F.contents F.faults peer.new.client notes.new)
        (map (λ name. name.bytes.items) names.old.items)
        (map (λ name. name.bytes.items) names.new.items)) }
    ensures err { IfErr result IsOwnStop }
{
    let from = names.len() as u64;
    let heard = ask_about(rt, alloc, Request::Names { from }, "names", peer, notes)?;
    put_listed(alloc, heard.reply(), names)
}

/// All names of the hub, in the order in which their fifodirs were made.
pub(crate) fn all_names<H: Wait, SR: Replies, SW: Requests, F: Sink>(
    rt: &H,
    alloc: Global,
    peer: &mut Peer<SR, SW>,
    notes: &mut F,
) -> Result<Vec<String>, Stop>
    ensures begun { peer.new.begun ≡ peer.old.begun }
    ensures ok { IfOk result (λ names. ListsNames
        (streams SW.contents SR.remaining F.contents F.faults peer.old.client notes.old)
        (streams SW.contents SR.remaining F.contents F.faults peer.new.client notes.new)
        (map (λ name. name.bytes.items) names.items)) }
    ensures err { IfErr result IsOwnStop }
{
    let mut names = Vec::new(alloc);
    // Each reply but the last has a name at least.
    'replies: for _ in 0..MOST_NAMES + 1 {
        if put_page(rt, alloc, peer, &mut names, notes)? {
            return Ok(names);
        }
    }
    Err(Stop::Fault(AskError::Unknown))
}
