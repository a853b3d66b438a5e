//! Reads the reply that a line tells.
ghost use Rattle.std.specs.Prelude.{◌≡◌, ◌≢◌, ◌∷◌, [], MatchOption, codes, Option};
ghost use Rattle.std.specs.Fmt.{decimal};
ghost use Rattle.hub_record.specs.declared.Kind.{Kind as kind};
ghost use Rattle.hub_requests.specs.Texts.{text_of, word_of_kind};
ghost use Rattle.hub_requests.specs.declared.reply.Reply.{Reply as reply};
ghost use Rattle.hub_protocol.specs.declared.replies.BorrowedReply.{BorrowedReply as shown};
ghost use Rattle.hub_protocol.specs.Spelling.{fields_of};
ghost use Rattle.hub_protocol.specs.Lines.{pieces_of};
ghost use Rattle.hub_protocol.specs.Replies.{IsOfHub, IsReadReply, Shows};
ghost use Rattle.hub_protocol.specs.ReplyLines.{IsBehind, text_of_head};

use crate::about::{about_in, kind_of};
use crate::fields::fields_are_names;
use crate::line::{Rest, first_piece};
use crate::reply_pieces::{
    Head, are_counts, closed_in, head_of, letters_in, number_of, refusal_in,
};
use hub_letters::Flags;
use hub_record::{Kind, Status};
use hub_requests::{About, LONGEST_REPLY, Refusal};

/// A reply of a hub, as its line has it.
#[derive(Clone, Copy, Debug, PartialEq, Eq)]
pub enum BorrowedReply<'a> {
    /// The request was carried out.
    Done,
    /// A handle, or the number of a message's first event.
    Number(u64),
    /// The status of a fifodir.
    State(Status),
    /// What a fifodir is, and how much is there.
    About(About),
    /// The letters of the events that were taken.
    Got(&'a [u8]),
    /// The letters of a listener's hit.
    Hit(&'a [u8]),
    /// No event is pending, or none that completes a hit; or there is no name to list.
    Nothing,
    /// No event is pending, and none will be.
    End,
    /// The subscription was evicted.
    Evicted,
    /// It is as wanted: a number of events or `-` for each service, with one space between two.
    Yes(&'a [u8]),
    /// What was wanted can't hold any more.
    Never,
    /// Neither was known when the wait ended.
    Late,
    /// Names of fifodirs, with one space between two.
    Listed(&'a [u8]),
    /// The request was refused.
    No(Refusal),
}

impl BorrowedReply<'_> {
    /// A law: two replies of a hub that differ have different texts.
    pub fn no_two_share_a_text()
        ensures { (one other : reply) → IsOfHub one → IsOfHub other → text_of one ≡ text_of other
            → one ≡ other }
    {}

    /// A law: the text of a reply of a hub is read as that reply.
    pub fn each_is_read_back()
        ensures { (it : reply) (read : Option shown) → IsOfHub it → IsReadReply (text_of it) read
            → MatchOption read ⊥ (λ read. Shows read it) }
    {}
}

/// The reply of a hub that this is the text of: its line, with the LF. None if it is the text of no reply of a hub.
pub fn read_reply(text: &[u8]) -> Option<BorrowedReply<'_>>
    ensures { IsReadReply text.now result }
{
    if text.len() > LONGEST_REPLY {
        return None;
    }
    let (last, line) = text.split_last()?;
    if *last != b'\n' {
        return None;
    }
    let (word, rest) = first_piece(line);
    reply_with(word, rest)
}

// The reply that begins with this word, and has the rest behind it.
fn reply_with<'a>(word: &[u8], rest: Rest<'a>) -> Option<BorrowedReply<'a>>
    ensures { IsBehind word.now (pieces_of rest.entry) result }
{
    let head = head_of(word)?;
    reply_of(head, rest)
}

fn reply_of<'a>(head: Head, rest: Rest<'a>) -> Option<BorrowedReply<'a>>
    ensures { IsBehind (text_of_head head) (pieces_of rest.entry) result }
{
    match head {
        Head::Done => read_ok(rest),
        Head::Got => read_got(rest),
        Head::Hit => read_hit(rest),
        Head::Nothing => alone(rest, BorrowedReply::Nothing),
        Head::End => alone(rest, BorrowedReply::End),
        Head::Evicted => alone(rest, BorrowedReply::Evicted),
        Head::Yes => read_yes(rest),
        Head::Never => alone(rest, BorrowedReply::Never),
        Head::Late => alone(rest, BorrowedReply::Late),
        Head::Listed => read_names(rest),
        Head::No => read_no(rest),
    }
}

// The reply, if nothing is left.
fn alone<'a>(rest: Rest<'_>, reply: BorrowedReply<'a>) -> Option<BorrowedReply<'a>>
    ensures { MatchOption result (pieces_of rest.entry ≢ [])
        (λ it. (it ≡ reply.entry) × (pieces_of rest.entry ≡ [])) }
{
    match rest {
        Rest::Nothing => Some(reply),
        Rest::Text(_) => None,
    }
}

fn read_ok<'a>(rest: Rest<'_>) -> Option<BorrowedReply<'a>>
    ensures { IsBehind (codes "ok") (pieces_of rest.entry) result }
{
    let Rest::Text(text) = rest else {
        return Some(BorrowedReply::Done);
    };
    let (word, rest) = first_piece(text);
    match kind_of(word) {
        Some(kind) => read_about(kind, rest),
        None => read_number(word, rest),
    }
}

// The reply to an `about` of a fifodir of this kind.
fn read_about<'a>(kind: Kind, rest: Rest<'_>) -> Option<BorrowedReply<'a>>
    ensures { IsBehind (codes "ok") (word_of_kind kind ∷ pieces_of rest.entry) result }
{
    let about = about_in(kind, rest)?;
    Some(BorrowedReply::About(about))
}

// The reply that has a number behind its `ok`.
fn read_number<'a>(digits: &[u8], rest: Rest<'_>) -> Option<BorrowedReply<'a>>
    requires { (k : kind) → digits.now ≢ word_of_kind k }
    ensures { IsBehind (codes "ok") (digits.now ∷ pieces_of rest.entry) result }
{
    let number = number_of(digits)?;
    match rest {
        Rest::Nothing => Some(BorrowedReply::Number(number)),
        Rest::Text(text) => read_status(number, text),
    }
}

// The reply to a `status`: this number of events, and the flags and the openness in the text.
fn read_status<'a>(number: u64, text: &[u8]) -> Option<BorrowedReply<'a>>
    ensures { IsBehind (codes "ok") (decimal number ∷ fields_of text.now) result }
{
    let (digits, rest) = first_piece(text);
    let code = number_of(digits)?;
    let flags = Flags::of_code(code)?;
    let closed = closed_in(rest)?;
    Some(BorrowedReply::State(Status {
        number,
        flags,
        closed,
    }))
}

fn read_got(rest: Rest<'_>) -> Option<BorrowedReply<'_>>
    ensures { IsBehind (codes "got") (pieces_of rest.entry) result }
{
    let letters = letters_in(rest)?;
    Some(BorrowedReply::Got(letters))
}

fn read_hit(rest: Rest<'_>) -> Option<BorrowedReply<'_>>
    ensures { IsBehind (codes "hit") (pieces_of rest.entry) result }
{
    let letters = letters_in(rest)?;
    Some(BorrowedReply::Hit(letters))
}

fn read_yes(rest: Rest<'_>) -> Option<BorrowedReply<'_>>
    ensures { IsBehind (codes "yes") (pieces_of rest.entry) result }
{
    match rest {
        Rest::Nothing => Some(BorrowedReply::Yes(b"")),
        Rest::Text(text) => yes_of(text),
    }
}

fn yes_of(text: &[u8]) -> Option<BorrowedReply<'_>>
    ensures { IsBehind (codes "yes") (fields_of text.now) result }
{
    if are_counts(text) {
        Some(BorrowedReply::Yes(text))
    } else {
        None
    }
}

fn read_names(rest: Rest<'_>) -> Option<BorrowedReply<'_>>
    ensures { IsBehind (codes "names") (pieces_of rest.entry) result }
{
    match rest {
        Rest::Nothing => Some(BorrowedReply::Listed(b"")),
        Rest::Text(text) => listed_of(text),
    }
}

fn listed_of(text: &[u8]) -> Option<BorrowedReply<'_>>
    ensures { IsBehind (codes "names") (fields_of text.now) result }
{
    if fields_are_names(text) {
        Some(BorrowedReply::Listed(text))
    } else {
        None
    }
}

fn read_no<'a>(rest: Rest<'_>) -> Option<BorrowedReply<'a>>
    ensures { IsBehind (codes "no") (pieces_of rest.entry) result }
{
    let refusal = refusal_in(rest)?;
    Some(BorrowedReply::No(refusal))
}
