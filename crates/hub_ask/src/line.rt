//! The line of a request.
ghost use Rattle.std.specs.Prelude.{◌≡◌, ◌++◌, ◌∷◌, [], true, false, IfOk, IfSome, IfNone, MatchOption};
ghost use Rattle.hub_client.specs.Passing.{has_lf};
ghost use Rattle.hub_protocol.specs.Spelling.{form_of, spelling};

use hub_protocol::write_request;
use hub_requests::Request;
use std::alloc::{AllocError, Global};

/// A request line without its LF.
#[derive(Drop)]
pub struct Line {
    bytes: Vec<u8>,
    ghost cut: { has_lf bytes.items ≡ false },
}

// The bytes as a line. None if they have an LF.
fn cut_line(bytes: Vec<u8>) -> Option<Line>
    ensures { MatchOption result (has_lf bytes.items ≡ true)
        (λ line. line.bytes.items ≡ bytes.items) }
{
    if bytes.contains(&b'\n') {
        return None;
    }
    Some(Line { bytes })
}

impl Line {
    ghost use Rattle.hub_ask.specs.Lines.{bytes_of, joined};

    /// The line of these words, with one space between each two. None if a word has an LF, since they are several lines then.
    pub fn of(alloc: Global, words: &[&str]) -> Result<Option<Line>, AllocError>
        ensures line { IfOk result (λ it. IfSome it (λ line. bytes_of line
            ≡ joined (λ word. word.now) words.now)) }
        ensures none { IfOk result (λ it. IfNone it
            (has_lf (joined (λ word. word.now) words.now) ≡ true)) }
    {
        let text = words.join(alloc, " ")?;
        Ok(cut_line(text.into_bytes()))
    }

    /// The line of the request. None if it has an LF, as a text that is no pattern may.
    pub fn of_request(alloc: Global, request: &Request) -> Result<Option<Line>, AllocError>
        ensures line { IfOk result (λ it. IfSome it (λ line. bytes_of line
            ≡ spelling (form_of request.now))) }
        ensures none { IfOk result (λ it. IfNone it
            (has_lf (spelling (form_of request.now)) ≡ true)) }
    {
        let mut bytes = Vec::new(alloc);
        write_request(request, &mut bytes)?;
        let _lf = bytes.pop();
        Ok(cut_line(bytes))
    }

    /// The bytes, without an LF.
    pub fn as_bytes(&self) -> &[u8]
        ensures bytes { result.now ≡ bytes_of self.now }
        ensures cut { has_lf result.now ≡ false }
    {
        &self.bytes
    }
}
