//! Words that are refused, whichever subcommand they are for.
ghost use Rattle.std.specs.Prelude.{◌≡◌};
ghost use Rattle.hub_client.specs.Passing.{has_lf};
ghost use Rattle.hub_endings.specs.Words.{IsLimit, any_breaks};

use crate::ending::{BadWords, Ending};
use hub_ask::millis_of;
use std::alloc::Global;

/// Whether the word has a line feed, so that it would be several lines.
pub fn breaks(word: &str) -> bool
    ensures { result ≡ has_lf word.now }
{
    word.as_bytes().contains(&b'\n')
}

/// Whether one of the words has a line feed.
pub fn any_breaks(words: &[&str]) -> bool
    ensures { result ≡ any_breaks (λ word. word.now) words.now }
{
    words.iter().any(|word| breaks(word))
}

/// The milliseconds of this duration, if there is one. A text that is none is refused.
pub fn limit_of(alloc: Global, timeout: Option<&str>) -> Result<Option<u64>, Ending>
    ensures { IsLimit (λ text. text.now) timeout.entry result }
{
    let Some(text) = timeout else {
        return Ok(None);
    };
    if let Some(millis) = millis_of(text) {
        return Ok(Some(millis));
    }
    if breaks(text) {
        return Err(Ending::Refused(BadWords::Word));
    }
    Err(Ending::Refused(BadWords::Duration(String::from_str(alloc, text)?)))
}
