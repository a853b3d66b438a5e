//! Words that ask for help without an option.

use crate::command_line::NAME;
use std::alloc::{AllocError, Global};

// Whether the word behind `help` may be meant for a command.
fn is_command(word: &str) -> bool {
    word != "help" && !word.starts_with('-')
}

// These words between the program's name and an option.
fn asked<'a>(
    alloc: Global,
    words: &'a [String],
    option: &'a str,
) -> Result<Vec<&'a str>, AllocError> {
    let mut asked = vec![in alloc; NAME]?;
    for word in words {
        asked.push(word.as_str())?;
    }
    asked.push(option)?;
    Ok(asked)
}

/// The words that ask for help in the place of these: `help WORD ..` is `WORD .. --help`, by which a misspelt WORD is told as it is
/// without `help`.
pub(crate) fn words_of_help<'a>(
    alloc: Global,
    words: &'a [String],
) -> Result<Option<Vec<&'a str>>, AllocError> {
    match words {
        [_, first, second, ..] if first.as_str() == "help" && is_command(second) => {
            Ok(Some(asked(alloc, &words[2..], "--help")?))
        }
        _ => Ok(None),
    }
}
