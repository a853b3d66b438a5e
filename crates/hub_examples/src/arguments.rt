// crates.txt: YOURS: hub_arguments hub_options
use hub_arguments::{OwnSocket, Plan, WordsError, read_words, status_of};
use hub_options::HubOptions;
use std::alloc::Global;

/// The socket that the words name, or `known` if they may do without one. None if they need none. The first word is the program's
/// name. At an error, the status to end with.
pub fn socket_of<'a>(
    alloc: Global,
    words: &'a [String],
    known: Option<&'a OwnSocket>,
) -> Result<Option<&'a str>, u8> {
    match read_words(alloc, words, known) {
        Ok(
            Plan::Serve { socket, .. }
            | Plan::ServeForever(HubOptions { socket, .. })
            | Plan::Call { socket }
            | Plan::Ask { socket, .. }
            | Plan::Make { socket, .. }
            | Plan::Tell { socket, .. }
            | Plan::Hold { socket, .. }
            | Plan::Wait { socket, .. }
            | Plan::Status { socket, .. }
            | Plan::Follow { socket, .. },
        ) => Ok(Some(socket)),
        Ok(Plan::Script) => Ok(None),
        Err(WordsError::Text(error)) => Err(status_of(&error)),
        Err(WordsError::NoSocket) => Err(2),
    }
}
