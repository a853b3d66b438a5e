//! The command line: its words, and the texts of `--help`.
//!
//! [`read_words`] reads the words with the crate `clap`. They are a [`Plan`], or an error with the text to print: help,
//! the version, or what is wrong with them. [`status_of`] is the exit status for such an error. A program takes its
//! [`own_words`] and calls [`begin`], which prints that text. Words that name no socket are for its [`own_socket`].
#![tactic(auto)]

mod asking;
mod asking_help;
mod changing;
mod changing_help;
mod command_line;
mod help;
mod help_words;
mod options;
mod serving;
mod serving_options;
mod socket;

pub use command_line::{
    Plan, Start, WordsError, begin, early_status, own_words, read_words, status_of,
};
pub use socket::{OwnSocket, derived_socket, own_socket};
