//! What is written of letters and of fifodirs, for people and for programs.
//!
//! [`lines_of`] writes a line for each letter that came, and [`hit_line`] one for a hit. [`put_described`] writes the row of a fifodir in
//! a table, and [`put_object`] its object of JSON.
#![tactic(auto)]

mod description;
mod events;
mod form;
mod json;
mod objects;
mod rows;
mod states;

pub use description::Description;
pub use events::{hit_line, lines_of, number_after, stamp};
pub use form::Form;
pub use objects::put_object;
pub use rows::{put_described, put_row};
pub use states::state_words_are_true;
