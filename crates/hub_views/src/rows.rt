//! The rows of a table of fifodirs.
ghost use Rattle.std.specs.Prelude.{◌≡◌, ◌++◌, [], IfOk, OnOk};
ghost use Rattle.std.specs.Fmt.{decimal};
ghost use Rattle.hub_requests.specs.Texts.{word_of_policy};
ghost use Rattle.hub_views.specs.Descriptions.{beside, closed_mark, columns_of, kind_word, pending_column, plain_column, row_of, state_column};

use crate::description::Description;
use crate::states::state_word;
use hub_record::{Kind, Policy, Status};
use hub_requests::About;
use std::alloc::{AllocError, Global};

// Puts a word behind the line, with spaces up to the width of its column, and two before the next one.
fn put_column(width: usize, word: &str, line: &mut String) -> Result<(), AllocError>
    ensures { OnOk result (line.new.bytes.items
        ≡ line.old.bytes.items ++ beside width word.now []) }
{
    line.push_str(word)?;
    let mut missing = width.saturating_sub(word.len());
    'spaces: while missing > 0 {
        line.push_str(" ")?;
        missing -= 1;
    }
    line.push_str("  ")
}

/// The word for this kind of fifodir.
pub(crate) fn kind_word(kind: Kind) -> &'static str
    ensures { result.now ≡ kind_word kind }
{
    match kind {
        Kind::Plain => "plain",
        Kind::Service => "service",
    }
}

/// The word for this policy.
pub(crate) fn policy_word(policy: Policy) -> &'static str
    ensures { result.now ≡ word_of_policy policy }
{
    match policy {
        Policy::Hold => "hold",
        Policy::Evict => "evict",
    }
}

fn plain_column(is_closed: bool) -> &'static str
    ensures { result.now ≡ plain_column is_closed }
{
    if is_closed { "closed" } else { "-" }
}

fn closed_mark(is_closed: bool) -> &'static str
    ensures { result.now ≡ closed_mark is_closed }
{
    if is_closed { ",closed" } else { "" }
}

// Puts the column of the state of a fifodir of this kind behind the line.
fn put_state_column(kind: Kind, status: Status, line: &mut String) -> Result<(), AllocError>
    ensures { OnOk result (line.new.bytes.items
        ≡ line.old.bytes.items ++ state_column kind status) }
{
    match kind {
        Kind::Plain => line.push_str(plain_column(status.closed)),
        Kind::Service => {
            line.push_str(state_word(status.flags))?;
            line.push_str(closed_mark(status.closed))
        }
    }
}

// The column of the state of a fifodir of this kind.
fn state_column(alloc: Global, kind: Kind, status: Status) -> Result<String, AllocError>
    ensures { IfOk result (λ it. it.bytes.items ≡ state_column kind status) }
{
    let mut column = String::new(alloc);
    put_state_column(kind, status, &mut column)?;
    Ok(column)
}

// Puts a number behind the line.
fn put_number(alloc: Global, number: u64, line: &mut String) -> Result<(), AllocError>
    ensures { OnOk result (line.new.bytes.items
        ≡ line.old.bytes.items ++ decimal number) }
{
    line.push_str(number.to_string(alloc)?.as_str())
}

// Puts a number behind the line, in a column of this width.
fn put_number_column(
    alloc: Global,
    width: usize,
    number: u64,
    line: &mut String,
) -> Result<(), AllocError>
    ensures { OnOk result (line.new.bytes.items
        ≡ line.old.bytes.items ++ beside width (decimal number) []) }
{
    put_column(width, number.to_string(alloc)?.as_str(), line)
}

// The column of what is pending.
fn pending_column(alloc: Global, about: About) -> Result<String, AllocError>
    ensures { IfOk result (λ it. it.bytes.items ≡ pending_column about) }
{
    let mut column = String::new(alloc);
    put_number(alloc, about.pending, &mut column)?;
    column.push_str(" of ")?;
    put_number(alloc, about.waiting, &mut column)?;
    Ok(column)
}

// Puts the columns behind the name behind the line.
fn put_columns(alloc: Global, it: Description, line: &mut String) -> Result<(), AllocError>
    ensures { OnOk result (line.new.bytes.items ≡ line.old.bytes.items ++ columns_of it) }
{
    let Description { about, status } = it;
    put_column(7, kind_word(about.kind), line)?;
    put_column(15, state_column(alloc, about.kind, status)?.as_str(), line)?;
    put_number_column(alloc, 9, status.number, line)?;
    put_number_column(alloc, 11, about.subscriptions, line)?;
    put_column(12, pending_column(alloc, about)?.as_str(), line)?;
    line.push_str(policy_word(about.policy))
}

/// Puts a row behind the table. The names have a column of this width.
pub fn put_row(
    width: usize,
    name: &str,
    columns: &str,
    table: &mut String,
) -> Result<(), AllocError>
    ensures { OnOk result (table.new.bytes.items
        ≡ table.old.bytes.items ++ row_of width name.now columns.now) }
{
    put_column(width, name, table)?;
    table.push_str(columns)?;
    table.push_str("\n")
}

/// Puts the row of a fifodir with this name behind the table.
pub fn put_described(
    alloc: Global,
    width: usize,
    name: &str,
    it: Description,
    table: &mut String,
) -> Result<(), AllocError>
    ensures { OnOk result (table.new.bytes.items
        ≡ table.old.bytes.items ++ row_of width name.now (columns_of it)) }
{
    put_column(width, name, table)?;
    put_columns(alloc, it, table)?;
    table.push_str("\n")
}
