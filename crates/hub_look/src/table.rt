//! A table of how fifodirs are, or an object of JSON for each.
ghost use Rattle.std.specs.Prelude.{◌≡◌, ◌⊎◌, ◌++◌, map, IfOk, IfErr, OnOk};
ghost use Rattle.hub_look.specs.Stops.{IsFaultOf, IsOwnFault, IsRefusal};
ghost use Rattle.hub_ask.specs.Streams.{streams};
ghost use Rattle.hub_look.specs.Tables.{FailsToShow, FailsToShowAll, FailsToShowStates, PutsTable, ShowsAll, ShowsStates, ShowsTable, headings_of, outcome_after, row_by, top_of, width_of};

use crate::describing::describe;
use crate::names::all_names;
use crate::peer::Peer;
use crate::stop::{Stop, write_text};
use hub_ask::{AskError, Outcome, Replies, Requests};
use hub_io::Sink;
use hub_requests::Refusal;
use hub_views::{Description, put_described, put_object, put_row};
use std::alloc::{AllocError, Global};
use std::sync::Wait;

/// The heading of the column of names.
const NAME: &str = "NAME";

/// The headings of the columns behind it.
const HEADINGS: &str = "KIND     STATE            EVENTS     SUBSCRIBERS  PENDING       POLICY";

// The width of the column of these names.
fn width_of(names: &[&str]) -> usize
    ensures { result ≡ width_of (λ name. name.now) names.now }
{
    let mut width = NAME.len();
    'names: for name in names {
        width = width.max(name.len());
    }
    width
}

// How a command goes on that went so, after what the hub says of one more name.
fn outcome_after(outcome: Outcome, finding: Result<Description, Refusal>) -> Outcome
    ensures { result ≡ outcome_after outcome finding }
{
    match finding {
        Ok(_) => outcome,
        Err(_) => Outcome::Refused,
    }
}

// Puts the headings, or words if there is no name.
fn put_headings(names: &[&str], table: &mut String) -> Result<(), AllocError>
    ensures { OnOk result (table.new.bytes.items
        ≡ table.old.bytes.items ++ headings_of (λ name. name.now) names.now) }
{
    if names.is_empty() {
        table.push_str("no services\n")
    } else {
        put_row(width_of(names), NAME, HEADINGS, table)
    }
}

// Puts what is above the rows of these names: nothing above objects.
fn put_top(is_json: bool, names: &[&str], table: &mut String) -> Result<(), AllocError>
    ensures { OnOk result (table.new.bytes.items
        ≡ table.old.bytes.items ++ top_of (λ name. name.now) is_json names.now) }
{
    if is_json {
        Ok(())
    } else {
        put_headings(names, table)
    }
}

// Puts the row of a name behind the table, or its object, if the hub says how it is.
fn put_finding(
    alloc: Global,
    is_json: bool,
    width: usize,
    name: &str,
    finding: Result<Description, Refusal>,
    table: &mut String,
) -> Result<(), AllocError>
    ensures { OnOk result (table.new.bytes.items
        ≡ table.old.bytes.items ++ row_by is_json width name.now finding) }
{
    match finding {
        Ok(it) if is_json => put_object(alloc, name, it, table),
        Ok(it) => put_described(alloc, width, name, it, table),
        Err(_) => Ok(()),
    }
}

// Puts the table of these names, or their objects, behind this one. No row of a refused name, which makes the outcome a refusal.
fn put_table<H: Wait, SR: Replies, SW: Requests, F: Sink>(
    rt: &H,
    alloc: Global,
    is_json: bool,
    names: &[&str],
    peer: &mut Peer<SR, SW>,
    table: &mut String,
    notes: &mut F,
) -> Result<Outcome, Stop>
    ensures begun { peer.new.begun ≡ peer.old.begun }
    ensures ok { IfOk result (PutsTable (λ name. name.now) is_json
        (streams SW.contents SR.remaining F.contents F.faults peer.old.client notes.old)
        (streams SW.contents SR.remaining F.contents F.faults peer.new.client notes.new)
        names.now table.old.bytes.items table.new.bytes.items) }
    ensures err { IfErr result IsOwnFault }
{
    let width = width_of(names);
    put_top(is_json, names, table)?;
    let mut outcome = Outcome::Done;
    'names: for name in names {
        let finding = describe(rt, alloc, name, peer, notes)?;
        put_finding(alloc, is_json, width, name, finding, table)?;
        outcome = outcome_after(outcome, finding);
    }
    Ok(outcome)
}

// The texts of these names.
fn words_of(alloc: Global, names: &[String]) -> Result<Vec<&str>, AllocError>
    ensures { IfOk result (λ words. map (λ word. word.now) words.items
        ≡ map (λ name. name.bytes.items) names.now) }
{
    let mut words = Vec::with_capacity(alloc, names.len())?;
    'names: for name in names {
        words.push(name.as_str())?;
    }
    Ok(words)
}

// Writes the table of these names, or their objects.
fn show_each<H: Wait, SR: Replies, SW: Requests, W: Sink, F: Sink>(
    rt: &H,
    alloc: Global,
    is_json: bool,
    names: &[&str],
    peer: &mut Peer<SR, SW>,
    output: &mut W,
    notes: &mut F,
) -> Result<Outcome, Stop>
    ensures begun { peer.new.begun ≡ peer.old.begun }
    ensures ok { IfOk result (ShowsTable (λ name. name.now) is_json
        (streams SW.contents SR.remaining F.contents F.faults peer.old.client notes.old)
        (streams SW.contents SR.remaining F.contents F.faults peer.new.client notes.new)
        (W.contents output.old) (W.contents output.new) names.now) }
    ensures err { IfErr result (IsFaultOf (FailsToShow (λ name. name.now) is_json
        (streams SW.contents SR.remaining F.contents F.faults peer.old.client notes.old)
        (streams SW.contents SR.remaining F.contents F.faults peer.new.client notes.new)
        (W.contents output.old) (W.contents output.new) names.now)) }
{
    let mut table = String::new(alloc);
    let outcome = put_table(rt, alloc, is_json, names, peer, &mut table, notes)?;
    write_text(output, table.as_bytes())?;
    Ok(outcome)
}

// Writes the table of all names of the hub, or their objects.
fn show_all<H: Wait, SR: Replies, SW: Requests, W: Sink, F: Sink>(
    rt: &H,
    alloc: Global,
    is_json: bool,
    peer: &mut Peer<SR, SW>,
    output: &mut W,
    notes: &mut F,
) -> Result<Outcome, Stop>
    ensures begun { peer.new.begun ≡ peer.old.begun }
    ensures ok { IfOk result (ShowsAll is_json
        (streams SW.contents SR.remaining F.contents F.faults peer.old.client notes.old)
        (streams SW.contents SR.remaining F.contents F.faults peer.new.client notes.new)
        (W.contents output.old) (W.contents output.new)) }
    ensures err { IfErr result (λ it. IsRefusal it (W.contents output.new ≡ W.contents output.old)
        ⊎ IsFaultOf (FailsToShowAll is_json
        (streams SW.contents SR.remaining F.contents F.faults peer.old.client notes.old)
        (streams SW.contents SR.remaining F.contents F.faults peer.new.client notes.new)
        (W.contents output.old) (W.contents output.new)) it) }
{
    let listed = all_names(rt, alloc, peer, notes)?;
    let names = words_of(alloc, &listed)?;
    show_each(rt, alloc, is_json, &names, peer, output, notes)
}

/// Writes a table to the output: a row for each of these fifodirs, or for each of the hub if none is named, and `no services` if it has
/// none. With `is_json` it writes an object on a line for each, and nothing else. For a name that the hub refuses, `notes` gets a line,
/// and the outcome is [`Outcome::Refused`].
pub fn show_states<H: Wait, SR: Replies, SW: Requests, W: Sink, F: Sink>(
    rt: &H,
    alloc: Global,
    is_json: bool,
    names: &[&str],
    peer: &mut Peer<SR, SW>,
    output: &mut W,
    notes: &mut F,
) -> Result<Outcome, AskError>
    // What it sends are looks (`Peer`).
    ensures begun { peer.new.begun ≡ peer.old.begun }
    // The hub listed the names, if none is given. Each was asked about once, in order: what it is, and then for its status. The table has the rows of what was replied of that very name, and each refusal has a note.
    ensures ok { IfOk result (ShowsStates (λ name. name.now) is_json
        (streams SW.contents SR.remaining F.contents F.faults peer.old.client notes.old)
        (streams SW.contents SR.remaining F.contents F.faults peer.new.client notes.new)
        (W.contents output.old) (W.contents output.new) names.now) }
    // Unless writing the table failed, nothing of it is written.
    ensures err { IfErr result (FailsToShowStates (λ name. name.now) is_json
        (streams SW.contents SR.remaining F.contents F.faults peer.old.client notes.old)
        (streams SW.contents SR.remaining F.contents F.faults peer.new.client notes.new)
        (W.contents output.old) (W.contents output.new) names.now) }
{
    let shown = if names.is_empty() {
        show_all(rt, alloc, is_json, peer, output, notes)
    } else {
        show_each(rt, alloc, is_json, names, peer, output, notes)
    };
    match shown {
        Ok(outcome) => Ok(outcome),
        Err(stop) => stop.outcome(),
    }
}
