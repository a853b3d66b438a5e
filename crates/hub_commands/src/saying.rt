//! The lines that say for what a wait waits, if it isn't for a service yet.
ghost use Rattle.std.specs.Prelude.{◌≡◌, ◌++◌, ℕ, List, true, false, IfOk, OnOk, OnErr};
ghost use Rattle.std.specs.Borrow.{Bor};
ghost use Rattle.hub_ask.specs.Streams.{IsToldTo};
ghost use Rattle.hub_commands.specs.Missing.{AsksNames};
ghost use Rattle.hub_commands.specs.Sayings.{AreSaid, HubIsSaid, NamesAreSaid, are, has_text, hub_line, missing_text, names_line, there_text};

use crate::missing::{missing_of, names_there};
use hub_ask::{Client, Deadline, Replies, Requests, write_note};
use hub_io::Sink;
use std::alloc::{AllocError, Global};
use std::rt::Clock;
use std::sync::Wait;

/// After how many milliseconds a line says for what is waited.
const QUIET: u64 = 1_000;

/// A line that is written at most once, after something has been waited for for a second.
#[derive(Clone, Copy, Debug)]
struct Saying {
    is_said: bool,
    quiet: Option<Deadline>,
}

impl Saying {
    // Whether the line is to be written now.
    fn is_due<C: Clock>(&mut self, clock: &C) -> bool
        ensures due { result ≡ true → self.old.is_said ≡ false }
        ensures same { self.new.is_said ≡ self.old.is_said }
    {
        if self.is_said {
            return false;
        }
        let quiet = match self.quiet {
            Some(quiet) => quiet,
            None => Deadline::after(clock, QUIET),
        };
        self.quiet = Some(quiet);
        quiet.left(clock).is_none()
    }
}

/// The lines that say for what a wait waits: one about the hub, and one about the names.
#[derive(Clone, Copy, Debug)]
pub(crate) struct Sayings {
    hub: Saying,
    names: Saying,
}

impl Sayings {
    /// Neither line is written yet. If `is_quiet`, neither is to be.
    pub(crate) fn new(is_quiet: bool) -> Sayings
        ensures { (result.hub.is_said ≡ is_quiet) × (result.names.is_said ≡ is_quiet) }
    {
        let saying = Saying {
            is_said: is_quiet,
            quiet: None,
        };
        Sayings {
            hub: saying,
            names: saying,
        }
    }

    /// Writes the line about the hub, if it is time for it and it isn't written yet.
    pub(crate) fn say_hub<C: Clock, F: Sink>(
        &mut self,
        clock: &C,
        alloc: Global,
        socket: &str,
        notes: &mut F,
    ) -> Result<(), AllocError>
        ensures said { AreSaid self.old self.new }
        ensures told { HubIsSaid self.old self.new socket.now
            (F.contents notes.old) (F.contents notes.new) (F.faults notes.old) (F.faults notes.new) }
        ensures quiet { self.old.hub.is_said ≡ true → notes.new ≡ notes.old }
    {
        if !self.hub.is_due(clock) {
            return Ok(());
        }
        self.hub.is_said = true;
        tell_hub(alloc, socket, notes)
    }

    /// Writes the line about the names, if it is time for it and it isn't written yet. It asks the hub which names it has. If the hub
    /// doesn't say so, or has all of them by now, nothing is written.
    pub(crate) fn say_names<H: Wait + Clock, SR: Replies, SW: Requests, F: Sink>(
        &mut self,
        rt: &H,
        alloc: Global,
        names: &[&str],
        client: &mut Client<SR, SW>,
        notes: &mut F,
    ) -> Result<(), AllocError>
        ensures said { AreSaid self.old self.new }
        ensures told { NamesAreSaid (λ (name : Bor (List ℕ)). name.now) self.old self.new
            (F.contents notes.old) (F.contents notes.new) (F.faults notes.old) (F.faults notes.new) }
        ensures quiet { self.old.names.is_said ≡ true → notes.new ≡ notes.old }
        ensures asked { AsksNames (SW.contents client.old.sender) (SW.contents client.new.sender) }
    {
        if !self.names.is_due(rt) {
            return Ok(());
        }
        let Ok(there) = names_there(rt, alloc, client) else {
            return Ok(());
        };
        let missing = missing_of(alloc, names, &there)?;
        if missing.is_empty() {
            return Ok(());
        }
        self.names.is_said = true;
        tell_names(alloc, &missing, &there, notes)
    }
}

// Says that a hub is waited for.
fn tell_hub<F: Sink>(alloc: Global, socket: &str, notes: &mut F) -> Result<(), AllocError>
    ensures ok { OnOk result (IsToldTo (F.contents notes.old) (F.contents notes.new)
        (F.faults notes.old) (F.faults notes.new) (hub_line socket.now)) }
    ensures err { OnErr result (notes.new ≡ notes.old) }
{
    let line = format!(in alloc; "ftrighub: waiting for the hub at {socket}\n")?;
    write_note(line.as_bytes(), notes);
    Ok(())
}

// The verb for so many names.
fn are(names: usize) -> &'static str
    ensures { result.now ≡ are names }
{
    if names == 1 { "is" } else { "are" }
}

// What a hub has whose names are these.
fn there_text(there: &[u8]) -> &[u8]
    ensures { result.now ≡ there_text there.now }
{
    if there.is_empty() { b"no names" } else { there }
}

// Puts what is said of names that a hub lacks behind this line.
fn put_missing(alloc: Global, missing: &[&str], line: &mut Vec<u8>) -> Result<(), AllocError>
    ensures { OnOk result (line.new.items
        ≡ line.old.items ++ missing_text (λ name. name.now) missing.now) }
{
    let list = missing.join(alloc, " ")?;
    line.extend_from_slice(list.as_bytes())?;
    line.extend_from_slice(b" ")?;
    line.extend_from_slice(are(missing.len()).as_bytes())
}

// Puts what is said of those that it has there.
fn put_there(there: &[u8], line: &mut Vec<u8>) -> Result<(), AllocError>
    ensures { OnOk result (line.new.items ≡ line.old.items ++ has_text there.now) }
{
    line.extend_from_slice(b" made (the hub has ")?;
    line.extend_from_slice(there_text(there))?;
    line.extend_from_slice(b")\n")
}

// The line on these names, which a hub lacks that has those.
fn names_line(alloc: Global, missing: &[&str], there: &[u8]) -> Result<Vec<u8>, AllocError>
    ensures { IfOk result (λ it. it.items ≡ names_line (λ name. name.now) missing.now there.now) }
{
    let mut line = Vec::from_slice(alloc, b"ftrighub: waiting until ")?;
    put_missing(alloc, missing, &mut line)?;
    put_there(there, &mut line)?;
    Ok(line)
}

// Says that these names are waited for.
fn tell_names<F: Sink>(
    alloc: Global,
    missing: &[&str],
    there: &[u8],
    notes: &mut F,
) -> Result<(), AllocError>
    ensures ok { OnOk result (IsToldTo (F.contents notes.old) (F.contents notes.new)
        (F.faults notes.old) (F.faults notes.new)
        (names_line (λ name. name.now) missing.now there.now)) }
    ensures err { OnErr result (notes.new ≡ notes.old) }
{
    let line = names_line(alloc, missing, there)?;
    write_note(&line, notes);
    Ok(())
}
