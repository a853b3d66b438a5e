//! Notes: lines for people, which nothing waits for.
ghost use Rattle.std.specs.Prelude.{◌≡◌, ◌++◌, codes, IfOk, OnErr, OnOk};
ghost use Rattle.hub_ask.specs.Streams.{IsToldTo, note_of};

use hub_io::{FrontError, Sink, write_whole};
use std::alloc::{AllocError, Global};

/// Writes a note. That a write fails isn't told.
pub fn write_note<F: Sink>(note: &[u8], notes: &mut F)
    ensures { IsToldTo (F.contents notes.old) (F.contents notes.new)
        (F.faults notes.old) (F.faults notes.new) note.now }
{
    let _: Result<(), FrontError> = write_whole(notes, note);
}

/// The beginning of a note on this name: the name, a colon and a space.
pub fn note_on(alloc: Global, name: &[u8]) -> Result<Vec<u8>, AllocError>
    ensures { IfOk result (λ it. it.items ≡ name.now ++ codes ": ") }
{
    let mut note = Vec::from_slice(alloc, name)?;
    note.extend_from_slice(b": ")?;
    Ok(note)
}

/// Writes a note on this name.
pub fn note<F: Sink>(
    alloc: Global,
    name: &[u8],
    what: &[u8],
    notes: &mut F,
) -> Result<(), AllocError>
    ensures ok { OnOk result (IsToldTo (F.contents notes.old) (F.contents notes.new)
        (F.faults notes.old) (F.faults notes.new) (note_of name.now what.now)) }
    ensures err { OnErr result (notes.new ≡ notes.old) }
{
    let mut line = note_on(alloc, name)?;
    line.extend_from_slice(what)?;
    line.push(b'\n')?;
    write_note(&line, notes);
    Ok(())
}
