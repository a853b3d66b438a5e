//! Lines for people on what a hub refuses.
ghost use Rattle.std.specs.Prelude.{◌≡◌, ◌++◌, ◌∷◌, [], OnOk, OnErr};
ghost use Rattle.hub_ask.specs.Streams.{IsToldTo, note_of};
ghost use Rattle.hub_commands.specs.Notes.{reason_of};

use hub_ask::{note_on, write_note};
use hub_io::Sink;
use hub_protocol::write_reply;
use hub_requests::{Refusal, Reply};
use std::alloc::{AllocError, Global};

// Puts why a hub refuses something of a service behind these bytes, and an LF.
fn put_reason(refusal: Refusal, line: &mut Vec<u8>) -> Result<(), AllocError>
    ensures { OnOk result (line.new.items ≡ line.old.items ++ (reason_of refusal ++ 10 ∷ [])) }
{
    match refusal {
        Refusal::Right => {
            line.extend_from_slice(b"this socket only looks: ask at the hub's own socket\n")
        }
        Refusal::Name => line.extend_from_slice(b"no such service\n"),
        Refusal::Kind => line.extend_from_slice(b"not a service\n"),
        Refusal::Closed => line.extend_from_slice(b"closed\n"),
        _ => write_reply(&Reply::No(refusal), line),
    }
}

/// Writes a line that says what a hub refuses of this name.
pub(crate) fn note_refusal<F: Sink>(
    alloc: Global,
    name: &[u8],
    refusal: Refusal,
    notes: &mut F,
) -> Result<(), AllocError>
    ensures ok { OnOk result (IsToldTo (F.contents notes.old) (F.contents notes.new)
        (F.faults notes.old) (F.faults notes.new) (note_of name.now (reason_of refusal))) }
    ensures err { OnErr result (notes.new ≡ notes.old) }
{
    let mut line = note_on(alloc, name)?;
    put_reason(refusal, &mut line)?;
    write_note(&line, notes);
    Ok(())
}
