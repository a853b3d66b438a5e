//! Texts and numbers as JSON writes them.
ghost use Rattle.std.specs.Prelude.{◌≡◌, ◌++◌, OnOk};
ghost use Rattle.std.specs.Option.{option_map};
ghost use Rattle.hub_views.specs.Json.{escaped, number_or_null, string_of, string_or_null};
ghost use Rattle.std.specs.Prelude.{flat_map};

use std::alloc::{AllocError, Global};

// Puts a byte of a string behind these bytes.
fn put_byte(byte: u8, line: &mut Vec<u8>) -> Result<(), AllocError>
    ensures { OnOk result (line.new.items ≡ line.old.items ++ escaped byte) }
{
    if byte == b'"' || byte == b'\\' {
        line.extend_from_slice(&[b'\\', byte])
    } else {
        line.extend_from_slice(&[byte])
    }
}

fn put_escaped(text: &[u8], line: &mut Vec<u8>) -> Result<(), AllocError>
    ensures { OnOk result (line.new.items ≡ line.old.items ++ flat_map escaped text.now) }
{
    'bytes: for byte in text {
        put_byte(*byte, line)?;
    }
    Ok(())
}

/// Puts a string behind these bytes. The text has no control character.
pub(crate) fn put_string(text: &[u8], line: &mut Vec<u8>) -> Result<(), AllocError>
    ensures { OnOk result (line.new.items ≡ line.old.items ++ string_of text.now) }
{
    line.extend_from_slice(b"\"")?;
    put_escaped(text, line)?;
    line.extend_from_slice(b"\"")
}

/// Puts a string behind these bytes, or null if there is no text.
pub(crate) fn put_string_or_null(text: Option<&str>, line: &mut Vec<u8>) -> Result<(), AllocError>
    ensures { OnOk result (line.new.items
        ≡ line.old.items ++ string_or_null (option_map (λ it. it.now) text.entry)) }
{
    match text {
        Some(text) => put_string(text.as_bytes(), line),
        None => line.extend_from_slice(b"null"),
    }
}

/// Puts a number behind these bytes, or null if there is none.
pub(crate) fn put_number_or_null(
    alloc: Global,
    number: Option<u64>,
    line: &mut Vec<u8>,
) -> Result<(), AllocError>
    ensures { OnOk result (line.new.items ≡ line.old.items ++ number_or_null number) }
{
    match number {
        Some(number) => line.extend_from_slice(number.to_string(alloc)?.as_bytes()),
        None => line.extend_from_slice(b"null"),
    }
}
