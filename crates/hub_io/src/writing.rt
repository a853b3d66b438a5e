//! Writes bytes whole.
ghost use Rattle.std.specs.Prelude.{◌≡◌, OnOk, OnErr, IfErr};
ghost use Rattle.std.specs.Io.KnownBytes.{Appends};
ghost use Rattle.hub_io.specs.Faults.{AppendsPart, write_faults};
ghost use Rattle.hub_io.specs.Telling.{Rises};

use crate::fault::FrontError;
use crate::sink::Sink;

/// Writes all of the bytes. It stops if the writer fails or takes no byte, and a prefix of the bytes is then written.
pub fn write_whole<W: Sink>(writer: &mut W, bytes: &[u8]) -> Result<(), FrontError>
    ensures ok { OnOk result (Appends (W.contents writer.old) (W.contents writer.new) bytes.now) }
    ensures err { OnErr result (AppendsPart (W.contents writer.old)
        (W.contents writer.new) bytes.now) }
    ensures fault { IfErr result (λ e. e ≡ FrontError.Write) }
    ensures told { Rises (W.faults writer.old) (W.faults writer.new) (write_faults result) }
{
    let mut written = 0;
    'parts: while written < bytes.len() {
        match writer.push(&bytes[written..]) {
            Ok(0) | Err(_) => return Err(FrontError::Write),
            Ok(n) => written += n,
        }
    }
    Ok(())
}
