//! Cuts bytes into lines.
ghost use Rattle.std.specs.Prelude.{◌≡◌, ◌==◌, false, position, MatchOption};
ghost use Rattle.hub_io.specs.Lines.{has_lf, BeginsWith};

const LF: u8 = b'\n';

// The place of the first LF.
fn line_feed(bytes: &[u8]) -> Option<usize>
    ensures { result ≡ position (λ b. b == 10) bytes.now }
{
    bytes.iter().position(|byte| *byte == LF)
}

/// The first line, without its LF, and the bytes behind that LF. None if the bytes have no LF.
///
/// It reads and writes nothing: feed it what came, take the line, and feed it the rest.
pub fn first_line(bytes: &[u8]) -> Option<(&[u8], &[u8])>
    ensures { MatchOption result (has_lf bytes.now ≡ false)
        (λ parts. BeginsWith bytes.now parts.0.now parts.1.now) }
{
    let place = line_feed(bytes)?;
    Some((&bytes[..place], &bytes[place + 1..]))
}
