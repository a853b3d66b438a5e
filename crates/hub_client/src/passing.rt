//! Lines on their way through a buffer, from a reader to a writer.
ghost use Rattle.std.specs.Prelude.{◌≡◌, ℕ, List, [], ◌++◌, false, IfOk, IfErr, MatchBool};
ghost use Rattle.std.specs.Io.KnownBytes.{Appends, IsAtEnd};
ghost use Rattle.hub_io.specs.Lines.{has_lf, IsLine};
ghost use Rattle.hub_io.specs.Telling.{Rises};
ghost use Rattle.hub_io.specs.Faults.{read_faults, write_faults};
ghost use Rattle.hub_client.specs.Passing.{Moves, slack_of, slack_at, EndsAs, FailsAs, FailsInPieces};
ghost use Rattle.hub_client.specs.Relaying.{writable};

use crate::buffer::{Buffer, Fallible};
use hub_io::{Sink, Source};

/// How much of a line passed.
#[derive(Clone, Copy, Debug, PartialEq, Eq)]
pub(crate) enum Passed {
    /// The line passed, with its LF.
    Line,
    /// The stream ended after some bytes of a line.
    Part,
    /// The stream ended before the first byte of a line.
    Nothing,
}

impl Buffer {
    ghost use Rattle.hub_client.specs.Pending.{pending};

    /// Passes bytes on, each piece as it comes, up to the LF of a line and including it. What was read beyond the LF
    /// stays.
    pub(crate) fn pass_line<R: Source, W: Sink>(
        &mut self,
        reader: &mut R,
        writer: &mut W,
        left: &mut u64,
    ) -> Fallible<Passed>
        ensures ok { IfOk result (λ end. (passed : List ℕ)
            × Moves (R.remaining reader.old) (R.remaining reader.new)
            (R.reads reader.old) (R.reads reader.new) (pending self.old) (pending self.new)
            left.old left.new (slack_of end) passed
            × EndsAs end passed (pending self.new) (R.remaining reader.new)
            × Appends (W.contents writer.old) (W.contents writer.new) passed) }
        ensures err { IfErr result (λ e. (passed rest : List ℕ)
            × Moves (R.remaining reader.old) (R.remaining reader.new)
            (R.reads reader.old) (R.reads reader.new)
            (pending self.old) rest left.old left.new (slack_at e) passed
            × FailsAs e rest left.new × (has_lf passed ≡ false)
            × Appends (W.contents writer.old) (W.contents writer.new) passed) }
        ensures read_faults { Rises (R.faults reader.old) (R.faults reader.new)
            (read_faults result) }
        ensures write_faults { Rises (W.faults writer.old) (W.faults writer.new)
            (write_faults result) }
    {
        let mut some = false;
        'pieces: loop {
            if !self.fill(reader, left)? {
                return Ok(Passed::at_end(some));
            }
            if self.pass_piece(writer)? {
                return Ok(Passed::Line);
            }
            some = true;
        }
    }

    /// Passes a reply on, up to its LF and including it. Returns whether the LF came before the stream's end. Nothing
    /// passes before the LF has come, except the full buffers of a longer reply. What was read beyond the LF stays.
    pub(crate) fn pass_reply<R: Source, W: Sink>(
        &mut self,
        reader: &mut R,
        writer: &mut W,
        left: &mut u64,
    ) -> Fallible<bool>
        ensures ok { IfOk result
            (λ whole. (passed : List ℕ) × Appends (W.contents writer.old) (W.contents writer.new)
            passed × MatchBool whole
            (Moves (R.remaining reader.old) (R.remaining reader.new)
            (R.reads reader.old) (R.reads reader.new) (pending self.old) (pending self.new)
            left.old left.new 0 passed × IsLine passed)
            (Moves (R.remaining reader.old) (R.remaining reader.new)
            (R.reads reader.old) (R.reads reader.new) (pending self.old) (pending self.new)
            left.old left.new 1 passed × (has_lf passed ≡ false)
            × (writable (passed ++ pending self.new) ≡ passed) × (has_lf (pending self.new) ≡ false)
            × IsAtEnd (R.remaining reader.new))) }
        ensures err { IfErr result (λ e. (passed rest due : List ℕ)
            × Moves (R.remaining reader.old) (R.remaining reader.new)
            (R.reads reader.old) (R.reads reader.new)
            (pending self.old) rest left.old left.new (slack_at e) passed × (has_lf passed ≡ false)
            × (writable (passed ++ rest) ≡ passed ++ due) × FailsInPieces e due rest left.new
            × Appends (W.contents writer.old) (W.contents writer.new) passed) }
        ensures read_faults { Rises (R.faults reader.old) (R.faults reader.new)
            (read_faults result) }
        ensures write_faults { Rises (W.faults writer.old) (W.faults writer.new)
            (write_faults result) }
    {
        'pieces: loop {
            if !self.gather(reader, left)? {
                return Ok(false);
            }
            if self.pass_piece(writer)? {
                return Ok(true);
            }
        }
    }
}

impl Passed {
    ghost use Rattle.std.specs.Prelude.{if◌then◌else◌};
    ghost use Rattle.hub_client.specs.declared.passing.Passed.TheVariants.{Part, Nothing};

    // How much of a line passed whose stream has ended: some bytes, or none.
    fn at_end(some: bool) -> Passed
        ensures { result ≡ (if some then Part else Nothing) }
    {
        if some { Passed::Part } else { Passed::Nothing }
    }
}
