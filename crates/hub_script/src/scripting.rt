//! One session over a desk of its own.
ghost use Rattle.std.specs.Prelude.{◌≡◌, ℕ, Bool, List, Err, IfOk, IfErr};
ghost use Rattle.hub_io.specs.Faults.{read_faults, write_faults};
ghost use Rattle.hub_front.specs.Serving.{ReadsWithin};
ghost use Rattle.hub_io.specs.Telling.{Rises};
ghost use Rattle.hub_script.specs.Output.{IsOutput, Serves, Stops};

use hub_front::serve;
use hub_io::{FrontError, MAX_READS, Sink, Source};
use hub_local::LocalDesk;
use hub_requests::Enter;
use std::alloc::Global;
use std::sync::Wait;

/// Serves the lines of the reader until they end, and returns how many they were.
pub fn script<H: Wait + Enter, R: Source, W: Sink>(
    rt: &H,
    alloc: Global,
    reader: &mut R,
    writer: &mut W,
) -> Result<u64, FrontError>
    // A new desk answers each line, and the texts of the replies are written. If none is `no memory`, they are the
    // output of the input: a function of the input's bytes, and of which texts in it are patterns.
    ensures output { IfOk result (λ n. Serves
        (W.contents writer.old) (W.contents writer.new)
        (R.remaining reader.old) (R.remaining reader.new) n) }

    // After an error nothing is written but the texts of a new desk's replies to the lines that were read, of the
    // last one perhaps a part.
    ensures stopped { IfErr result (Stops
        (W.contents writer.old) (W.contents writer.new)
        (R.remaining reader.old) (R.remaining reader.new)) }

    // Memory is allocated before the first read.
    ensures memory { result ≡ Err FrontError.Memory → (reader.new ≡ reader.old)
        × (writer.new ≡ writer.old) }

    // It makes at most `MAX_READS` reads. An error is reported if its fault was counted, and only then.
    ensures reads { ReadsWithin MAX_READS (R.reads reader.old) (R.reads reader.new) result }
    ensures read_faults { Rises (R.faults reader.old) (R.faults reader.new) (read_faults result) }
    ensures write_faults { Rises (W.faults writer.old) (W.faults writer.new) (write_faults result) }
{
    let Ok(mut desk) = LocalDesk::new(alloc) else {
        return Err(FrontError::Memory);
    };
    serve(rt, alloc, &mut desk, reader, writer)
}

/// A law: an input has one output, if it is given for each text of its `listen` lines whether it is a pattern.
pub fn input_has_one_output()
    ensures { (patterns : List Bool) (input a b : List ℕ) → IsOutput patterns input a
        → IsOutput patterns input b → a ≡ b }
{}
