//! The turns of a relay.
ghost use Rattle.std.specs.Prelude.{◌≡◌, ◌≢◌, ℕ, List, [], ◌++◌, length, false, Err, OnOk, IfOk, IfErr};
ghost use Rattle.std.specs.Io.KnownBytes.{Appends};
ghost use Rattle.hub_io.specs.Lines.{has_lf, IsLine};
ghost use Rattle.hub_io.specs.Telling.{Rises};
ghost use Rattle.hub_client.specs.Faults.{input_faults, output_faults, send_faults, receive_faults};
ghost use Rattle.hub_client.specs.Relaying.{writable, Finished, Stopped, ReadsWithin};
ghost use Rattle.hub_client.specs.Pending.{pending};
ghost use Rattle.hub_client.specs.Passing.{Moves, slack_of, EndsAs};
ghost use Rattle.hub_client.specs.UnderWay.{sent_of, slack_for, FailsToSend, FailsToReceive};

use crate::buffer::Buffer;
use crate::fault::{RelayError, of_receiving, of_sending};
use crate::passing::Passed;
use hub_io::{MAX_READS, Sink, Source, write_whole};
use std::alloc::Global;
use std::sync::Wait;

// Sends the next line of the input, and adds an LF if it has none.
fn send_line<R: Source, SW: Sink>(
    lines: &mut Buffer,
    input: &mut R,
    sender: &mut SW,
    left: &mut u64,
) -> Result<Passed, RelayError>
    ensures ok { IfOk result (λ end. (passed : List ℕ)
        × Moves (R.remaining input.old) (R.remaining input.new)
        (R.reads input.old) (R.reads input.new)
        (pending lines.old) (pending lines.new) left.old left.new (slack_of end) passed
        × EndsAs end passed (pending lines.new) (R.remaining input.new)
        × Appends (SW.contents sender.old) (SW.contents sender.new) (sent_of end passed)) }
    ensures err { IfErr result (λ e. (passed rest : List ℕ)
        × Moves (R.remaining input.old) (R.remaining input.new)
        (R.reads input.old) (R.reads input.new)
        (pending lines.old) rest left.old left.new (slack_for e) passed
        × FailsToSend e passed rest left.new × (has_lf passed ≡ false)
        × Appends (SW.contents sender.old) (SW.contents sender.new) passed) }
    ensures input_faults { Rises (R.faults input.old) (R.faults input.new) (input_faults result) }
    ensures send_faults { Rises (SW.faults sender.old) (SW.faults sender.new) (send_faults result) }
{
    match lines.pass_line(input, sender, left) {
        Ok(Passed::Part) => match write_whole(sender, b"\n") {
            Ok(()) => Ok(Passed::Part),
            Err(_) => Err(RelayError::Send),
        },
        Ok(passed) => Ok(passed),
        Err(fault) => Err(of_sending(fault)),
    }
}

// Writes the peer's next line, once its LF has come.
fn receive_reply<SR: Source, W: Sink>(
    replies: &mut Buffer,
    receiver: &mut SR,
    output: &mut W,
    left: &mut u64,
) -> Result<(), RelayError>
    ensures ok { OnOk result ((passed : List ℕ)
        × Moves (SR.remaining receiver.old) (SR.remaining receiver.new)
        (SR.reads receiver.old) (SR.reads receiver.new)
        (pending replies.old) (pending replies.new) left.old left.new 0 passed
        × IsLine passed × Appends (W.contents output.old) (W.contents output.new) passed) }
    ensures err { IfErr result (λ e. (passed rest due : List ℕ)
        × Moves (SR.remaining receiver.old) (SR.remaining receiver.new)
        (SR.reads receiver.old) (SR.reads receiver.new)
        (pending replies.old) rest left.old left.new (slack_for e) passed × (has_lf passed ≡ false)
        × (writable (passed ++ rest) ≡ passed ++ due)
        × FailsToReceive e due rest (SR.remaining receiver.new) left.new
        × Appends (W.contents output.old) (W.contents output.new) passed) }
    ensures receive_faults { Rises (SR.faults receiver.old) (SR.faults receiver.new)
        (receive_faults result) }
    ensures output_faults { Rises (W.faults output.old) (W.faults output.new)
        (output_faults result) }
{
    match replies.pass_reply(receiver, output, left) {
        Ok(true) => Ok(()),
        Ok(false) => Err(RelayError::Ended),
        Err(fault) => Err(of_receiving(fault)),
    }
}

/// Sends each line of the input to the peer, writes one reply line for each, and returns how many lines there were. A
/// reply is read only after its line was sent whole, and the next line is sent only after the reply was written.
///
/// Nothing of a reply is written before its LF has come, except the full buffers of a reply that is longer than a buffer.
/// A last line without an LF gets one. After an error the streams are where they stopped. The call waits for its peer
/// as long as the streams do.
pub fn relay<H: Wait, R: Source, W: Sink, SR: Source, SW: Sink>(
    _rt: &H,
    alloc: Global,
    input: &mut R,
    output: &mut W,
    receiver: &mut SR,
    sender: &mut SW,
) -> Result<u64, RelayError>
    // The lines of the input are sent, and as many lines of the peer are written, however the readers cut their bytes.
    ensures finished { IfOk result (Finished
        (R.remaining input.old) (R.remaining input.new)
        (SW.contents sender.old) (SW.contents sender.new)
        (SR.remaining receiver.old) (SR.remaining receiver.new)
        (W.contents output.old) (W.contents output.new)) }

    // At an error, a prefix of the lines was sent, and whole replies were written. Of a reply whose LF is missing, only
    // the buffers that it filled were written: nothing if it is shorter than a buffer, at Ended, Receive and Turns alike.
    ensures stopped { IfErr result (Stopped
        (R.remaining input.old) (R.remaining input.new)
        (SW.contents sender.old) (SW.contents sender.new)
        (SR.remaining receiver.old) (SR.remaining receiver.new)
        (W.contents output.old) (W.contents output.new)) }

    // Memory is allocated before the first read.
    ensures memory { result ≡ Err RelayError.Memory → (input.new ≡ input.old)
        × (output.new ≡ output.old)
        × (receiver.new ≡ receiver.old) × (sender.new ≡ sender.old) }

    // It makes at most `MAX_READS` reads.
    ensures reads { ReadsWithin (R.reads input.old) (R.reads input.new)
        (SR.reads receiver.old) (SR.reads receiver.new) result }

    // An error is reported if its fault was counted, and only then.
    ensures input_faults { Rises (R.faults input.old) (R.faults input.new) (input_faults result) }
    ensures output_faults { Rises (W.faults output.old) (W.faults output.new)
        (output_faults result) }
    ensures send_faults { Rises (SW.faults sender.old) (SW.faults sender.new) (send_faults result) }
    ensures receive_faults { Rises (SR.faults receiver.old) (SR.faults receiver.new)
        (receive_faults result) }
{
    let (Ok(mut lines), Ok(mut replies)) = (Buffer::new(alloc), Buffer::new(alloc)) else {
        return Err(RelayError::Memory);
    };
    let mut left = MAX_READS;
    let mut count = 0;
    'turns: loop {
        let passed = send_line(&mut lines, input, sender, &mut left)?;
        if passed == Passed::Nothing {
            return Ok(count);
        }
        receive_reply(&mut replies, receiver, output, &mut left)?;
        count += 1;
        if passed == Passed::Part {
            return Ok(count);
        }
    }
}
