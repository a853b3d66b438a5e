//! The subcommand `ask`: one request, made of words.
ghost use Rattle.std.specs.Prelude.{◌≡◌};
ghost use Rattle.hub_ask.specs.Lines.{joined};
ghost use Rattle.hub_commands.specs.Asking.{Asks};
ghost use Rattle.hub_dialing.specs.Dialing.{dialing};

use crate::hinting::note_hint;
use hub_ask::{ANSWER, Client, Line, Outcome, ask, turns_asked};
use hub_dialing::Dial;
use hub_endings::{BadWords, Ending};
use hub_io::Sink;
use std::alloc::Global;
use std::sync::Wait;

/// Sends the words as one request to the hub at the socket, writes its reply, and returns the exit status for it. `notes` gets a hint at
/// a refusal: what a person may do about it. Words with a line feed are refused, since they would be several requests.
pub fn ask_words<H: Wait, D: Dial, W: Sink, F: Sink>(
    rt: &H,
    alloc: Global,
    dialer: &mut D,
    socket: &str,
    words: &[&str],
    output: &mut W,
    notes: &mut F,
) -> Result<u8, Ending>
    // If a word has an LF, it is refused: no connection is made, and nothing is written. Else one connection is made, over which
    // the words go as one line. Its reply is written, and has the status. A refusal is noted by its hint, and nothing else is noted.
    ensures { Asks
        (dialing D.reaches D.Receiver.remaining D.Sender.contents)
        dialer.old dialer.new socket.now (joined (λ word. word.now) words.now)
        (record { contents = F.contents; faults = F.faults }) notes.old notes.new
        (output.new ≡ output.old) (W.contents output.old) (W.contents output.new) result }
{
    let Some(line) = Line::of(alloc, words)? else {
        return Err(Ending::Refused(BadWords::Word));
    };
    let turns = turns_asked(alloc, &line);
    let (receiver, sender) = dialer.dial(socket, turns + ANSWER)?;
    let mut client = Client {
        receiver,
        sender,
        is_broken: false,
    };
    let heard = ask(rt, alloc, &line, &mut client, output)?;
    let reply = heard.reply();
    note_hint(line.as_bytes(), reply, notes);
    Ok(Outcome::of_reply(reply).status())
}
