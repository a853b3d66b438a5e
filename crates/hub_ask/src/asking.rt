//! One request, whose reply is written.
ghost use Rattle.std.specs.Prelude.{IfOk, IfErr};
ghost use Rattle.hub_ask.specs.Asking.{HasNoReply, HasNoLine, IsWritten};
ghost use Rattle.hub_ask.specs.Hearing.{line_of};
ghost use Rattle.hub_ask.specs.Lines.{bytes_of};
ghost use Rattle.hub_ask.specs.Outcomes.{Tells};

use crate::client::Client;
use crate::fault::AskError;
use crate::heard::Heard;
use crate::line::Line;
use crate::peer::{Replies, Requests};
use hub_client::RelayError;
use hub_io::{Sink, write_whole};
use std::alloc::Global;
use std::sync::Wait;

/// Sends the line to the peer, writes its reply line, and returns the reply.
pub(crate) fn ask_and_write<H: Wait, SR: Replies, SW: Requests, W: Sink>(
    rt: &H,
    alloc: Global,
    line: &Line,
    client: &mut Client<SR, SW>,
    output: &mut W,
) -> Result<Vec<u8>, AskError>
    ensures ok { IfOk result (λ reply. IsWritten
        (SW.contents client.old.sender) (SW.contents client.new.sender)
        (SR.remaining client.old.receiver) (SR.remaining client.new.receiver)
        (W.contents output.old) (W.contents output.new) (bytes_of line.now) reply.items) }
    ensures err { IfErr result (HasNoLine
        (SW.contents client.old.sender) (SW.contents client.new.sender)
        (SR.remaining client.old.receiver) (SR.remaining client.new.receiver)
        (W.contents output.old) (W.contents output.new) (bytes_of line.now)) }
{
    let reply = client.send(rt, alloc, line)?;
    match write_whole(output, &reply) {
        Ok(()) => Ok(reply),
        Err(_) => Err(AskError::Relay(RelayError::Output)),
    }
}

/// Sends the line to the peer, writes its reply line, and returns the reply.
pub fn ask<H: Wait, SR: Replies, SW: Requests, W: Sink>(
    rt: &H,
    alloc: Global,
    line: &Line,
    client: &mut Client<SR, SW>,
    output: &mut W,
) -> Result<Heard, AskError>
    // The line was sent and the reply was written, each exactly once.
    ensures ok { IfOk result (λ heard. IsWritten
        (SW.contents client.old.sender) (SW.contents client.new.sender)
        (SR.remaining client.old.receiver) (SR.remaining client.new.receiver)
        (W.contents output.old) (W.contents output.new) (bytes_of line.now) (line_of heard)) }
    // Without a whole reply, nothing is written.
    ensures err { IfErr result (HasNoReply Tells
        (SW.contents client.old.sender) (SW.contents client.new.sender)
        (SR.remaining client.old.receiver) (SR.remaining client.new.receiver)
        (W.contents output.old) (W.contents output.new) (bytes_of line.now)) }
{
    let reply = ask_and_write(rt, alloc, line, client, output)?;
    Heard::of(reply).ok_or(AskError::Unknown)
}
