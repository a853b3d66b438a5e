//! What a desk says of a fifodir.
ghost use Rattle.hub_requests.specs.declared.request.Request.TheVariants as request;

use hub_requests::{Desk, Enter, Name, Reply, Request};
use std::sync::Wait;

/// Asks the desk about the fifodir of this name.
pub(crate) fn ask_about<H: Wait + Enter, D: Desk>(rt: &H, desk: &mut D, name: Name) -> Reply
    ensures { D.asks desk.old (request.About name) result desk.new }
{
    desk.ask(rt, &Request::About { name })
}
