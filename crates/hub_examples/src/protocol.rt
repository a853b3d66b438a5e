// crates.txt: YOURS: hub_protocol hub_requests
use hub_protocol::{parse, write_reply};
use hub_requests::{Desk, Enter, Reply};
use std::alloc::{AllocError, Global};
use std::sync::Wait;

/// Has the desk answer a line, which comes without its LF, and appends the reply with its LF to `out`.
pub fn answer_line<H: Wait + Enter, D: Desk>(
    rt: &H,
    alloc: Global,
    desk: &mut D,
    line: &[u8],
    out: &mut Vec<u8>,
) -> Result<(), AllocError> {
    let reply = match parse(alloc, line) {
        Ok(request) => desk.ask(rt, &request),
        Err(refusal) => Reply::No(refusal),
    };
    write_reply(&reply, out)
}
