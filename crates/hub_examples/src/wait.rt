// crates.txt: YOURS: hub_wait hub_fifodir hub_record hub_letters
use hub_fifodir::{Enter, Fifodir};
use hub_letters::Want;
use hub_record::SubError;
use hub_wait::{Patience, Post, Span, Verdict, svwait};
use std::alloc::Global;
use std::rt::Clock;
use std::sync::{Arc, Wait};

/// Waits until a service is ready, for about five seconds: at most 5,000 turns, of a millisecond each.
pub fn wait_until_ready<H: Clock + Wait + Enter + Copy>(
    rt: &H,
    service: Arc<Fifodir, Global>,
) -> Result<Verdict, SubError> {
    let mut pause = Patience::new(*rt);
    let mut posts = [Post::open(rt, service, Want::Ready, true)?];
    let verdict = svwait(rt, &mut posts, Span::All, 5_000, &mut pause);
    let [post] = posts;
    post.end(rt);
    Ok(verdict)
}
