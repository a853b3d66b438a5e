//! Sessions over Unix sockets.
use crate::tests::clients::Client;
use crate::tests::gates::Door;
use hub_server::Report;
use hub_serving::{Enter, serve_all};
use hub_shared::Hub;
use hub_wait::Patience;
use std::alloc::Global;
use std::fs::Files;
use std::net::Net;
use std::os::unix::net::{UnixListener, UnixStream};
use std::process::Abort;
use std::rt::Clock;
use std::sync::{Arc, Wait};
use std::test::Fail;
use std::thread::{JoinHandle, Threads};
use std::{fs, io, thread};

/// A server's socket, and so many clients that are connected to it already.
pub fn open(
    rt: &(impl Files + Net),
    alloc: Global,
    path: &'static str,
    count: usize,
) -> io::Result<(Door, Vec<Client>)> {
    let _ = fs::remove_file(rt, path);
    let listener = UnixListener::bind(rt, path)?;
    let mut clients = Vec::new(alloc);
    for _ in 0..count {
        clients.push(Client::new(alloc, UnixStream::connect(rt, path)?)?)?;
    }
    let _ = fs::remove_file(rt, path);
    let listener = Some(listener);
    Ok((Door { listener }, clients))
}

/// Serves so many connections over a new hub.
pub fn serve_door<H>(rt: &H, alloc: Global, mut door: Door, sessions: u64) -> io::Result<Report>
where
    H: Clock + Threads + Wait + Enter + Copy + Send + 'static,
{
    let hub = Arc::new(alloc, Hub::new(alloc)?)?;
    match serve_all(rt, alloc, hub, &mut door, sessions, Patience::new(*rt)) {
        Ok(report) => Ok(report),
        Err(_) => Err(io::Error::from(io::ErrorKind::Other)),
    }
}

/// What clients do.
#[derive(Clone, Copy)]
enum Talk {
    EndOneOfTwo,
    SendWithoutEnd,
    CutOffOneOfTwo,
}

/// A session that has ended, while another goes on. The fifodir that it made stays as it was, and is the only one.
fn end_one_of_two(mut first: Client, mut second: Client) -> io::Result<bool> {
    first.ask(b"dir web 64 1000")?;
    first.finish()?;
    let hung_up = first.rest()?.is_empty();
    let stays = second.ask(b"status web")? == b"ok 0 0 open".as_slice();
    Ok(hung_up && stays && second.ask(b"names 0")? == b"names web".as_slice())
}

/// A line of ten million bytes that doesn't end.
fn send_without_end(alloc: Global, mut client: Client) -> io::Result<bool> {
    let piece = vec![in alloc; b'a'; 100_000]?;
    for _ in 0..100 {
        client.send(&piece)?;
    }
    client.finish()?;
    Ok(client.rest()? == b"no long\n".as_slice())
}

/// One client holds a full fifodir's only subscription and is cut off in mid-line; the other publishes as soon as it
/// may.
fn cut_off_one_of_two(mut first: Client, mut second: Client) -> io::Result<bool> {
    let ready = first.ask(b"dir web 2 100")? == b"ok".as_slice()
        && first.ask(b"sub web")? == b"ok 1".as_slice()
        && first.ask(b"pub web ab")? == b"ok 0".as_slice()
        && second.ask(b"pub web c")? == b"no full".as_slice();
    first.send(b"pub we")?;
    drop(first);
    for _ in 0..1_000_000 {
        let reply = second.ask(b"pub web c")?;
        if reply != b"no full".as_slice() {
            return Ok(ready && reply == b"ok 2".as_slice());
        }
        thread::yield_now();
    }
    Ok(false)
}

/// Whether all went as it has to.
fn went_well(alloc: Global, talk: Talk, mut clients: Vec<Client>) -> io::Result<bool> {
    match (talk, clients.pop(), clients.pop()) {
        (Talk::EndOneOfTwo, Some(second), Some(first)) => end_one_of_two(first, second),
        (Talk::CutOffOneOfTwo, Some(second), Some(first)) => cut_off_one_of_two(first, second),
        (Talk::SendWithoutEnd, Some(client), None) => send_without_end(alloc, client),
        _ => Ok(false),
    }
}

/// Serves so many clients while they talk.
fn serve_while<H>(
    rt: &H,
    alloc: Global,
    path: &'static str,
    talk: Talk,
    count: usize,
) -> Result<Report, Fail>
where
    H: Abort + Files + Net + Clock + Threads + Wait + Enter + Copy + Send + 'static,
{
    let (door, clients) = open(rt, alloc, path, count)?;
    let talking: JoinHandle<bool> = thread::spawn(rt, move || {
        went_well(alloc, talk, clients).unwrap_or(false)
    })?;
    let report = serve_door(rt, alloc, door, count as u64)?;
    assert!(rt; talking.join(rt));
    Ok(report)
}

#[test]
fn a_connection_ends_with_its_session(rt: HostRuntime) -> Result<(), Fail> {
    let report = serve_while(&rt, rt.alloc(), "ends.sock", Talk::EndOneOfTwo, 2)?;
    assert_eq!(rt; report.results.as_slice(), [Ok(1), Ok(2)].as_slice());
    Ok(())
}

#[test]
fn a_line_of_ten_million_bytes(rt: HostRuntime) -> Result<(), Fail> {
    let report = serve_while(&rt, rt.alloc(), "long.sock", Talk::SendWithoutEnd, 1)?;
    assert_eq!(rt; report.results.as_slice(), [Ok(1)].as_slice());
    Ok(())
}

#[test]
fn a_client_that_is_cut_off_holds_nobody_up(rt: HostRuntime) -> Result<(), Fail> {
    let report = serve_while(&rt, rt.alloc(), "cut.sock", Talk::CutOffOneOfTwo, 2)?;
    assert_eq!(rt; report.results.len(), 2);
    Ok(())
}
