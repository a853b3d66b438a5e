//! Sixteen clients at once, over one hub: eight publish and eight listen. The fifodir holds so few letters that publishers
//! have to retry.
ghost use Rattle.std.specs.Prelude.{◌<◌};

use crate::tests::clients::Client;
use crate::tests::sockets::{open, serve_door};
use std::alloc::Global;
use std::test::Fail;
use std::thread::{JoinHandle, Threads};
use std::{io, thread};

/// How many clients publish, and how many listen.
const HALF: usize = 8;

/// How many letters each publisher sends, one a message.
const LETTERS: usize = 110;

/// How many letters each publisher has for its own. It sends them over and over, in their order.
const OWN: usize = 11;

/// Tries of what waits for others.
const PATIENCE: usize = 1_000_000;

/// The letter that a publisher sends at place `i`.
fn letter(publisher: usize, i: usize) -> u8
    requires { publisher < 8 }
{
    b'!' + (publisher * OWN + i % OWN) as u8
}

/// Publishes one letter after another. Gives the client back, and how often the fifodir was full.
fn publish_all(mut client: Client, publisher: usize) -> io::Result<(Client, u64)>
    requires { publisher < 8 }
{
    let mut line = *b"pub web ?";
    let mut full: u64 = 0;
    for i in 0..LETTERS {
        line[8] = letter(publisher, i);
        for _ in 0..PATIENCE {
            if client.ask(&line)? != b"no full".as_slice() {
                break;
            }
            full = full.saturating_add(1);
            thread::yield_now();
        }
    }
    Ok((client, full))
}

/// Takes what the subscription gets until the fifodir is closed.
fn take_all(alloc: Global, mut client: Client) -> io::Result<Vec<u8>> {
    let mut letters: Vec<u8> = Vec::new(alloc);
    for _ in 0..PATIENCE {
        let reply = client.ask(b"take 1 256")?;
        if reply == b"end".as_slice() {
            break;
        }
        match reply.get(4..) {
            Some(taken) if reply.starts_with(b"got ") => letters.extend_from_slice(taken)?,
            _ => thread::yield_now(),
        }
    }
    Ok(letters)
}

/// Whether the letters are those of each publisher, in its own order, each once.
fn are_all(letters: &[u8]) -> bool {
    let mut sent = [0usize; HALF];
    for byte in letters {
        let Some(offset) = byte.checked_sub(b'!') else {
            return false;
        };
        let publisher = usize::from(offset) / OWN;
        if publisher >= HALF || *byte != letter(publisher, sent[publisher]) {
            return false;
        }
        sent[publisher] = sent[publisher].saturating_add(1);
    }
    sent == [LETTERS; HALF]
}

type Taking = JoinHandle<Option<Vec<u8>>>;

type Publishing = JoinHandle<Option<(Client, u64)>>;

/// Has the client subscribe, and then take what comes on a thread of its own.
fn start_taking<H: Threads>(rt: &H, alloc: Global, mut client: Client) -> io::Result<Taking> {
    if client.ask(b"sub web")? != b"ok 1".as_slice() {
        return Err(io::Error::from(io::ErrorKind::Other));
    }
    Ok(thread::spawn(rt, move || take_all(alloc, client).ok())?)
}

/// Has half of the clients take what comes.
fn start_listeners<H: Threads>(
    rt: &H,
    alloc: Global,
    clients: &mut Vec<Client>,
) -> io::Result<Vec<Taking>> {
    let mut taking = Vec::new(alloc);
    for _ in 0..HALF {
        if let Some(client) = clients.pop() {
            taking.push(start_taking(rt, alloc, client)?)?;
        }
    }
    Ok(taking)
}

/// Has the other half publish.
fn start_publishers<H: Threads>(
    rt: &H,
    alloc: Global,
    mut clients: Vec<Client>,
) -> io::Result<Vec<Publishing>> {
    let mut publishing = Vec::new(alloc);
    for publisher in 0..HALF {
        if let Some(client) = clients.pop() {
            let handle = thread::spawn(rt, move || publish_all(client, publisher).ok())?;
            publishing.push(handle)?;
        }
    }
    Ok(publishing)
}

/// Closes the fifodir once all have published. Returns whether it was ever full.
fn end_publishers<H: Threads>(rt: &H, publishing: Vec<Publishing>) -> io::Result<bool> {
    let (mut was_full, mut closer) = (false, None);
    for handle in publishing {
        if let Some((client, full)) = handle.join(rt) {
            was_full = was_full || full > 0;
            closer = Some(client);
        }
    }
    if let Some(mut client) = closer {
        client.ask(b"close web")?;
    }
    Ok(was_full)
}

/// Runs the clients. Each one that listens has subscribed before the first letter comes.
fn run_all<H: Threads>(rt: &H, alloc: Global, mut clients: Vec<Client>) -> io::Result<bool> {
    let Some(first) = clients.last_mut() else {
        return Ok(false);
    };
    first.ask(b"dir web 8 1000000")?;
    let taking = start_listeners(rt, alloc, &mut clients)?;
    let publishing = start_publishers(rt, alloc, clients)?;
    let was_full = end_publishers(rt, publishing)?;
    Ok(are_right(rt, taking) && was_full)
}

/// Whether all that listened have all letters, and in the same order.
fn are_right<H: Threads>(rt: &H, taking: Vec<Taking>) -> bool {
    let mut whole: Option<Vec<u8>> = None;
    let mut right = taking.len() == HALF;
    for handle in taking {
        match (handle.join(rt), &whole) {
            (Some(letters), None) => {
                right = right && are_all(letters.as_slice());
                whole = Some(letters);
            }
            (Some(letters), Some(all)) => {
                right = right && letters.as_slice() == all.as_slice();
            }
            (None, _) => right = false,
        }
    }
    right
}

#[test]
fn listeners_get_one_list(rt: HostRuntime) -> Result<(), Fail> {
    let alloc: Global = rt.alloc();
    let (door, clients) = open(&rt, alloc, "crowd.sock", 2 * HALF)?;
    let asking: JoinHandle<bool> = thread::spawn(&rt, move || {
        run_all(&rt, alloc, clients).unwrap_or(false)
    })?;
    let report = serve_door(&rt, alloc, door, 16)?;
    assert!(rt; asking.join(&rt));
    assert_eq!(rt; report.results.len(), 2 * HALF);
    assert!(rt; report.is_clean());
    Ok(())
}
