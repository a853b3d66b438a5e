//! A wait at two services, while another session publishes.
use crate::tests::clients::Client;
use crate::tests::sockets::{open, serve_door};
use std::alloc::Global;
use std::rt::Clock;
use std::test::Fail;
use std::thread::JoinHandle;
use std::time::Duration;
use std::{io, thread};

/// What one session asks before the waits, and what it is answered.
static BEFORE: [(&str, &str); 4] = [
    ("svc web 64 1000 1", "ok"),
    ("svc db 64 1000 1", "ok"),
    ("pub web s", "ok 0"),
    ("pub db s", "ok 0"),
];

/// A wait, what another session publishes when it has begun, and what the wait is answered.
static WAITS: [(&str, &str, &str); 3] = [
    ("wait any up 9000 web db", "pub db u", "yes - 2"),
    ("wait all up 9000 web db", "pub web u", "yes 2 2"),
    ("wait all ready 9000 db", "pub db dOD", "never"),
];

fn is_set_up(client: &mut Client) -> io::Result<bool> {
    for (line, reply) in BEFORE.iter() {
        if client.ask(line.as_bytes())? != reply.as_bytes() {
            return Ok(false);
        }
    }
    Ok(true)
}

/// Whether each wait is answered so. A tenth of a second after it was sent it has begun, and if it hasn't, its answer
/// is the same.
fn waits_go_so<H: Clock>(rt: &H, mut waiting: Client, mut other: Client) -> io::Result<bool> {
    if !is_set_up(&mut other)? {
        return Ok(false);
    }
    for (wait, publish, reply) in WAITS.iter() {
        waiting.send(wait.as_bytes())?;
        waiting.send(b"\n")?;
        thread::sleep(rt, Duration::from_millis(100));
        if !other.ask(publish.as_bytes())?.starts_with(b"ok ")
            || waiting.next_reply()? != reply.as_bytes()
        {
            return Ok(false);
        }
    }
    Ok(true)
}

fn two_go_so<H: Clock>(rt: &H, mut clients: Vec<Client>) -> io::Result<bool> {
    match (clients.pop(), clients.pop()) {
        (Some(waiting), Some(other)) => waits_go_so(rt, waiting, other),
        _ => Ok(false),
    }
}

#[test]
fn a_wait_sees_what_comes_after_it_began(rt: HostRuntime) -> Result<(), Fail> {
    let alloc: Global = rt.alloc();
    let (door, clients) = open(&rt, alloc, "waits.sock", 2)?;
    let asking: JoinHandle<bool> = thread::spawn(&rt, move || {
        two_go_so(&rt, clients).unwrap_or(false)
    })?;
    let report = serve_door(&rt, alloc, door, 2)?;
    assert!(rt; asking.join(&rt));
    assert!(rt; report.is_clean());
    Ok(())
}
