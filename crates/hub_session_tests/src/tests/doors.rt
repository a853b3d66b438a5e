//! Doors give each connection once, with both of its ends.
use crate::tests::clients::Client;
use crate::tests::sockets::open;
use hub_io::{Sink, Source};
use hub_server::{Connection, Door, Gate, Next, SharedDoor, Timed};
use std::alloc::Global;
use std::fs::Files;
use std::io;
use std::io::{Read, Write};
use std::net::Net;
use std::os::unix::net::UnixListener;
use std::rt::Clock;
use std::sync::Wait;
use std::test::Fail;
use std::time::Duration;

/// What each client sends when it has connected, in this order. There are more than sessions are asked for, so that a door which
/// drops some of them doesn't wait.
static LINES: [&str; 8] = ["a\n", "b\n", "c\n", "d\n", "e\n", "f\n", "g\n", "h\n"];

/// A socket, and its clients, each of which has sent its line.
fn open_for_eight(
    rt: &(impl Files + Net),
    alloc: Global,
    path: &'static str,
) -> io::Result<(Option<UnixListener>, Vec<Client>)> {
    let (mut door, mut clients) = open(rt, alloc, path, LINES.len())?;
    for (client, line) in clients.iter_mut().zip(&LINES) {
        client.send(line.as_bytes())?;
    }
    Ok((door.listener.take(), clients))
}

/// Whether the next session reads this line and no byte more, and what it writes is all that the client gets.
fn is_of<H, R, W, G>(rt: &H, gate: &mut G, client: &mut Client, line: &str) -> io::Result<bool>
where
    H: Wait,
    R: Source + Drop,
    W: Sink + Drop,
    G: Gate<R, W>,
{
    let Next::Session(mut reader, mut writer) = gate.next(rt) else {
        return Ok(false);
    };
    let mut bytes = [0u8; 16];
    let read = reader.pull(&mut bytes)?;
    let is_heard = bytes.get(..read) == Some(line.as_bytes());
    writer.push(b"ok\n")?;
    drop(reader);
    drop(writer);
    Ok(is_heard && client.rest()? == b"ok\n".as_slice())
}

#[test]
fn a_door_gives_each_connection_once(rt: HostRuntime) -> Result<(), Fail> {
    let (listener, mut clients) = open_for_eight(&rt, rt.alloc(), "door.sock")?;
    let mut door = Door { listener };
    for (client, line) in clients.iter_mut().zip(&LINES).take(3) {
        assert!(rt; is_of(&rt, &mut door, client, line)?, "{line}");
    }
    door.close();
    assert!(rt; matches!(door.next(&rt), Next::Over));
    Ok(())
}

// A shared door stays open.
#[test]
fn a_shared_door_gives_each_connection_once(rt: HostRuntime) -> Result<(), Fail> {
    let (listener, mut clients) = open_for_eight(&rt, rt.alloc(), "shared.sock")?;
    let Some(listener) = listener else {
        assert!(rt; false);
        return Ok(());
    };
    let mut door = SharedDoor::new(rt.alloc(), listener, Some(Duration::from_secs(2)), rt)?;
    let mut share = door.share()?;
    for (at, (client, line)) in clients.iter_mut().zip(&LINES).take(4).enumerate() {
        let gate = if at < 2 { &mut door } else { &mut share };
        gate.close();
        assert!(rt; is_of(&rt, gate, client, line)?, "{line}");
    }
    Ok(())
}

/// The connection of the only client, which waits for a byte for so many milliseconds.
fn connected<H: Files + Net + Clock + Wait + Copy>(
    rt: &H,
    alloc: Global,
    path: &'static str,
    idle: u64,
) -> io::Result<Option<(Connection<H>, Connection<H>, Client)>> {
    let (mut door, mut clients) = open(rt, alloc, path, 1)?;
    let (Some(listener), Some(client)) = (door.listener.take(), clients.pop()) else {
        return Ok(None);
    };
    let idle = Some(Duration::from_millis(idle));
    match SharedDoor::new(alloc, listener, idle, *rt)?.next(rt) {
        Next::Session(reader, writer) => Ok(Some((reader, writer, client))),
        Next::Failed | Next::Over => Ok(None),
    }
}

#[test]
fn a_connection_times_out_if_no_byte_comes(rt: HostRuntime) -> Result<(), Fail> {
    let connected = connected(&rt, rt.alloc(), "late.sock", 50)?;
    let Some((mut reader, writer, mut client)) = connected else {
        assert!(rt; false);
        return Ok(());
    };
    let mut bytes = [0u8; 16];
    assert!(rt; reader.pull(&mut bytes).is_err());
    assert!(rt; reader.has_timed_out());
    assert!(rt; !writer.has_timed_out());
    client.send(b"ab")?;
    assert_eq!(rt; reader.pull(&mut bytes)?, 2);
    assert!(rt; !reader.has_timed_out());
    Ok(())
}

#[test]
fn a_connection_reads_and_writes_once(rt: HostRuntime) -> Result<(), Fail> {
    let connected = connected(&rt, rt.alloc(), "once.sock", 2_000)?;
    let Some((mut reader, mut writer, mut client)) = connected else {
        assert!(rt; false);
        return Ok(());
    };
    let mut bytes = [0u8; 16];
    client.send(b"ab")?;
    assert_eq!(rt; reader.read(&mut bytes)?, 2);
    client.send(b"c")?;
    assert_eq!(rt; reader.pull(&mut bytes)?, 1);
    assert_eq!(rt; writer.write(b"x")?, 1);
    writer.flush()?;
    assert_eq!(rt; writer.push(b"y")?, 1);
    writer.write_all(b"z\n")?;
    assert_eq!(rt; client.next_reply()?, b"xyz".as_slice());
    let watched = reader.client();
    assert_eq!(rt; watched.as_ref().map(|it| it.is_gone()), Some(false));
    drop(client);
    assert_eq!(rt; watched.as_ref().map(|it| it.is_gone()), Some(true));
    assert!(rt; writer.push(b"y").is_err());
    assert!(rt; !writer.has_timed_out());
    Ok(())
}
