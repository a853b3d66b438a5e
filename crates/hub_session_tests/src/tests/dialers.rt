//! What the program's own dialer does at sockets.
use hub_dialing::{Dial, Dialer};
use hub_endings::{Fault, ReachFault};
use hub_io::{Sink, Source};
use std::fs::Files;
use std::io::{ErrorKind, Read, Write};
use std::net::Net;
use std::os::unix::net::{UnixListener, UnixStream};
use std::process::Abort;
use std::test::Fail;
use std::{fs, io};

fn listen(rt: &(impl Files + Net), path: &str) -> io::Result<UnixListener> {
    let _ = fs::remove_file(rt, path);
    UnixListener::bind(rt, path)
}

/// Whether no connection is there that wasn't accepted yet.
fn has_no_more(listener: &UnixListener) -> io::Result<bool> {
    listener.set_nonblocking(true)?;
    match listener.accept() {
        Ok(_) => Ok(false),
        Err(error) => Ok(error.kind() == ErrorKind::WouldBlock),
    }
}

/// What is sent by one half comes to the peer, and the peer's reply to the other half.
fn exchange(
    rt: &impl Abort,
    receive: &mut impl Source,
    send: &mut impl Sink,
    mut peer: UnixStream,
) -> io::Result<()> {
    send.write_all(b"names 0\n")?;
    let mut asked = [0u8; 8];
    peer.read_exact(&mut asked)?;
    assert_eq!(rt; asked, *b"names 0\n");
    peer.write_all(b"none\n")?;
    let mut told = [0u8; 5];
    receive.read_exact(&mut told)?;
    assert_eq!(rt; told, *b"none\n");
    Ok(())
}

#[test]
fn a_dialer_dials_once_and_there(rt: HostRuntime) -> Result<(), Fail> {
    let there = listen(&rt, "dialed.sock")?;
    let other = listen(&rt, "undialed.sock")?;
    let (mut receive, mut send) = Dialer::new(rt).dial("dialed.sock", 10_000)?;
    let (peer, _) = there.accept()?;
    exchange(&rt, &mut receive, &mut send, peer)?;
    assert!(rt; has_no_more(&there)? && has_no_more(&other)?);
    fs::remove_file(&rt, "dialed.sock")?;
    fs::remove_file(&rt, "undialed.sock")?;
    Ok(())
}

#[test]
fn a_dialer_connects_once_and_there(rt: HostRuntime) -> Result<(), Fail> {
    let there = listen(&rt, "connected.sock")?;
    let other = listen(&rt, "unconnected.sock")?;
    let (mut receive, mut send) = Dialer::new(rt).connect("connected.sock")?;
    let (peer, _) = there.accept()?;
    exchange(&rt, &mut receive, &mut send, peer)?;
    assert!(rt; has_no_more(&there)? && has_no_more(&other)?);
    fs::remove_file(&rt, "connected.sock")?;
    fs::remove_file(&rt, "unconnected.sock")?;
    Ok(())
}

/// No file is there, or nobody listens at it.
#[test]
fn a_dialer_reaches_nobody(rt: HostRuntime) -> Result<(), Fail> {
    drop(listen(&rt, "left.sock")?);
    let mut dialer = Dialer::new(rt);
    for (socket, why) in [
        ("left.sock", ReachFault::Nobody),
        ("never-made.sock", ReachFault::NoFile),
        ("", ReachFault::Path),
    ] {
        let dialed = dialer.dial(socket, 10_000).err();
        assert_eq!(rt; dialed, Some(Fault::Reach(why)), "dial {socket}");
        let at_once = dialer.dial_at_once(socket, 10_000).err();
        assert_eq!(rt; at_once, Some(Fault::Reach(why)), "dial {socket} at once");
        let connected = dialer.connect(socket);
        assert!(rt;
            matches!(connected, Err(Fault::Connect)),
            "connect {socket}"
        );
    }
    fs::remove_file(&rt, "left.sock")?;
    Ok(())
}

/// The peer replies nothing, and has the half for its replies read in vain.
#[test]
fn what_is_dialed_ends_by_its_time(rt: HostRuntime) -> Result<(), Fail> {
    let silent = listen(&rt, "silent.sock")?;
    let (mut receive, _send) = Dialer::new(rt).dial("silent.sock", 50)?;
    let (_peer, _) = silent.accept()?;
    let mut told = [0u8; 5];
    assert!(rt; receive.read(&mut told).is_err());
    fs::remove_file(&rt, "silent.sock")?;
    Ok(())
}
