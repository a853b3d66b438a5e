//! A call of a server in the same process.
use hub_dialing::{Dialer, call};
use hub_endings::Fault;
use hub_serving::{Enter, serve};
use std::alloc::Global;
use std::fs::Files;
use std::net::Net;
use std::rt::Clock;
use std::sync::Wait;
use std::test::Fail;
use std::thread::{JoinHandle, Threads};
use std::time::Duration;
use std::{fs, thread};

const SOCKET: &str = "call.sock";

/// Serves one connection, and tells whether all went well.
fn is_served<H>(rt: &H, alloc: Global) -> bool
where
    H: Files + Net + Clock + Threads + Wait + Enter + Copy + Send + 'static,
{
    match serve(rt, alloc, SOCKET, 1) {
        Ok(report) => report.is_clean(),
        Err(_) => false,
    }
}

/// Calls as soon as a server listens. Nothing of the input is read before.
fn call_when_it_listens<H: Net + Wait + Clock + Copy>(
    rt: &H,
    alloc: Global,
    mut input: &[u8],
    output: &mut Vec<u8>,
) -> Result<u64, Fault> {
    let mut dialer = Dialer::new(*rt);
    for _ in 0..1_000 {
        match call(rt, alloc, &mut dialer, SOCKET, &mut input, output) {
            Err(Fault::Connect) => thread::sleep(rt, Duration::from_millis(10)),
            called => return called,
        }
    }
    Err(Fault::Connect)
}

#[test]
fn a_call_of_a_server(rt: HostRuntime) -> Result<(), Fail> {
    let alloc: Global = rt.alloc();
    let _ = fs::remove_file(&rt, SOCKET);
    let serving: JoinHandle<bool> = thread::spawn(&rt, move || is_served(&rt, alloc))?;
    let mut output: Vec<u8> = Vec::new(alloc);
    let input = b"dir web 64 1000\nsub web\npub web ab\ntake 1 10\n".as_slice();
    let called = call_when_it_listens(&rt, alloc, input, &mut output);
    assert_eq!(rt; called, Ok(4));
    assert!(rt; serving.join(&rt));
    assert_eq!(rt; output.as_slice(), b"ok\nok 1\nok 0\ngot ab\n".as_slice());
    fs::remove_file(&rt, SOCKET)?;
    Ok(())
}
