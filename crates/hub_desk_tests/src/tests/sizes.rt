//! Each size that a request may have, with ample memory. A reply `no memory` is a failure here.
use crate::tests::desks::{alone, new_local};
use crate::tests::rows::{answer_to, many_letters, request, run};
use hub_front::serve;
use hub_requests::{Desk, Enter, Name, Reply};
use std::alloc::{AllocError, AllocGlobal, Global};
use std::process::Abort;
use std::sync::Wait;
use std::test::Fail;

/// A fifodir with a subscription and a listener.
static BEGUN: &str = "
    dir web 4096 1000000000000 -> ok
    sub web -> ok 1
    listen web repeat b -> ok 2
";

fn answer<H: AllocGlobal + Abort + Wait + Enter, D: Desk>(
    rt: &H,
    desk: &mut D,
    line: &str,
) -> Reply {
    answer_to(rt, desk, &request(rt, rt.alloc(), line))
}

fn takes<H: AllocGlobal + Abort + Wait + Enter, D: Desk>(
    rt: &H,
    desk: &mut D,
    count: usize,
) -> bool {
    match answer(rt, desk, "take 1 256") {
        Reply::Got(letters) => letters.items().len() == count,
        _ => false,
    }
}

/// Whether a message of so many letters is taken, and a listener hears it with a letter more, at which it hits.
fn carries<H: AllocGlobal + Abort + Wait + Enter, D: Desk>(
    rt: &H,
    desk: &mut D,
    count: usize,
) -> bool {
    let message = many_letters(rt, rt.alloc(), count);
    let sent = answer_to(rt, desk, &message);
    let was_taken = takes(rt, desk, count);
    let last = answer(rt, desk, "pub web b");
    let last_was_taken = takes(rt, desk, 1);
    let is_heard = match answer(rt, desk, "poll 2") {
        Reply::Hit(letters) => letters.items().len() == count.saturating_add(1),
        _ => false,
    };
    matches!((sent, last), (Reply::Number(_), Reply::Number(_)))
        && was_taken
        && last_was_taken
        && is_heard
}

/// How many letters are published before each next: all that a take has room for, one more, and all that may be pending.
const NEXT_SIZES: [usize; 8] = [1, 2, 255, 256, 257, 4_095, 4_096, 1];

/// How many letters the first message has that a next doesn't take whole.
fn next_unlike<H: AllocGlobal + Abort + Wait + Enter, D: Desk>(
    rt: &H,
    desk: &mut D,
) -> Option<usize> {
    run(rt, desk, "dir web 4096 1000000 -> ok; sub web -> ok 1");
    for count in NEXT_SIZES {
        let message = many_letters(rt, rt.alloc(), count);
        let sent = answer_to(rt, desk, &message);
        let is_whole = match (sent, answer(rt, desk, "next 1 2")) {
            (Reply::Number(_), Reply::Got(letters)) => letters.items().len() == count,
            _ => false,
        };
        if !is_whole {
            return Some(count);
        }
    }
    None
}

/// How many letters the first message has that isn't carried so.
fn message_unlike<H: AllocGlobal + Abort + Wait + Enter, D: Desk>(
    rt: &H,
    desk: &mut D,
) -> Option<usize> {
    run(rt, desk, BEGUN);
    for count in 1..257usize {
        if !carries(rt, desk, count) {
            return Some(count);
        }
    }
    None
}

/// The lines of waits for one name up to 32, and of names of up to 32 bytes, and the replies to them.
fn waits_and_names(alloc: Global) -> Result<(Vec<u8>, Vec<u8>), AllocError> {
    let mut input = Vec::from_slice(alloc, b"svc w 64 1000 1\npub w su\n")?;
    let mut output = Vec::from_slice(alloc, b"ok\nok 0\n")?;
    for count in 1..33 {
        input.extend_from_slice(b"wait all up 0")?;
        output.extend_from_slice(b"yes")?;
        for _ in 0..count {
            input.extend_from_slice(b" w")?;
            output.extend_from_slice(b" 2")?;
        }
        input.extend_from_slice(b"\ndir ")?;
        for _ in 0..count {
            input.push(b'n')?;
        }
        input.extend_from_slice(b" 1 1\n")?;
        output.extend_from_slice(b"\nok\n")?;
    }
    Ok((input, output))
}

/// Whether a desk waits for each number of names, and makes a name of each length.
fn waits_for_each<H: Wait + Enter, D: Desk>(
    rt: &H,
    alloc: Global,
    desk: &mut D,
) -> Result<bool, AllocError> {
    let (input, output) = waits_and_names(alloc)?;
    let mut written: Vec<u8> = Vec::new(alloc);
    let served = serve(rt, alloc, desk, &mut input.as_slice(), &mut written);
    Ok(served == Ok(66) && written == output)
}

/// Whether texts of up to 32 bytes are names, and no other.
fn are_names(alloc: Global) -> Result<bool, AllocError> {
    let text = [b'n'; 40];
    for count in 0..41 {
        let Some(text) = text.get(..count) else {
            return Ok(false);
        };
        let is_so = match Name::of(alloc, text)? {
            Some(name) => name.bytes() == text && *name.copy()?.bytes() == *text,
            None => count == 0 || count > 32,
        };
        if !is_so || (count > 0 && count <= 32) != Name::is_name(text) {
            return Ok(false);
        }
    }
    Ok(true)
}

#[test]
fn nexts_of_each_size(rt: HostRuntime) {
    assert_eq!(rt; next_unlike(&rt, &mut new_local(&rt)), None);
    let mut desk = alone(&rt);
    let unlike = next_unlike(&rt, &mut desk);
    desk.release(&rt);
    assert_eq!(rt; unlike, None);
}

#[test]
fn requests_of_each_size(rt: HostRuntime) -> Result<(), Fail> {
    assert!(rt; are_names(rt.alloc())?);
    let mut local = new_local(&rt);
    assert_eq!(rt; message_unlike(&rt, &mut local), None);
    assert!(rt; waits_for_each(&rt, rt.alloc(), &mut local)?);
    let mut desk = alone(&rt);
    let unlike = message_unlike(&rt, &mut desk);
    let waits = waits_for_each(&rt, rt.alloc(), &mut desk);
    desk.release(&rt);
    assert_eq!(rt; unlike, None);
    assert!(rt; waits?);
    Ok(())
}
