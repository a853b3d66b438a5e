//! The names of fifodirs, in the order in which they were made.
use crate::tests::desks::{new_hub, new_local, run_anew, run_each, session};
use crate::tests::rows::Step::{AllHandles, End, Rows};
use crate::tests::rows::run;
use hub_requests::{Desk, Enter};
use std::alloc::{AllocError, AllocGlobal, Global};
use std::process::Abort;
use std::sync::Wait;

/// None, one, two, and from each place on.
static IN_ORDER: &str = "
    names 0 -> none
    names 1 -> none
    names 9999999999999 -> none
    dir web 64 1000 -> ok
    names 0 -> names web
    names 1 -> none
    svc db 64 1000 1 -> ok
    names 0 -> names web db
    names 1 -> names db
    names 2 -> none
    names 3 -> none
    names 9999999999999 -> none
    dir a 1 1 evict -> ok
    names 0 -> names web db a
    names 2 -> names a
    names 3 -> none
";

/// A name that is there stays, and a refused one doesn't come.
static KEPT: &str = "
    dir web 64 1000 -> ok
    dir db 64 1000 -> ok
    dir web 64 1000 -> no exists
    svc db 64 1000 1 -> no exists
    sub web -> ok 1
    pub web a -> ok 0
    names 0 -> names web db
    close web -> ok
    names 0 -> names web db
    close db -> ok
    names 1 -> names db
    cancel 1 -> ok
    names 0 -> names web db
    take 1 1 -> no id
";

#[test]
fn names_are_listed_in_order(rt: HostRuntime) {
    run_each(&rt, &[IN_ORDER, KEPT]);
}

/// A name that another one begins with, or that begins with another one, is a name of its own.
static FRONTS: &str = "
    dir web 64 1000 -> ok
    sub web1 -> no name
    listen web1 once a -> no name
    pub web1 a -> no name
    status we -> no name
    close w -> no name
    svc db1 64 1000 1 -> ok
    wait all up 0 db -> no name
    wait any up 0 db1 db12 -> no name
    dir web1 64 1000 -> ok
    sub web1 -> ok 1
    pub web1 ab -> ok 0
    status web -> ok 0 0 open
    take 1 9 -> got ab
    names 0 -> names web db1 web1
    dir a-name-of-29-bytes-and-3-more100 2 10 -> ok
    sub a-name-of-29-bytes-and-3-more10 -> no name
    sub a-name-of-29-bytes-and-3-more100 -> ok 2
    listen a-name-of-29-bytes-and-3-more100 once a -> ok 3
";

#[test]
fn a_front_is_another_name(rt: HostRuntime) {
    run_each(&rt, &[FRONTS]);
}

/// All handles are held, and names need none.
static NEEDS_NO_HANDLE: &str = "
    sub web -> no many
    names 0 -> names web
    cancel 9 -> ok
    names 0 -> names web
    sub web -> ok 257
";

/// The session has ended. What it made stays.
static AFTER_THE_END: &str = "
    names 0 -> names web
    dir db 64 1000 -> ok
    names 0 -> names web db
    sub db -> ok 258
";

#[test]
fn names_take_no_handle(rt: HostRuntime) {
    run_anew(
        &rt,
        &[
            Rows("dir web 64 1000 -> ok"),
            AllHandles(0),
            Rows(NEEDS_NO_HANDLE),
            End,
            Rows(AFTER_THE_END),
        ],
    );
}

/// A name of 32 bytes, if the number has three digits.
fn long_name(alloc: Global, number: u64) -> Result<String, AllocError> {
    format!(in alloc; "a-name-of-29-bytes-and-3-more{number}")
}

fn making(alloc: Global, number: u64) -> Result<String, AllocError> {
    let name = long_name(alloc, number)?;
    format!(in alloc; "dir {name} 1 1 -> ok")
}

/// A request, and the reply that lists the long names of these numbers.
fn listing(alloc: Global, from: u64, first: u64, last: u64) -> Result<String, AllocError> {
    let mut row = format!(in alloc; "names {from} -> names")?;
    for number in first..last {
        row.push_str(" ")?;
        let name = long_name(alloc, number)?;
        row.push_str(&name)?;
    }
    Ok(row)
}

/// The names from a place on, and the numbers of those that fit: 124 names of 32 bytes in a reply.
static LISTED: [(u64, u64, u64); 8] = [
    (0, 100, 224),
    (1, 101, 225),
    (124, 224, 348),
    (131, 231, 355),
    (132, 232, 356),
    (133, 233, 356),
    (248, 348, 356),
    (255, 355, 356),
];

/// Makes as many names as there may be.
fn make_all<H: AllocGlobal + Abort + Wait + Enter, D: Desk>(rt: &H, desk: &mut D) {
    for number in 100..356u64 {
        let row = making(rt.alloc(), number).expect(rt, "a row");
        run(rt, desk, &row);
    }
    run(rt, desk, "dir more 1 1 -> no many");
}

fn list_all<H: AllocGlobal + Abort + Wait + Enter, D: Desk>(rt: &H, desk: &mut D) {
    for (from, first, last) in LISTED {
        let row = listing(rt.alloc(), from, first, last).expect(rt, "a row");
        run(rt, desk, &row);
    }
    run(rt, desk, "names 256 -> none");
}

#[test]
fn replies_list_what_fits(rt: HostRuntime) {
    let mut local = new_local(&rt);
    make_all(&rt, &mut local);
    list_all(&rt, &mut local);
    let hub = new_hub(&rt);
    let mut maker = session(&rt, &hub);
    make_all(&rt, &mut maker);
    list_all(&rt, &mut maker);
    maker.release(&rt);
    let mut other = session(&rt, &hub);
    list_all(&rt, &mut other);
    other.release(&rt);
}

#[test]
fn sessions_see_the_names_of_their_hub(rt: HostRuntime) {
    let hub = new_hub(&rt);
    let other_hub = new_hub(&rt);
    let mut first = session(&rt, &hub);
    let mut second = session(&rt, &hub);
    let mut apart = session(&rt, &other_hub);
    run(&rt, &mut second, "names 0 -> none");
    run(&rt, &mut first, "dir web 64 1000 -> ok");
    run(&rt, &mut second, "names 0 -> names web");
    run(&rt, &mut second, "dir db 64 1000 -> ok");
    run(&rt, &mut apart, "dir log 64 1000 -> ok");
    run(&rt, &mut first, "names 0 -> names web db");
    run(&rt, &mut second, "names 1 -> names db");
    run(&rt, &mut apart, "names 0 -> names log");
    run(&rt, &mut second, "close web -> ok");
    first.end(&rt);
    first.release(&rt);
    run(&rt, &mut second, "names 0 -> names web db");
    second.release(&rt);
    apart.release(&rt);
    let mut third = session(&rt, &hub);
    run(&rt, &mut third, "names 0 -> names web db");
    third.release(&rt);
}

/// A name that another session made meanwhile is found at the next request, and not before.
#[test]
fn a_name_made_meanwhile_is_found(rt: HostRuntime) {
    let hub = new_hub(&rt);
    let mut first = session(&rt, &hub);
    let mut second = session(&rt, &hub);
    run(&rt, &mut first, "sub web -> no name\nnames 0 -> none");
    run(&rt, &mut second, "dir web 2 100 -> ok\npub web ab -> ok 0");
    run(&rt, &mut first, "dir web 64 1000 -> no exists");
    run(
        &rt,
        &mut first,
        "status web -> ok 2 0 open\nsub web -> ok 1",
    );
    run(&rt, &mut second, "pub web cde -> no full");
    run(&rt, &mut first, "names 0 -> names web\nsub we -> no name");
    second.release(&rt);
    first.release(&rt);
}
