//! What a request leaves at the fifodirs of its hub, as others see them: nothing but what it asks for, and nothing elsewhere.
use crate::tests::desks::{Session, new_hub, session};
use crate::tests::rows::{name_of, run};
use crate::tests::shared::next_id;
use hub_requests::{Desk, Enter};
use hub_shared::Hub;
use std::alloc::{AllocGlobal, Global};
use std::process::Abort;
use std::sync::{Arc, Wait};
use std::test::Fail;

/// What others see of a fifodir: its number of events, the id that the next ticket gets, and the number that the next publisher
/// gets. A closed fifodir gives no ticket.
type Seen = (u64, Option<u64>, Option<u64>);

/// A session has a handle and a publisher at each of two fifodirs.
static BEGUN: &str = "
    svc web 64 1000 1 -> ok
    dir db 64 1000 -> ok
    sub web -> ok 1
    listen db repeat b -> ok 2
    pub web s -> ok 0
    pub db ab -> ok 0
";

/// What others see of `web` when it has begun.
const WEB: Seen = (1, Some(2), Some(2));

/// What others see of `db` then.
const DB: Seen = (2, Some(2), Some(2));

/// The names that others see then.
const NAMES: &str = "names 0 -> names web db";

/// The names after one was made.
const ONE_MORE: &str = "names 0 -> names web db log";

/// Requests with their replies, and what others see of `web`, of `db` and of the names afterwards.
static REQUESTS: [(&str, Seen, Seen, &str); 38] = [
    ("dir log 64 1000 -> ok", WEB, DB, ONE_MORE),
    ("dir web 64 1000 -> no exists", WEB, DB, NAMES),
    ("svc log 64 1000 1 -> ok", WEB, DB, ONE_MORE),
    ("svc db 64 1000 1 -> no exists", WEB, DB, NAMES),
    ("sub web -> ok 3", (1, Some(3), Some(2)), DB, NAMES),
    ("sub db -> ok 3", WEB, (2, Some(3), Some(2)), NAMES),
    ("sub gone -> no name", WEB, DB, NAMES),
    (
        "listen web once s -> ok 3",
        (1, Some(3), Some(2)),
        DB,
        NAMES,
    ),
    (
        "listen db once b -> ok 3",
        WEB,
        (2, Some(3), Some(2)),
        NAMES,
    ),
    ("listen db once ( -> no pattern", WEB, DB, NAMES),
    ("pub web u -> ok 1", (2, Some(2), Some(2)), DB, NAMES),
    ("pub db cd -> ok 2", WEB, (4, Some(2), Some(2)), NAMES),
    ("pub web U -> no unlawful 0", WEB, DB, NAMES),
    ("pub gone a -> no name", WEB, DB, NAMES),
    ("tell web up -> ok 1", (2, Some(2), Some(2)), DB, NAMES),
    ("tell web down -> ok 1", WEB, DB, NAMES),
    ("tell db up -> no kind", WEB, DB, NAMES),
    ("will web down -> ok", WEB, DB, NAMES),
    ("will db off -> no kind", WEB, DB, NAMES),
    ("take 1 9 -> got s\ntake 1 9 -> none", WEB, DB, NAMES),
    ("take 2 9 -> no id", WEB, DB, NAMES),
    ("poll 2 -> hit ab\npoll 2 -> none", WEB, DB, NAMES),
    ("await 1 3 -> ok\nawait 2 3 -> ok", WEB, DB, NAMES),
    ("take 1 9 -> got s\nawait 1 3 -> late", WEB, DB, NAMES),
    ("next 1 3 -> got s\nnext 1 3 -> late", WEB, DB, NAMES),
    ("next 2 3 -> hit ab\nnext 2 3 -> late", WEB, DB, NAMES),
    ("cancel 1 -> ok\ncancel 1 -> no id", WEB, DB, NAMES),
    ("cancel 2 -> ok", WEB, DB, NAMES),
    ("close web -> ok", (1, None, Some(2)), DB, NAMES),
    ("close db -> ok", WEB, (2, None, Some(2)), NAMES),
    ("status db -> ok 2 0 open", WEB, DB, NAMES),
    ("about web -> ok svc 1 64 1000 hold 1 1 1", WEB, DB, NAMES),
    ("about db -> ok dir 0 64 1000 hold 1 1 2", WEB, DB, NAMES),
    ("about gone -> no name", WEB, DB, NAMES),
    (
        "wait all up 2 web -> late",
        (1, Some(3), Some(2)),
        DB,
        NAMES,
    ),
    ("wait any up 0 web gone -> no name", WEB, DB, NAMES),
    ("wait any up 0 web db -> no kind", WEB, DB, NAMES),
    ("names 1 -> names db", WEB, DB, NAMES),
];

/// What others see of the fifodir of a name.
fn seen<H: AllocGlobal + Abort + Wait + Enter>(
    rt: &H,
    hub: &Hub,
    text: &str,
) -> Result<Seen, Fail> {
    let name = name_of(rt, rt.alloc(), text)?;
    let found = hub.find(rt, &name).1?.ok_or("found")?;
    let id = next_id(rt, &found);
    let Ok(mut publisher) = found.dir.publisher(rt) else {
        return Ok((0, id, None));
    };
    let events = found.dir.status(&mut publisher).number;
    let number = publisher.number();
    found.dir.leave(rt, publisher);
    Ok((events, id, Some(number)))
}

/// What others see of `web` and of `db`.
fn seen_of_both<H: AllocGlobal + Abort + Wait + Enter>(
    rt: &H,
    hub: &Hub,
) -> Result<(Seen, Seen), Fail> {
    Ok((seen(rt, hub, "web")?, seen(rt, hub, "db")?))
}

/// The session that has begun.
fn begun<H: AllocGlobal + Abort + Wait + Enter>(rt: &H, hub: &Arc<Hub, Global>) -> Session {
    let mut desk = session(rt, hub);
    run(rt, &mut desk, BEGUN);
    desk
}

/// Asks in a hub of its own, and wants others to see this.
fn leaves<H: AllocGlobal + Abort + Wait + Enter>(
    rt: &H,
    rows: &str,
    both: (Seen, Seen),
    names: &str,
) -> Result<(), Fail> {
    let hub = new_hub(rt);
    let mut desk = begun(rt, &hub);
    run(rt, &mut desk, rows);
    let found = seen_of_both(rt, &hub);
    desk.release(rt);
    assert_eq!(rt; found?, both, "{rows}");
    let mut other = session(rt, &hub);
    run(rt, &mut other, names);
    other.release(rt);
    Ok(())
}

#[test]
fn a_request_leaves_nothing_else(rt: HostRuntime) -> Result<(), Fail> {
    for (rows, web, db, names) in REQUESTS {
        leaves(&rt, rows, (web, db), names)?;
    }
    Ok(())
}

#[test]
fn an_end_leaves_the_fifodirs_alone(rt: HostRuntime) -> Result<(), Fail> {
    let hub = new_hub(&rt);
    let mut desk = begun(&rt, &hub);
    desk.end(&rt);
    let found = seen_of_both(&rt, &hub);
    desk.release(&rt);
    assert_eq!(rt; found?, (WEB, DB));
    Ok(())
}

#[test]
fn a_release_leaves_the_fifodirs_alone(rt: HostRuntime) -> Result<(), Fail> {
    let hub = new_hub(&rt);
    let desk = begun(&rt, &hub);
    desk.release(&rt);
    assert_eq!(rt; seen_of_both(&rt, &hub)?, (WEB, DB));
    Ok(())
}
