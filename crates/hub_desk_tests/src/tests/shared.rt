//! Several sessions over one hub.
use crate::tests::desks::{new_hub, session};
use crate::tests::rows::{name_of, run};
use hub_record::{Kind, Limits};
use hub_requests::{Desk, Enter};
use hub_shared::{Found, Hub, HubError};
use std::alloc::AllocGlobal;
use std::process::Abort;
use std::sync::Wait;
use std::test::Fail;

/// A session whose subscription holds every letter of a full fifodir.
static FILLS: &str = "
    dir web 2 100 -> ok
    sub web -> ok 1
    pub web ab -> ok 0
    pub web c -> no full
";

/// Another session finds room after that one has ended.
static FINDS_ROOM: &str = "
    pub web c -> ok 2
    status web -> ok 3 0 open
";

/// The one that has ended serves on.
static SERVES_ON: &str = "
    take 1 5 -> no id
    sub web -> ok 2
    status web -> ok 3 0 open
";

#[test]
fn a_session_that_ends_holds_no_one_up(rt: HostRuntime) {
    let hub = new_hub(&rt);
    let mut first = session(&rt, &hub);
    let mut second = session(&rt, &hub);
    run(&rt, &mut first, FILLS);
    first.end(&rt);
    run(&rt, &mut second, FINDS_ROOM);
    run(&rt, &mut first, SERVES_ON);
    first.release(&rt);
    second.release(&rt);
}

/// The number that the next publisher under the name gets. None if it is refused.
fn next_number<H: AllocGlobal + Abort + Wait + Enter>(
    rt: &H,
    hub: &Hub,
) -> Result<Option<u64>, Fail> {
    let web = name_of(rt, rt.alloc(), "web")?;
    let found = hub.find(rt, &web).1?.ok_or("found")?;
    let Ok(publisher) = found.dir.publisher(rt) else {
        return Ok(None);
    };
    let number = publisher.number();
    found.dir.leave(rt, publisher);
    Ok(Some(number))
}

/// The id that the next subscription to a fifodir gets. None if it is refused.
pub fn next_id<H: Wait + Enter>(rt: &H, found: &Found) -> Option<u64> {
    let Ok(ticket) = found.dir.subscribe(rt) else {
        return None;
    };
    let id = ticket.id();
    found.dir.cancel(rt, ticket);
    Some(id)
}

/// The id that the next subscription gets, and the number that the next publisher gets.
fn next_of_each<H: AllocGlobal + Abort + Wait + Enter>(
    rt: &H,
    hub: &Hub,
) -> Result<(Option<u64>, Option<u64>), Fail> {
    let web = name_of(rt, rt.alloc(), "web")?;
    let found = hub.find(rt, &web).1?.ok_or("found")?;
    Ok((next_id(rt, &found), next_number(rt, hub)?))
}

/// The same, while a session is there that has asked these rows.
fn next_beside<H: AllocGlobal + Abort + Wait + Enter>(
    rt: &H,
    rows: &str,
) -> Result<(Option<u64>, Option<u64>), Fail> {
    let hub = new_hub(rt);
    let mut desk = session(rt, &hub);
    run(rt, &mut desk, rows);
    let next = next_of_each(rt, &hub);
    desk.release(rt);
    next
}

/// A session makes one publisher under a name, whatever it asks of it. The fifodir is closed at the end.
static SPEAKS: &str = "
    dir web 64 100 -> ok
    status web -> ok 0 0 open
    pub web a -> ok 0
    pub web b -> ok 1
    close web -> ok
";

#[test]
fn a_session_keeps_its_publisher(rt: HostRuntime) -> Result<(), Fail> {
    assert_eq!(rt; next_beside(&rt, SPEAKS)?, (None, Some(2)));
    Ok(())
}

/// A session subscribes, listens, awaits both sorts of handles, and lists the names.
static LOOKS: &str = "
    dir web 64 100 -> ok
    sub web -> ok 1
    listen web repeat b -> ok 2
    await 1 3 -> late
    await 2 3 -> late
    names 0 -> names web
";

#[test]
fn an_await_and_a_list_make_no_pass(rt: HostRuntime) -> Result<(), Fail> {
    assert_eq!(rt; next_beside(&rt, LOOKS)?, (Some(3), Some(1)));
    Ok(())
}

/// The kind of a name's fifodir, and whether its service reports readiness.
fn kind_in<H: AllocGlobal + Abort + Wait>(
    rt: &H,
    hub: &Hub,
    text: &str,
) -> Result<Option<(Kind, bool)>, Fail> {
    let name = name_of(rt, rt.alloc(), text)?;
    let found = hub.find(rt, &name).1?;
    Ok(found.map(|found| (found.dir.kind(), found.notifies)))
}

#[test]
fn a_hub_finds_what_was_made_in_it(rt: HostRuntime) -> Result<(), Fail> {
    let hub = new_hub(&rt);
    let limits = Limits::of(2, 100, 3).ok_or("no limits")?;
    let web = name_of(&rt, rt.alloc(), "web")?;
    let db = name_of(&rt, rt.alloc(), "db")?;
    assert_eq!(rt; kind_in(&rt, &hub, "web")?, None);
    assert_eq!(rt;
        hub.make_named(&rt, &web, Kind::Service, limits, true).1,
        Ok(())
    );
    assert_eq!(rt; kind_in(&rt, &hub, "web")?, Some((Kind::Service, true)));
    assert_eq!(rt; kind_in(&rt, &hub, "db")?, None);
    assert_eq!(rt;
        hub.make_named(&rt, &db, Kind::Plain, limits, false).1,
        Ok(())
    );
    assert_eq!(rt; kind_in(&rt, &hub, "db")?, Some((Kind::Plain, false)));
    let (_, again) = hub.make_named(&rt, &web, Kind::Plain, limits, false);
    assert_eq!(rt; again, Err(HubError::Exists));
    assert_eq!(rt; kind_in(&rt, &hub, "web")?, Some((Kind::Service, true)));
    for number in 1..4 {
        assert_eq!(rt; next_number(&rt, &hub)?, Some(number));
    }
    assert_eq!(rt; next_number(&rt, &hub)?, None);
    Ok(())
}
