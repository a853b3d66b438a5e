//! How a fifodir wakes those who wait for it.
ghost use Rattle.std.specs.Prelude.{◌≡◌};

use crate::fifodir::Fifodir;
use crate::pass::Pass;
use crate::rule::TableSeat;
use hub_record::Status;
use std::alloc::Global;
use std::snapshot::Snapshot;
use std::sync::atomic::{AtomicBool, AtomicU64, Ordering};
use std::sync::{Arc, Wait};
use std::time::Duration;

/// How many sleepers a ring wakes by itself.
const FIRST_WOKEN: u64 = 4;

/// Wakes those who sleep until a fifodir changes. Several fifodirs may share one, so that a wait for several sleeps until
/// one of them changes.
///
/// A waiter hears the bell first, then looks for what it waits for, and sleeps with the number that it heard. If the bell
/// rings between the look and the sleep, the number is another one, and the sleep ends at once. The types leave no other
/// order: a [`Waiter`] gives a [`Heard`], which a look takes for a [`Looked`], and a sleep asks for that.
///
/// A bell may wake its sleepers late: not at each ring, but only when [`Bell::settle`] is called. So a thread that makes many changes
/// wakes them once. Whoever makes a change has to settle before it waits for anything.
///
/// If many sleep, each ring costs as many wakes. So one of many may rest between two sleeps, for as long as it can do without a look. Only
/// an urgent ring wakes who rests: a fifodir is more than half full, or was closed.
#[derive(Drop)]
pub struct Bell {
    rings: Rings,
    urgent: Rings,
    /// Whether sleepers are woken only by `settle`.
    is_late: bool,
    /// Whether it rang since the sleepers were woken last.
    owes: AtomicBool,
}

/// Rings of one kind, and who sleeps until the next one.
#[derive(Drop)]
struct Rings {
    /// How often it rang so far.
    rung: AtomicU64,
    /// How many threads may be asleep.
    sleepers: AtomicU64,
}

impl Rings {
    fn none() -> Rings {
        Rings {
            rung: AtomicU64::new(0),
            sleepers: AtomicU64::new(0),
        }
    }

    fn count(&self) -> u64 {
        self.rung.load(Ordering::SeqCst)
    }

    fn sleepers(&self) -> u64 {
        self.sleepers.load(Ordering::SeqCst)
    }

    // Nobody falls asleep meanwhile: the number is another one.
    fn add(&self) {
        self.rung.fetch_add(1, Ordering::SeqCst);
    }

    // Sleeps until there is another ring than those that were heard, or for so long. Whoever hears a ring wakes the next sleeper. So the
    // one who rings doesn't wake them all, and they wake on several processors at once.
    fn sleep<R: Wait>(&self, rt: &R, heard: u64, most: Duration) {
        self.sleepers.fetch_add(1, Ordering::SeqCst);
        self.rung
            .park_timeout(rt, (heard & 0xffff_ffff) as u32, most);
        let others = self.sleepers.fetch_sub(1, Ordering::SeqCst);
        if others > 1 && self.count() != heard {
            self.rung.wake_one();
        }
    }

    // Wakes the first sleepers. It asks the kernel only if somebody may be asleep: a sleeper is counted before the kernel compares the
    // number that it read, and here the number went up before the count is read.
    fn wake(&self) {
        for _ in 0..self.sleepers().min(FIRST_WOKEN) {
            self.rung.wake_one();
        }
    }
}

impl Bell {
    /// A bell that hasn't rung.
    pub fn new() -> Bell {
        Bell::of(false)
    }

    /// A bell that hasn't rung, and that wakes its sleepers late.
    pub fn late() -> Bell {
        Bell::of(true)
    }

    fn of(is_late: bool) -> Bell {
        Bell {
            rings: Rings::none(),
            urgent: Rings::none(),
            is_late,
            owes: AtomicBool::new(false),
        }
    }

    /// How often it rang so far.
    pub fn rings(&self) -> u64 {
        self.rings.count()
    }

    /// How many threads sleep or rest, or are about to.
    pub fn sleepers(&self) -> u64 {
        self.rings.sleepers().saturating_add(self.urgent.sleepers())
    }

    /// Sleeps until it has rung since the look, but for no longer than this. It may also return for no reason.
    pub fn sleep<R: Wait>(&self, rt: &R, looked: Looked, most: Duration) {
        self.rings.sleep(rt, looked.rings, most);
    }

    /// Rests for so long, or until it has rung urgently since the look. It may also return for no reason.
    pub fn rest<R: Wait>(&self, rt: &R, looked: Looked, most: Duration) {
        self.urgent.sleep(rt, looked.urgent, most);
    }

    /// Rings, and wakes the first sleepers unless it does so late, and if it is urgent, also those who rest.
    pub(crate) fn ring(&self, is_urgent: bool) {
        self.rings.add();
        if is_urgent {
            self.urgent.add();
            self.urgent.wake();
        }
        if self.is_late && !is_urgent {
            self.owes.store(true, Ordering::SeqCst);
        } else {
            self.rings.wake();
        }
    }

    /// Wakes the first sleepers if it has rung since they were woken last. Whoever rang either finds here that it owes a wake, or
    /// another thread has found that since, and wakes them.
    pub fn settle(&self) {
        if self.owes.load(Ordering::SeqCst) && self.owes.swap(false, Ordering::SeqCst) {
            self.rings.wake();
        }
    }
}

/// How often a bell had rung when a waiter heard it. Only a look takes it, so no look comes before it.
#[derive(Drop)]
pub struct Heard {
    rings: u64,
    urgent: u64,
    /// The waiter that heard it, as contracts see it.
    waiter: Snapshot<Waiter>,
}

impl Fifodir {
    ghost use Rattle.hub_fifodir.specs.Passes.{IsOf, IsStatusOf, OnlyLooks, Remains, rings_heard, rings_looked, table_heard, table_of, urgent_heard, urgent_looked};

    /// The status, as a look of one who has heard this fifodir's bell.
    pub fn look<A: Pass>(&self, me: &mut A, heard: Heard) -> (Status, Looked)
        requires of { IsOf self.now (A.view me.old) }
        requires heard { table_heard heard ≡ table_of self.now }
        ensures remains { Remains self.now (A.view me.old) (A.view me.new) }
        ensures looks { OnlyLooks (A.view me.old) (A.view me.new) }
        ensures status { IsStatusOf result.0 (A.view me.new).sight }
        ensures heard { rings_looked result.1 ≡ rings_heard heard }
        ensures urgent { urgent_looked result.1 ≡ urgent_heard heard }
    {
        let status = self.status(me);
        let Heard { rings, urgent, .. } = heard;
        (status, Looked { rings, urgent })
    }
}

/// How often a bell had rung before a look. Only a look gives one, and a pause asks for it, so none comes without a look before it.
#[derive(Clone, Copy, Debug, PartialEq, Eq)]
pub struct Looked {
    rings: u64,
    urgent: u64,
}

impl Looked {
    ghost use Rattle.hub_fifodir.specs.Passes.{rings_looked};

    /// How often the bell had rung.
    pub fn rings(self) -> u64
        ensures { result ≡ rings_looked self }
    {
        self.rings
    }
}

/// Says that somebody waits for changes of a fifodir. While it is there, each change rings the fifodir's bell. If one were
/// dropped, the bell would go on to ring for nobody. So it is neither `Copy` nor `Drop`, and only `Fifodir::dismiss` takes
/// it, of its own fifodir.
pub struct Waiter {
    /// A seat without a role. It says whose waiter this is.
    seat: TableSeat,
}

/// How many wait for changes of one fifodir, and the bell that wakes them.
#[derive(Drop)]
pub(crate) struct Waiters {
    count: AtomicU64,
    bell: Arc<Bell, Global>,
}

impl Waiters {
    ghost use Rattle.hub_fifodir.specs.Passes.{table_heard, table_of_waiter};

    /// None waits.
    pub(crate) fn new(bell: Arc<Bell, Global>) -> Waiters {
        Waiters {
            count: AtomicU64::new(0),
            bell,
        }
    }

    pub(crate) fn bell(&self) -> &Bell {
        &self.bell
    }

    /// One more waits. The seat is of its fifodir's table.
    pub(crate) fn admit(&self, seat: TableSeat) -> Waiter
        ensures { table_of_waiter result ≡ seat.table_id }
    {
        self.count.fetch_add(1, Ordering::SeqCst);
        Waiter { seat }
    }

    pub(crate) fn hear(&self, waiter: &Waiter) -> Heard
        ensures { table_heard result ≡ table_of_waiter waiter.now }
    {
        Heard {
            rings: self.bell.rings(),
            urgent: self.bell.urgent.count(),
            waiter: Snapshot::of(waiter),
        }
    }

    pub(crate) fn dismiss(&self, waiter: Waiter) {
        let Waiter { seat: _ } = waiter;
        self.count.fetch_sub(1, Ordering::SeqCst);
    }

    /// Rings if somebody waits. The change comes before this, and a waiter is counted before it looks: either it sees the
    /// change, or it is seen here. A late bell wakes at once if it is urgent.
    pub(crate) fn tell(&self, is_urgent: bool) {
        if self.count.load(Ordering::SeqCst) > 0 {
            self.bell.ring(is_urgent);
        }
    }
}
