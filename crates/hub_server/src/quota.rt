//! The sessions that two doors share.

ghost use Rattle.std.specs.Prelude.{◌≡◌, IfOk};
ghost use Rattle.hub_server.specs.declared.side.Side.TheVariants.{First};

use crate::side::Side;
use crate::taken::{Admission, Taken};
use std::alloc::{AllocError, Global};
use std::sync::atomic::{AtomicU64, Ordering};
use std::sync::{Arc, Condvar, Mutex, Wait};

/// Where the threads of one door wait until it has room.
#[derive(Drop)]
struct Queue {
    /// How many threads wait, each with a connection that it has accepted.
    waiting: AtomicU64,
    /// Signalled when a session is over, at whichever door.
    over: Condvar,
}

impl Queue {
    fn new() -> Queue {
        Queue {
            waiting: AtomicU64::new(0),
            over: Condvar::new(),
        }
    }

    fn has_waiting(&self) -> bool {
        self.waiting.load(Ordering::Relaxed) > 0
    }
}

/// The sessions of both doors. Each door has a queue of its own: a session that is over wakes a thread of each. A thread that looks and
/// finds no room then takes no wake from one of the first door.
#[derive(Drop)]
struct Both {
    taken: Mutex<Taken>,
    first: Queue,
    looking: Queue,
}

impl Both {
    fn queue(&self, side: Side) -> &Queue {
        match side {
            Side::First => &self.first,
            Side::Looking => &self.looking,
        }
    }
}

/// What a door has of the sessions that it shares with another one.
#[derive(Drop)]
pub struct Quota {
    both: Arc<Both, Global>,
    side: Side,
}

impl Quota {
    /// The first door's of so many sessions at two doors.
    pub fn of_first(alloc: Global, sessions: u64) -> Result<Quota, AllocError>
        ensures { IfOk result (λ quota. quota.side ≡ First) }
    {
        let both = Arc::new(
            alloc,
            Both {
                taken: Mutex::new(Taken::none_of(sessions)),
                first: Queue::new(),
                looking: Queue::new(),
            },
        )?;
        let side = Side::First;
        Ok(Quota { both, side })
    }

    /// That of one of the two doors, over the same sessions.
    pub fn share(&self, side: Side) -> Result<Quota, AllocError>
        ensures { IfOk result (λ quota. quota.side ≡ side) }
    {
        let both = Arc::try_clone(&self.both)?;
        Ok(Quota { both, side })
    }

    /// Whether this door has no room, and whether a client waits there whose connection was accepted.
    pub fn crowd<H: Wait>(&self, rt: &H) -> (bool, bool) {
        let is_full = !self.both.taken.lock(rt).has_room(self.side);
        (is_full, self.both.queue(self.side).has_waiting())
    }

    // Waits until the door has room, and counts a session there.
    fn admit<H: Wait>(&self, rt: &H) -> Admission
        ensures { result.side ≡ self.now.side }
    {
        let queue = self.both.queue(self.side);
        let mut taken = self.both.taken.lock(rt);
        'full: for _ in rt.forever() {
            if let Some(admission) = taken.admit(self.side) {
                return admission;
            }
            queue.waiting.fetch_add(1, Ordering::Relaxed);
            taken = queue.over.wait(rt, taken);
            queue.waiting.fetch_sub(1, Ordering::Relaxed);
        }
        unreachable!()
    }

    // A session that was admitted is over. A wake takes long, so nobody is woken at a door where nobody waits.
    fn give_back<H: Wait>(&self, rt: &H, admission: Admission) {
        let mut taken = self.both.taken.lock(rt);
        taken.give_back(admission);
        if self.both.first.has_waiting() {
            self.both.first.over.notify_one();
        }
        if self.both.looking.has_waiting() {
            self.both.looking.over.notify_one();
        }
    }
}

/// The session that a thread serves at a door, as it is counted.
#[derive(Drop)]
pub(crate) struct Counted {
    quota: Quota,
    /// None: the thread serves no session.
    own: Mutex<Option<Admission>>,
}

impl Counted {
    pub(crate) fn by(quota: Quota) -> Counted
        ensures { result.quota ≡ quota }
    {
        Counted {
            quota,
            own: Mutex::new(None),
        }
    }

    /// For another thread of the same door.
    pub(crate) fn share(&self) -> Result<Counted, AllocError>
        ensures { IfOk result (λ counted. counted.quota.side ≡ self.now.quota.side) }
    {
        let quota = self.quota.share(self.quota.side)?;
        Ok(Counted::by(quota))
    }

    /// Waits until the door has room for the session that the thread is to serve.
    pub(crate) fn enter<H: Wait>(&self, rt: &H) {
        let admission = self.quota.admit(rt);
        *self.own.lock(rt) = Some(admission);
    }

    /// The session that the thread served is over, if it served one.
    pub(crate) fn leave<H: Wait>(&self, rt: &H) {
        let served = self.own.lock(rt).take();
        if let Some(admission) = served {
            self.quota.give_back(rt, admission);
        }
    }
}
