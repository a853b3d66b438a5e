//! The gates of a listening Unix socket.
ghost use Rattle.std.specs.Prelude.{◌≡◌, ◌≢◌, None};
ghost use Rattle.hub_server.specs.Doors.{Opens};
ghost use Rattle.hub_server.specs.declared.gate.Next.TheVariants.{Over};

use crate::connection::{Connection, Room};
use crate::gate::{Gate, Next};
use crate::listening::{Listen, accept_one, passes};
use crate::quota::{Counted, Quota};
use std::alloc::{AllocError, Global};
use std::io;
use std::os::unix::net::{UnixListener, UnixStream};
use std::rt::Clock;
use std::sync::atomic::{AtomicBool, Ordering};
use std::sync::{Arc, Condvar, Mutex, Wait};
use std::time::Duration;

/// The gate of a listening socket: it accepts connections, each a session, until it is closed.
#[derive(Drop)]
pub struct Door<L = UnixListener> {
    /// The listening socket. None once the door is closed.
    pub listener: Option<L>,
}

impl<R, W, L: Listen<R, W> + Drop> Gate<R, W> for Door<L> {
    ghost gives = { λ old next new. Opens L.accepts old.listener next new.listener };

    ghost closes = { λ _ new. new.listener ≡ None };

    fn next<H: Wait>(&mut self, rt: &H) -> Next<R, W> {
        match &mut self.listener {
            Some(listener) => accept_one(rt, listener),
            None => Next::Over,
        }
    }

    fn close(&mut self) {
        self.listener = None;
    }
}

/// How many threads accept at a time, at most. Each of them holds a descriptor for the connection that it waits for, or for one that it
/// has accepted and that waits until the door has room.
const MOST_ACCEPTING: u64 = 4;

/// The gate of a listening socket that several threads share. It is never over: closing it does nothing.
#[derive(Drop)]
pub struct SharedDoor<C> {
    alloc: Global,
    entrance: Arc<Entrance, Global>,
    /// Whether this thread tries again, since accepting failed. It is in the entrance meanwhile.
    tries_again: AtomicBool,
    /// How long a connection waits for a line. None: without end.
    idle: Option<Duration>,
    clock: C,
    /// Counts the session that this thread serves. None: the door shares its sessions with no other one.
    counted: Option<Counted>,
}

/// A listening socket, at which few threads at a time accept. A thread that leaves wakes another one only if it was the last,
/// since a wake takes longer than a short session.
#[derive(Drop)]
struct Entrance {
    listener: UnixListener,
    inside: Mutex<Inside>,
    /// Signalled when no thread accepts any more.
    empty: Condvar,
}

/// Who is in the entrance.
#[derive(Drop)]
struct Inside {
    /// How many threads accept.
    accepting: u64,
    /// Whether one of them tries again, since accepting failed. Nobody else enters then: it would fail too.
    tries_again: bool,
}

impl Entrance {
    // Waits until few enough threads accept, and is one of them.
    fn enter<H: Wait>(&self, rt: &H) {
        let mut inside = self.inside.lock(rt);
        'full: for _ in rt.forever() {
            if inside.accepting < MOST_ACCEPTING && !inside.tries_again {
                break;
            }
            inside = self.empty.wait(rt, inside);
        }
        inside.accepting = inside.accepting.saturating_add(1);
    }

    // `tried_again` says whether this is the thread that tried again.
    fn leave<H: Wait>(&self, rt: &H, tried_again: bool) {
        let mut inside = self.inside.lock(rt);
        inside.accepting = inside.accepting.saturating_sub(1);
        if tried_again {
            inside.tries_again = false;
        }
        if inside.accepting == 0 {
            self.empty.notify_one();
        }
    }

    // A thread for which accepting failed stays, to try again, unless another one does so already. Returns whether it stays.
    fn stays<H: Wait>(&self, rt: &H) -> bool {
        let mut inside = self.inside.lock(rt);
        if inside.tries_again {
            inside.accepting = inside.accepting.saturating_sub(1);
            return false;
        }
        inside.tries_again = true;
        true
    }

    // What a connection needs is there before it is accepted, so that its client isn't turned away for want of memory.
    fn accept(&self, alloc: Global) -> io::Result<(Room, UnixStream)> {
        let room = Room::new(alloc)?;
        let (stream, _peer) = self.listener.accept()?;
        Ok((room, stream))
    }
}

impl<C: Clock + Copy> SharedDoor<C> {
    /// A door at this socket, whose connections wait for so long for a whole line. None: without end.
    pub fn new(
        alloc: Global,
        listener: UnixListener,
        idle: Option<Duration>,
        clock: C,
    ) -> Result<SharedDoor<C>, AllocError> {
        let entrance = Entrance {
            listener,
            inside: Mutex::new(Inside {
                accepting: 0,
                tries_again: false,
            }),
            empty: Condvar::new(),
        };
        let entrance = Arc::new(alloc, entrance)?;
        Ok(SharedDoor {
            alloc,
            entrance,
            tries_again: AtomicBool::new(false),
            idle,
            clock,
            counted: None,
        })
    }

    /// This door, where a session waits until the quota has room for it.
    pub fn within(self, quota: Quota) -> SharedDoor<C> {
        let counted = Some(Counted::by(quota));
        SharedDoor {
            alloc: self.alloc,
            entrance: self.entrance,
            tries_again: self.tries_again,
            idle: self.idle,
            clock: self.clock,
            counted,
        }
    }

    /// The same door for another thread.
    pub fn share(&self) -> Result<SharedDoor<C>, AllocError> {
        let entrance = Arc::try_clone(&self.entrance)?;
        let counted = match &self.counted {
            Some(counted) => Some(counted.share()?),
            None => None,
        };
        Ok(SharedDoor {
            alloc: self.alloc,
            entrance,
            tries_again: AtomicBool::new(false),
            idle: self.idle,
            clock: self.clock,
            counted,
        })
    }

    /// The session that this door gave last is over, so there is room for another one. The next call of `next` says so by itself: only
    /// who asks for no more sessions has to call this.
    pub fn leave<H: Wait>(&self, rt: &H) {
        if let Some(counted) = &self.counted {
            counted.leave(rt);
        }
    }

    // Waits in the entrance until the door has room for a session. So at most as many connections as threads accept are kept waiting
    // here, and the others wait at the socket.
    fn wait_for_room<H: Wait>(&self, rt: &H) {
        if let Some(counted) = &self.counted {
            counted.enter(rt);
        }
    }

    // Accepts a connection, for receiving and for sending. None: this one came to nothing, or another thread tries again.
    fn accept<H: Wait>(&self, rt: &H) -> io::Result<Option<(Connection<C>, Connection<C>)>> {
        let tried_again = self.tries_again.load(Ordering::Relaxed);
        if !tried_again {
            self.entrance.enter(rt);
        }
        match self.entrance.accept(self.alloc) {
            Ok((room, stream)) => {
                self.wait_for_room(rt);
                self.tries_again.store(false, Ordering::Relaxed);
                self.entrance.leave(rt, tried_again);
                let halves = Connection::halves(room, stream, self.idle, self.clock)?;
                Ok(Some(halves))
            }
            Err(fault) if passes(&fault) => {
                self.tries_again.store(false, Ordering::Relaxed);
                self.entrance.leave(rt, tried_again);
                Ok(None)
            }
            Err(fault) => {
                let stays = tried_again || self.entrance.stays(rt);
                self.tries_again.store(stays, Ordering::Relaxed);
                if stays { Err(fault) } else { Ok(None) }
            }
        }
    }
}

impl<C: Clock + Copy> Gate<Connection<C>, Connection<C>> for SharedDoor<C> {
    ghost gives = { λ old next new. (new ≡ old) × (next ≢ Over) };

    ghost closes = { λ old new. new ≡ old };

    fn next<H: Wait>(&mut self, rt: &H) -> Next<Connection<C>, Connection<C>> {
        self.leave(rt);
        for _ in rt.forever() {
            match self.accept(rt) {
                Ok(Some((receive, send))) => return Next::Session(receive, send),
                Ok(None) => {}
                Err(_) => return Next::Failed,
            }
        }
        unreachable!()
    }

    fn close(&mut self) {}
}
