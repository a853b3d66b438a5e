//! The descriptor that is told when a hub listens.

use crate::places::AllInPlace;
use hub_endings::Fault;
use libc::net::{POLLERR, POLLHUP, POLLOUT, poll};
use libc::types::pollfd;
use std::rt::Clock;
use std::sync::Wait;
use std::thread;
use std::time::Duration;

/// For how many milliseconds a descriptor that takes no byte at the moment is left alone.
const RETRY: u64 = 100;

/// The standard streams stay open: a file that is opened later would be taken for one of them.
const LAST_STREAM: i32 = 2;

/// A descriptor of the program that gets a newline, as s6 wants it at its `notification-fd`.
#[derive(Drop)]
pub(crate) struct Notice {
    descriptor: i32,
}

impl Notice {
    /// An error is `Notify` if the descriptor isn't open. It is looked at before the program opens any other one, which would
    /// get the same number.
    pub(crate) fn at(descriptor: u64) -> Result<Notice, Fault> {
        let descriptor = i32::try_from(descriptor).map_err(|_| Fault::Notify)?;
        let copy = os::duplicate(descriptor);
        if copy < 0 {
            return Err(Fault::Notify);
        }
        libc::close(copy);
        Ok(Notice { descriptor })
    }

    /// Writes the newline at the descriptor's place, and closes the descriptor. The hub's sockets are there by then.
    pub(crate) fn give<H: Clock + Wait>(self, rt: &H, _there: &AllInPlace) -> Result<(), Fault> {
        let given = write_newline(rt, self.descriptor);
        if self.descriptor > LAST_STREAM {
            libc::close(self.descriptor);
        }
        given
    }
}

// Whether the other end of a pipe or a socket is gone. The system ends a program that writes there.
fn is_unheard(descriptor: i32) -> bool {
    let mut asked = [pollfd {
        fd: descriptor,
        events: POLLOUT,
        revents: 0,
    }];
    poll(&mut asked, 0) == 1 && asked[0].revents & (POLLERR | POLLHUP) != 0
}

fn write_newline<H: Clock + Wait>(rt: &H, descriptor: i32) -> Result<(), Fault> {
    'tries: for _ in rt.forever() {
        if is_unheard(descriptor) {
            return Err(Fault::Notify);
        }
        if libc::write(descriptor, b"\n") == 1 {
            return Ok(());
        }
        if !matches!(os::errno(), libc::EINTR | libc::EAGAIN) {
            return Err(Fault::Notify);
        }
        thread::sleep(rt, Duration::from_millis(RETRY));
    }
    unreachable!()
}
