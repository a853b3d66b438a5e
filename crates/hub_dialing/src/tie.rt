//! A connection that stays open beside standard input.

use libc::net::{POLLIN, poll};
use libc::types::pollfd;
use std::os::fd::AsRawFd;
use std::os::unix::net::UnixStream;
use std::sync::Wait;

/// The descriptor of standard input.
const INPUT: i32 = 0;

/// What sees whether a hub still has its end of a connection.
pub trait Tie {
    /// Waits until standard input can be read, or has ended, or the hub has ended the connection. Whether the hub hasn't.
    fn awaits_input<H: Wait>(&self, rt: &H) -> bool;
}

/// A connection to a hub at a Unix socket.
#[derive(Drop)]
pub struct Connection {
    stream: UnixStream,
}

impl Connection {
    pub(crate) fn new(stream: UnixStream) -> Connection {
        Connection { stream }
    }
}

impl Tie for Connection {
    fn awaits_input<H: Wait>(&self, rt: &H) -> bool {
        'tries: for _ in rt.forever() {
            // Of the connection only its end is asked for, which the system always tells.
            let mut asked = [
                pollfd {
                    fd: INPUT,
                    events: POLLIN,
                    revents: 0,
                },
                pollfd {
                    fd: self.stream.as_raw_fd(),
                    events: 0,
                    revents: 0,
                },
            ];
            let ready = poll(&mut asked, -1);
            if ready > 0 && asked[1].revents != 0 {
                return false;
            }
            if ready >= 0 || os::errno() != libc::EINTR {
                return true;
            }
        }
        unreachable!()
    }
}
