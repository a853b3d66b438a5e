//! Clients that wait for a session.

ghost use Rattle.std.specs.Prelude.{◌≡◌};
ghost use Rattle.hub_serving.specs.Crowds.{crowding_after, full_line, line_of_crowd};

use hub_endings::HubLine;
use hub_server::{Quota, Side};
use libc::net::{POLLIN, poll};
use libc::types::pollfd;
use std::os::fd::AsRawFd;
use std::os::unix::net::UnixListener;
use std::sync::Wait;

/// What is known of clients that wait.
#[derive(Clone, Copy, Debug, PartialEq, Eq)]
pub(crate) enum Crowding {
    /// A session was free when it was looked last, or no client waited.
    Room,
    /// All sessions were taken when it was looked last, and a client waited.
    Seen,
    /// It was so at two looks in a row, which was told, and no session was free since.
    Told,
}

/// Tells that no session is free at a door and clients wait there, once until one is free again.
#[derive(Drop)]
pub(crate) struct Crowd {
    /// How many sessions there may be at the same time.
    sessions: u64,
    side: Side,
    /// What two doors share. None: there is one door.
    quota: Option<Quota>,
    /// The descriptor of the socket that listens.
    listener: i32,
    state: Crowding,
}

// What is told if all of so many sessions are taken that this door may have.
fn full_line(side: Side, sessions: u64) -> HubLine
    ensures { result ≡ full_line side sessions }
{
    match side {
        Side::First => HubLine::Full { sessions },
        Side::Looking => HubLine::LookFull,
    }
}

impl Crowd {
    /// Who waits at this socket, which stays open for as long as the program runs.
    pub(crate) fn at(
        listener: &UnixListener,
        side: Side,
        sessions: u64,
        quota: Option<Quota>,
    ) -> Crowd {
        Crowd {
            sessions,
            side,
            quota,
            listener: listener.as_raw_fd(),
            state: Crowding::Room,
        }
    }

    /// The line to tell while so many sessions run, if there is one. It is asked for about once a second: a client that waits for less
    /// isn't worth a line.
    pub(crate) fn look<H: Wait>(&mut self, rt: &H, running: u64) -> Option<HubLine> {
        let (is_full, is_held) = match &self.quota {
            Some(quota) => quota.crowd(rt),
            None => (running >= self.sessions, false),
        };
        let waits = is_full && (is_held || has_client(self.listener));
        self.note(is_full, waits)
    }

    // Whether no session is free, and whether a client waits.
    fn note(&mut self, is_full: bool, waits: bool) -> Option<HubLine>
        ensures line { result ≡ line_of_crowd (full_line self.old.side self.old.sessions)
            self.old.state is_full waits }
        ensures state { self.new.state ≡ crowding_after self.old.state is_full waits }
    {
        let before = self.state;
        self.state = match before {
            Crowding::Told if is_full => Crowding::Told,
            Crowding::Seen if is_full && waits => Crowding::Told,
            Crowding::Room if is_full && waits => Crowding::Seen,
            _ => Crowding::Room,
        };
        match (before, self.state) {
            (Crowding::Seen, Crowding::Told) => Some(full_line(self.side, self.sessions)),
            _ => None,
        }
    }
}

// Whether a client waits at the socket with this descriptor until it is accepted.
fn has_client(listener: i32) -> bool {
    let mut asked = [pollfd {
        fd: listener,
        events: POLLIN,
        revents: 0,
    }];
    poll(&mut asked, 0) == 1 && asked[0].revents & POLLIN != 0
}
