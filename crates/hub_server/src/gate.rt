//! The source of sessions.
ghost use Rattle.hub_server.specs.declared.gate.Next.{Next};

use std::sync::Wait;

/// The answer of a gate.
#[derive(Drop)]
pub enum Next<R, W> {
    /// A session: its reader and its writer.
    Session(R, W),
    /// A session was expected, but the gate failed.
    Failed,
    /// There are no more sessions.
    Over,
}

/// A source of sessions, as a listening socket is one. It waits for each session, until it is closed.
pub trait Gate<R, W> {
    /// `gives old next new`: a gate in the state `old` may give this next, and is then in the state `new`.
    ghost gives: { Self → Next R W → Self → Type 0 };

    /// `closes old new`: a gate in the state `old` may close, and is then in the state `new`.
    ghost closes: { Self → Self → Type 0 };

    /// Waits for the next session.
    fn next<H: Wait>(&mut self, rt: &H) -> Next<R, W>
        ensures { gives self.old result self.new };

    /// Closes the gate: it gives no more sessions. A client whose session wasn't given by then learns so at once.
    fn close(&mut self)
        ensures { closes self.old self.new };
}
