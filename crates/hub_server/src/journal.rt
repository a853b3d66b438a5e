//! What learns of sessions that end while others go on.
ghost use Rattle.std.specs.Prelude.{ℕ, Result};
ghost use Rattle.hub_io.specs.declared.fault.FrontError.{FrontError};
ghost use Rattle.hub_server.specs.Sessions.{IsEnded};

use crate::desks::Desks;
use crate::promise::Session;
use hub_io::{FrontError, Sink, Source};
use hub_reports::ServeError;
use std::alloc::AllocError;
use std::sync::Wait;

/// Learns of sessions, each when it ends. Each thread that serves sessions has a share of it.
pub trait Journal<R: Source, W: Sink> {
    /// `numbers old number new`: a session begins, and a journal in the state `old` may give it this number, and is then in the
    /// state `new`.
    ghost numbers: { Self → ℕ → Self → Type 0 };

    /// `tells old number read written ended new`: the journal learns that the session with this number ended so, and left its
    /// reader and its writer so.
    ghost tells: { Self → ℕ → R → W → Result ℕ FrontError → Self → Type 0 };

    /// `fails old new`: the journal learns that something failed that is tried again.
    ghost fails: { Self → Self → Type 0 };

    /// A share for another thread.
    fn share(&self) -> Result<Self, AllocError>;

    /// A session begins. Returns its number.
    fn begins(&mut self) -> u64
        ensures { numbers self.old result self.new };

    /// The session with this number ended so. It began with what `session` shows, and its reader and its writer are as it left them.
    fn ended<H: Wait, O: Desks>(
        &mut self,
        rt: &H,
        number: u64,
        session: &Session<R, W, O>,
        ended: Result<u64, FrontError>,
        reader: &R,
        writer: &W,
    )
        requires { IsEnded (O.stay session.now.desks.value) (O.opens session.now.desks.value)
            O.asks O.ends
            (record { remaining = R.remaining; reads = R.reads; faults = R.faults })
            (record { contents = W.contents; faults = W.faults })
            session.now.reader.value reader.now session.now.writer.value writer.now ended }
        ensures { tells self.old number reader.now writer.now ended self.new };

    /// The gate failed, or there was no memory for a session. Either is tried again when this returns, so it waits for a moment.
    fn failed<H: Wait>(&mut self, rt: &H)
        ensures { fails self.old self.new };

    /// No thread could be started in the place of one that has ended, and this is why. It is tried again when this returns, so it
    /// waits for a moment.
    fn unstarted<H: Wait>(&mut self, rt: &H, why: ServeError);
}

/// Learns nothing.
#[derive(Drop)]
pub(crate) struct Untold;

impl<R: Source, W: Sink> Journal<R, W> for Untold {
    ghost numbers = { λ _ _ _. Unit {0} };

    ghost tells = { λ _ _ _ _ _ _. Unit {0} };

    ghost fails = { λ _ _. Unit {0} };

    fn share(&self) -> Result<Untold, AllocError> {
        Ok(Untold)
    }

    fn begins(&mut self) -> u64 {
        0
    }

    fn ended<H: Wait, O: Desks>(
        &mut self,
        _rt: &H,
        _number: u64,
        _session: &Session<R, W, O>,
        _ended: Result<u64, FrontError>,
        _reader: &R,
        _writer: &W,
    ) {}

    fn failed<H: Wait>(&mut self, _rt: &H) {}

    fn unstarted<H: Wait>(&mut self, _rt: &H, _why: ServeError) {}
}
