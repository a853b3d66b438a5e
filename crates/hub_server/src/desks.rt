//! What serves sessions.
ghost use Rattle.std.specs.Prelude.{IfOk};
ghost use Rattle.hub_front.specs.Serving.{Asking};
ghost use Rattle.hub_front.specs.declared.stay.Stay.{Stay};
ghost use Rattle.hub_server.specs.Promised.{IsShare};
ghost use Rattle.hub_server.specs.Sessions.{IsEnded};

use hub_front::Enter;
use hub_io::{FrontError, Sink, Source};
use std::alloc::{AllocError, Global};
use std::sync::Wait;

/// Serves each session by a desk of its own. Each session's thread has a share of it.
pub trait Desks {
    /// A desk, as contracts see it.
    ghost Own: { Type 0 };

    /// `opens desks desk`: a session of these desks may begin with this desk.
    ghost opens: { Self → Own → Type 0 };

    /// How long a session of these desks may stay. Only one that may stay long has its replies written in batches.
    ghost stay: { Self → Stay };

    /// How such a desk answers.
    ghost asks: { Asking Own };

    /// How such a desk ends.
    ghost ends: { Own → Own → Type 0 };

    /// A share for another thread, which opens such desks too.
    fn share(&self) -> Result<Self, AllocError>
        ensures { IfOk result (IsShare opens stay self.now) };

    /// Serves one session from its first line to its end. Gives the number of its lines.
    fn serve<H: Wait + Enter, R: Source, W: Sink>(
        &self,
        rt: &H,
        alloc: Global,
        reader: &mut R,
        writer: &mut W,
    ) -> Result<u64, FrontError>
        ensures { IsEnded (stay self.now) (opens self.now) asks ends
            (record { remaining = R.remaining; reads = R.reads; faults = R.faults })
            (record { contents = W.contents; faults = W.faults })
            reader.old reader.new writer.old writer.new result };
}
