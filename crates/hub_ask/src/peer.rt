//! The two streams of a peer that is asked.
ghost use Rattle.std.specs.Prelude.{◌≡◌};

use hub_io::{Sink, Source};

/// Why a stream of replies gives no more bytes, though its peer may have some.
#[derive(Clone, Copy, Debug, PartialEq, Eq)]
pub enum Halt {
    /// Its time is over.
    Late,
    /// An unfinished reply is as long as the longest of a hub.
    Overlong,
}

/// What a peer replies. Its reads end by a time.
pub trait Replies: Source {
    /// From now on, its reads have so many milliseconds in all.
    fn allow(&mut self, millis: u64)
        ensures { Self.remaining self.new ≡ Self.remaining self.old };

    /// Why its last read failed. None if it failed for another reason, or didn't fail.
    fn halt(&self) -> Option<Halt>;
}

/// What a peer is sent. Its writes end by a time.
pub trait Requests: Sink {
    /// From now on, its writes have so many milliseconds in all.
    fn allow(&mut self, millis: u64)
        ensures { Self.contents self.new ≡ Self.contents self.old };

    /// Whether its last write failed because its time was over.
    fn is_late(&self) -> bool;
}
