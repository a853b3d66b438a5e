//! How long a session may stay.
ghost use Rattle.std.specs.Prelude.{◌≡◌, ◌≤◌};
ghost use Rattle.hub_front.specs.Serving.{chunk_of, most_reads};

use hub_io::{CHUNK, MAX_READS};

/// The most reads of a session that may stay long. A client that makes one each microsecond meets it after three years.
pub const MANY_READS: u64 = 100_000_000_000_000;

/// How many bytes one read asks for in a session that may stay long. So its buffer takes little time and memory, however many
/// sessions there are.
pub const SMALL_CHUNK: usize = 8_192;

/// How long a session may stay, in reads of its client's bytes.
#[derive(Clone, Copy, Debug, PartialEq, Eq)]
pub enum Stay {
    /// At most [`MAX_READS`] reads, as a session of `script` or of a hub that serves so many sessions and ends.
    Short,
    /// At most [`MANY_READS`] reads, as a session of a hub that lives.
    Long,
}

impl Stay {
    /// The most reads.
    pub fn reads(self) -> u64
        ensures reads { result ≡ most_reads self }
        ensures most { result ≤ MANY_READS }
    {
        match self {
            Stay::Short => MAX_READS,
            Stay::Long => MANY_READS,
        }
    }

    /// How many bytes one read asks for. If a session may make few reads, each asks for many.
    pub fn chunk(self) -> usize
        ensures chunk { result ≡ chunk_of self }
        ensures some { 1 ≤ result }
        ensures most { result ≤ CHUNK }
    {
        match self {
            Stay::Short => CHUNK,
            Stay::Long => SMALL_CHUNK,
        }
    }
}
