//! How many bytes a read asks for, and how many reads there may be.
ghost use Rattle.std.specs.Prelude.{◌≡◌, IfOk, vec_len};

use std::alloc::{AllocError, Global};

/// The most reads of a session, or of both streams of a relay together.
pub const MAX_READS: u64 = 10_000_000;

/// How many bytes one read asks for.
pub const CHUNK: usize = 65_536;

/// A buffer of this size, for one read. (Callers pass `CHUNK`. With the size as a parameter, the proofs don't write out
/// its zeros.)
pub fn new_chunk(alloc: Global, size: usize) -> Result<Vec<u8>, AllocError>
    ensures { IfOk result (λ chunk. vec_len chunk ≡ size) }
{
    vec![in alloc; 0u8; size]
}
