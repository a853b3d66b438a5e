//! Writers whose faults can be counted.
ghost use Rattle.std.specs.Prelude.{◌≡◌, ℕ, ◌<◌, length, Option, None, Some, IfOk, IfErr};
ghost use Rattle.std.specs.Io.{WritesAtMost};
ghost use Rattle.std.specs.Io.KnownBytes.{WriteAppends};
ghost use Rattle.std.specs.IoError.{error_kind};
ghost use Rattle.hub_io.specs.Telling.{Rises, faults_of_write};

use crate::again::write_again;
use std::io;
use std::io::{ErrorKind, Stdout, Write};
use std::os::unix::net::UnixStream;

/// What a session writes to: a writer whose faults a contract can count. A write is a fault if it fails or takes no
/// byte.
pub trait Sink: Write {
    /// How many writes have failed or taken no byte, if that is known.
    ghost faults: { Self → Option ℕ };

    /// Writes once, as `write` does. If the operating system writes, a write that a signal interrupted is retried.
    fn push(&mut self, bytes: &[u8]) -> io::Result<usize>
        requires { 0 < length bytes.now }
        ensures bound { WritesAtMost result bytes.now }
        ensures bytes { WriteAppends (Self.contents self.old)
            (Self.contents self.new) result bytes.now }
        ensures told { Rises (faults self.old) (faults self.new) (faults_of_write result) };
}

// A write fails if memory runs out, and else takes all bytes.
impl Sink for Vec<u8> {
    ghost faults = { λ _. None };

    fn push(&mut self, bytes: &[u8]) -> io::Result<usize>
        ensures bound { WritesAtMost result bytes.now }
        ensures bytes { WriteAppends (Some self.old.items) (Some self.new.items) result bytes.now }
        ensures count { IfOk result (λ n. n ≡ length bytes.now) }
        ensures kind { IfErr result (λ e. error_kind e ≡ ErrorKind.OutOfMemory) }
    {
        self.write(bytes)
    }
}

impl Sink for Stdout {
    ghost faults = { λ _. None };

    fn push(&mut self, bytes: &[u8]) -> io::Result<usize> {
        write_again(self, bytes)
    }
}

impl Sink for UnixStream {
    ghost faults = { λ _. None };

    fn push(&mut self, bytes: &[u8]) -> io::Result<usize> {
        write_again(self, bytes)
    }
}

impl Sink for &UnixStream {
    ghost faults = { λ _. None };

    fn push(&mut self, bytes: &[u8]) -> io::Result<usize> {
        write_again(self, bytes)
    }
}
