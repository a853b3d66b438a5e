//! Readers whose reads and faults can be counted.
ghost use Rattle.std.specs.Prelude.{ℕ, Option, Some, None};
ghost use Rattle.std.specs.Io.{ReadsAtMost};
ghost use Rattle.std.specs.Io.KnownBytes.{ReadConsumes};
ghost use Rattle.hub_io.specs.Telling.{Rises, faults_of_read};

use crate::again::read_again;
use crate::client::Client;
use std::io;
use std::io::{Read, Stdin};
use std::os::unix::net::UnixStream;

/// What a session reads: a reader whose reads and failed reads a contract can count.
pub trait Source: Read {
    /// How many reads were made, if that is known.
    ghost reads: { Self → Option ℕ };

    /// How many reads have failed, if that is known.
    ghost faults: { Self → Option ℕ };

    /// Reads once, as `read` does. If the operating system reads, a read that a signal interrupted is retried.
    fn pull(&mut self, buf: &mut [u8]) -> io::Result<usize>
        ensures bound { ReadsAtMost result buf.new }
        ensures bytes { ReadConsumes (Self.remaining self.old)
            (Self.remaining self.new) result buf.new }
        ensures counted { Rises (reads self.old) (reads self.new) 1 }
        ensures told { Rises (faults self.old) (faults self.new) (faults_of_read result) };

    /// The client whose connection is read. None if no connection is read, or if it takes a descriptor that the system doesn't
    /// have.
    fn client(&self) -> Option<Client> {
        None
    }
}

impl Source for &[u8] {
    ghost reads = { λ _. None };

    ghost faults = { λ _. Some 0 };

    fn pull(&mut self, buf: &mut [u8]) -> io::Result<usize> {
        self.read(buf)
    }
}

impl Source for Stdin {
    ghost reads = { λ _. None };

    ghost faults = { λ _. None };

    fn pull(&mut self, buf: &mut [u8]) -> io::Result<usize> {
        read_again(self, buf)
    }
}

impl Source for UnixStream {
    ghost reads = { λ _. None };

    ghost faults = { λ _. None };

    fn pull(&mut self, buf: &mut [u8]) -> io::Result<usize> {
        read_again(self, buf)
    }

    fn client(&self) -> Option<Client> {
        self.try_clone().ok().map(Client::Own)
    }
}

// Those who share a connection read it by a reference each.
impl Source for &UnixStream {
    ghost reads = { λ _. None };

    ghost faults = { λ _. None };

    fn pull(&mut self, buf: &mut [u8]) -> io::Result<usize> {
        read_again(self, buf)
    }

    fn client(&self) -> Option<Client> {
        self.try_clone().ok().map(Client::Own)
    }
}
