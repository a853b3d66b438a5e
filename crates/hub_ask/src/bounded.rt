//! Replies that have an end.
ghost use Rattle.std.specs.Prelude.{◌≡◌, ◌≤◌, ◌+◌, take, None, IfOk, OnErr, length};
ghost use Rattle.std.specs.Io.{ReadsAtMost};
ghost use Rattle.std.specs.Io.KnownBytes.{ReadConsumes};
ghost use Rattle.hub_requests.specs.declared.bounds.TheConstants.{LONGEST_REPLY};
ghost use Rattle.hub_ask.specs.Bounding.{unfinished_after};

use crate::peer::{Halt, Replies};
use hub_io::Source;
use hub_requests::LONGEST_REPLY;
use std::io;
use std::io::{ErrorKind, Read};

/// The replies of a peer, of which none may be longer than the longest of a hub. If so many bytes of an unfinished reply came, each
/// further read fails, and takes nothing.
#[derive(Drop)]
pub struct Bounded<S> {
    inner: S,
    // How many bytes came since the last LF.
    unfinished: usize,
    ghost bounded: { unfinished ≤ LONGEST_REPLY },
}

// How many bytes came since the last LF, if so many did before these.
fn count_unfinished(unfinished: usize, bytes: &[u8]) -> usize
    requires { unfinished + length bytes.now ≤ LONGEST_REPLY }
    ensures counted { result ≡ unfinished_after unfinished bytes.now }
    ensures bounded { result ≤ LONGEST_REPLY }
{
    let mut count = unfinished;
    'bytes: for byte in bytes {
        count = if *byte == b'\n' { 0 } else { count + 1 };
    }
    count
}

impl<S: Source> Bounded<S> {
    pub(crate) fn new(inner: S) -> Bounded<S>
        ensures { result.inner ≡ inner }
    {
        Bounded {
            inner,
            unfinished: 0,
        }
    }
}

impl<S: Source> Read for Bounded<S> {
    ghost remaining = { λ it. S.remaining it.inner };

    fn read(&mut self, buf: &mut [u8]) -> io::Result<usize> {
        self.pull(buf)
    }
}

impl<S: Source> Source for Bounded<S> {
    ghost use Rattle.hub_ask.specs.Unfinished.{unfinished_of};

    ghost reads = { λ _. None };

    ghost faults = { λ _. None };

    fn pull(&mut self, buf: &mut [u8]) -> io::Result<usize>
        ensures bound { ReadsAtMost result buf.new }
        ensures bytes { ReadConsumes (S.remaining self.old.inner)
            (S.remaining self.new.inner) result buf.new }
        // So it never takes more of an unfinished reply than the longest of a hub has.
        ensures counted { IfOk result (λ n. unfinished_of self.new
            ≡ unfinished_after (unfinished_of self.old) (take n buf.new)) }
        ensures refused { OnErr result (unfinished_of self.new ≡ unfinished_of self.old) }
    {
        if self.unfinished == LONGEST_REPLY {
            return Err(io::Error::from(ErrorKind::InvalidData));
        }
        let most = buf.len().min(LONGEST_REPLY - self.unfinished);
        let n = self.inner.pull(&mut buf[..most])?;
        self.unfinished = count_unfinished(self.unfinished, &buf[..n]);
        Ok(n)
    }
}

impl<S: Replies> Replies for Bounded<S> {
    fn allow(&mut self, millis: u64) {
        self.inner.allow(millis);
    }

    fn halt(&self) -> Option<Halt> {
        if self.unfinished == LONGEST_REPLY {
            Some(Halt::Overlong)
        } else {
            self.inner.halt()
        }
    }
}
