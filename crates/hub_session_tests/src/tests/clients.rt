//! Clients for the tests.
use std::alloc::Global;
use std::io;
use std::io::{Read, Write};
use std::net::Shutdown;
use std::os::unix::net::UnixStream;
use std::time::Duration;

/// A client that asks one line at a time.
#[derive(Drop)]
pub struct Client {
    stream: UnixStream,
    reply: Vec<u8>,
}

impl Client {
    /// Reads wait for ten seconds at most, so that a test ends.
    pub fn new(alloc: Global, stream: UnixStream) -> io::Result<Client> {
        stream.set_read_timeout(Some(Duration::from_secs(10)))?;
        Ok(Client {
            stream,
            reply: Vec::new(alloc),
        })
    }

    pub fn send(&mut self, bytes: &[u8]) -> io::Result<()> {
        self.stream.write_all(bytes)
    }

    /// No more is sent.
    pub fn finish(&mut self) -> io::Result<()> {
        self.stream.shutdown(Shutdown::Write)
    }

    /// Sends the line with an LF, and gives the reply without its own.
    pub fn ask(&mut self, line: &[u8]) -> io::Result<&[u8]> {
        self.send(line)?;
        self.send(b"\n")?;
        self.next_reply()
    }

    /// The next reply without its LF.
    pub fn next_reply(&mut self) -> io::Result<&[u8]> {
        self.reply.clear();
        let mut byte = [0u8];
        for _ in 0..8_192 {
            if self.stream.read(&mut byte)? == 0 || byte[0] == b'\n' {
                break;
            }
            self.reply.push(byte[0])?;
        }
        Ok(self.reply.as_slice())
    }

    /// All that the server sends until it hangs up.
    pub fn rest(&mut self) -> io::Result<&[u8]> {
        self.reply.clear();
        self.stream.read_to_end(&mut self.reply)?;
        Ok(self.reply.as_slice())
    }
}
