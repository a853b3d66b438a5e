//! The client at the other end of a connection.

use std::alloc::Global;
use std::io::{ErrorKind, Write};
use std::os::unix::net::UnixStream;
use std::sync::Arc;

/// A client, by the connection to it. During a wait, a session sees here whether its client is still there.
#[derive(Drop)]
pub enum Client {
    /// By a descriptor of its own.
    Own(UnixStream),
    /// By a share of the connection.
    Shared(Arc<Option<UnixStream>, Global>),
}

impl Client {
    /// Whether nobody has the other end of the connection any more.
    pub fn is_gone(&self) -> bool {
        match self {
            Client::Own(stream) => is_gone(stream),
            Client::Shared(share) => share.as_ref().as_ref().is_some_and(is_gone),
        }
    }
}

// A send of no bytes fails if nobody has the other end. It passes if the client has only ended its own sending, since it still reads.
fn is_gone(mut stream: &UnixStream) -> bool {
    match stream.write(&[]) {
        Ok(_) => false,
        Err(error) => matches!(
            error.kind(),
            ErrorKind::BrokenPipe | ErrorKind::ConnectionReset
        ),
    }
}
