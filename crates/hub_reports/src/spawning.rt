//! How threads are started.
ghost use Rattle.std.specs.Prelude.{◌≡◌, IfOk};

use std::thread::{Builder, JoinHandle, Promise, PromisedHandle, Threads};

/// The bytes of stack of a session's thread: 2 MiB. The deepest session that was found, with a pattern of 200 unclosed
/// groups, takes 256 KiB.
pub const STACK_SIZE: usize = 2 << 20;

/// The system started no thread. Only this file makes one, after it asked for a thread and was refused. So no other code can say
/// that a thread couldn't be started if it could.
#[derive(Clone, Copy, Debug, PartialEq, Eq)]
pub struct NoThread {
    refused: (),
}

/// Starts a thread with the stack of a session's.
pub fn spawn<H, F, T>(rt: &H, work: F) -> Result<JoinHandle<T>, NoThread>
where
    H: Threads,
    F: FnOnce() -> T + Send + Drop + 'static,
    T: Send + Drop + 'static,
    requires { F.pre work }
{
    match Builder::new().stack_size(STACK_SIZE).spawn(rt, work) {
        Ok(thread) => Ok(thread),
        Err(_) => Err(NoThread { refused: () }),
    }
}

/// The same, and the thread's result keeps the promise.
pub fn spawn_with<H, P, F, T>(rt: &H, promise: P, work: F) -> Result<PromisedHandle<T, P>, NoThread>
where
    H: Threads,
    P: Promise<T> + Drop,
    F: FnOnce() -> T + Send + Drop + 'static,
    T: Send + Drop + 'static,
    requires runs { F.pre work }
    requires keeps { (r : T) → F.post work r → P.kept_by promise r }
    ensures { IfOk result (λ thread. thread.promise ≡ promise) }
{
    match Builder::new()
        .stack_size(STACK_SIZE)
        .spawn_with(rt, promise, work)
    {
        Ok(thread) => Ok(thread),
        Err(_) => Err(NoThread { refused: () }),
    }
}
