//! Threads that were started, each with a promise about its result.
ghost use Rattle.std.specs.Prelude.{◌≡◌, IfOk};
ghost use Rattle.std.specs.List.{AllZip};

use std::alloc::{AllocError, Global};
use std::marker::Model;
use std::snapshot::Snapshot;
use std::sync::Arc;
use std::sync::atomic::{AtomicBool, Ordering};
use std::thread::{Promise, PromisedHandle, Threads};

/// A thread that was started, and its result after it was joined.
#[derive(Drop)]
pub(crate) struct Started<T: Drop, P: Promise<T> + Drop> {
    promise: Snapshot<P>,
    /// The thread, until it is joined.
    thread: Option<PromisedHandle<T, P>>,
    /// What the joined thread returned.
    result: Option<T>,
    /// The thread sets this when it has nothing left to do.
    is_over: Arc<AtomicBool, Global>,
}

impl<T: Drop, P: Promise<T> + Drop> Model for Started<T, P> {
    ghost use Rattle.hub_server.specs.Promised.{IsKept};

    ghost Value = { P };

    ghost view = { λ started. started.promise.value };

    ghost invariant = { λ started. IsKept P.kept_by started.promise.value started.thread
        started.result };
}

impl<T: Drop, P: Promise<T> + Drop> Started<T, P> {
    pub(crate) fn new(
        promise: Snapshot<P>,
        thread: PromisedHandle<T, P>,
        is_over: Arc<AtomicBool, Global>,
    ) -> Started<T, P>
        requires { thread.promise ≡ promise.value }
        ensures { result ≡ promise.value }
    {
        Started {
            promise,
            thread: Some(thread),
            result: None,
            is_over,
        }
    }

    /// Waits until the thread has ended. Its stack is released then.
    pub(crate) fn join<H: Threads>(&mut self, rt: &H)
        ensures { self.new ≡ self.old }
    {
        if let Some(thread) = self.thread.take() {
            self.result = Some(thread.join(rt));
        }
    }

    /// Joins the thread if it has nothing left to do.
    pub(crate) fn join_if_over<H: Threads>(&mut self, rt: &H)
        ensures { self.new ≡ self.old }
    {
        if self.is_over.load(Ordering::Acquire) {
            self.join(rt);
        }
    }

    /// What the thread returned. Waits until it has ended.
    pub(crate) fn end<H: Threads>(self, rt: &H) -> T
        ensures { P.kept_by self result }
    {
        let Started { thread, result, .. } = self;
        match (thread, result) {
            (Some(thread), _) => thread.join(rt),
            (None, Some(result)) => result,
            (None, None) => unreachable!(),
        }
    }
}

/// Joins the threads that have nothing left to do.
pub(crate) fn join_over<H: Threads, T: Drop, P: Promise<T> + Drop>(
    rt: &H,
    started: &mut Vec<Started<T, P>>,
)
    ensures { started.new.items ≡ started.old.items }
{
    'threads: for thread in started.iter_mut() {
        thread.join_if_over(rt);
    }
}

/// What the threads returned, in order. Waits until all have ended, also if there is no memory for the results.
pub(crate) fn results_of<H: Threads, T: Drop, P: Promise<T> + Drop>(
    rt: &H,
    alloc: Global,
    mut started: Vec<Started<T, P>>,
) -> Result<Vec<T>, AllocError>
    ensures { IfOk result (λ results. AllZip P.kept_by started.items results.items) }
{
    'joins: for thread in started.iter_mut() {
        thread.join(rt);
    }
    let mut results = Vec::with_capacity(alloc, started.len())?;
    'threads: for thread in started {
        results.push(thread.end(rt))?;
    }
    Ok(results)
}
