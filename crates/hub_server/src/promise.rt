//! What the thread of a session promises.
ghost use Rattle.hub_server.specs.Sessions.{IsResult};

use crate::desks::Desks;
use hub_io::{FrontError, Sink, Source};
use std::snapshot::Snapshot;
use std::thread::Promise;

/// What a session began with.
#[derive(Drop)]
pub struct Session<R, W, O> {
    pub desks: Snapshot<O>,
    pub reader: Snapshot<R>,
    pub writer: Snapshot<W>,
}

impl<R: Source, W: Sink, O: Desks> Promise<Result<u64, FrontError>> for Session<R, W, O> {
    ghost kept_by = { λ session result. IsResult
        (O.stay session.desks.value) (O.opens session.desks.value) O.asks O.ends
        (record { remaining = R.remaining; reads = R.reads; faults = R.faults })
        (record { contents = W.contents; faults = W.faults })
        session.reader.value session.writer.value result };
}
