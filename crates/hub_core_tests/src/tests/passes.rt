//! Publishers and tickets, each beside the fifodir that made it. None of them can be dropped: a publisher leaves, and a
//! ticket is cancelled.
ghost use Rattle.std.specs.Arc.{arc_value};
ghost use Rattle.std.specs.Prelude.{◌≡◌, [], length};
ghost use Rattle.hub_fifodir.specs.Passes.{HasTaken, IsPublisherOf, IsTicketOf, mine};

use hub_fifodir::{Enter, Fifodir, Looked, PassError, Publisher, Ticket};
use hub_letters::{Letter, State};
use hub_record::{Closed, Event, Kind, Limits, Policy, PubError, Status, SubError, Taken};
use hub_wait::{Pause, receive};
use std::alloc::{AllocError, Global};
use std::process::Abort;
use std::sync::{Arc, Wait};
use std::test::Fail;

pub(crate) type Shared = Arc<Fifodir, Global>;

/// A fifodir with these limits: how many may be pending, how many events there may be in all, and how many ids.
pub(crate) fn open(alloc: Global, kind: Kind, limits: (u64, u64, u64)) -> Result<Shared, Fail> {
    open_with(alloc, kind, limits, Policy::Hold)
}

pub(crate) fn open_with(
    alloc: Global,
    kind: Kind,
    limits: (u64, u64, u64),
    policy: Policy,
) -> Result<Shared, Fail> {
    let (waiting, total, ids) = limits;
    let limits = Limits::of(waiting, total, ids).ok_or("no limits")?;
    Ok(Arc::new(alloc, Fifodir::new(alloc, kind, limits.with(policy))?)?)
}

/// A pass beside the fifodir that made it.
pub(crate) trait Held {
    type Refusal: Copy;

    /// Makes a pass.
    fn make<R: Wait + Enter>(rt: &R, fifodir: Shared) -> Result<Self, Self::Refusal>;

    /// The number that it was given.
    fn own_number(&self) -> u64;

    /// Gives it back.
    fn end<R: Wait>(self, rt: &R);
}

/// Puts the pass into the list. If a growth is refused, it tries once more.
pub(crate) fn keep<R: Wait, H: Held>(rt: &R, list: &mut Vec<H>, held: H) -> Result<(), AllocError> {
    if let Err(refused) = list.push(held) {
        if let Err(refused) = list.push(refused.value) {
            refused.value.end(rt);
            return Err(AllocError);
        }
    }
    Ok(())
}

pub(crate) fn end_all<R: Wait, H: Held>(rt: &R, mut list: Vec<H>) {
    while let Some(held) = list.pop() {
        held.end(rt);
    }
    list.destroy_empty();
}

pub(crate) struct Sender {
    pub(crate) fifodir: Shared,
    pub(crate) me: Publisher,
    ghost of: { IsPublisherOf (arc_value fifodir) me },
}

impl Sender {
    pub(crate) fn of<R: Wait + Enter>(rt: &R, fifodir: Shared) -> Result<Sender, PassError> {
        let me = fifodir.publisher(rt)?;
        Ok(Sender { fifodir, me })
    }

    pub(crate) fn send<R: Wait>(&mut self, rt: &R, letters: &[Letter]) -> Result<u64, PubError> {
        self.fifodir.publish(rt, &mut self.me, letters)
    }

    /// Tells where the service is. A plain fifodir isn't told.
    pub(crate) fn tell<R: Wait>(&mut self, rt: &R, state: State) -> Option<Result<u64, PubError>> {
        match self.fifodir.kind() {
            Kind::Service => Some(self.fifodir.tell(rt, &mut self.me, state)),
            Kind::Plain => None,
        }
    }

    /// Tells where the service is, if its last event is this publisher's. A plain fifodir isn't told.
    pub(crate) fn tell_as_last<R: Wait>(
        &mut self,
        rt: &R,
        state: State,
    ) -> Option<Result<u64, PubError>> {
        match self.fifodir.kind() {
            Kind::Service => self.fifodir.tell_as_last(rt, &mut self.me, state),
            Kind::Plain => None,
        }
    }

    pub(crate) fn close<R: Wait>(&mut self, rt: &R) -> Result<(), Closed> {
        self.fifodir.close(rt, &mut self.me)
    }

    pub(crate) fn front(&mut self) -> u64 {
        self.fifodir.front(&mut self.me)
    }

    /// Looks as a waiter does, and tells the number of events.
    pub(crate) fn look(&mut self) -> (u64, Looked) {
        let waiter = self.fifodir.admit();
        let heard = self.fifodir.hear(&waiter);
        let (status, looked) = self.fifodir.look(&mut self.me, heard);
        self.fifodir.dismiss(waiter);
        (status.number, looked)
    }

    pub(crate) fn status(&mut self) -> Status {
        self.fifodir.status(&mut self.me)
    }

    pub(crate) fn leave<R: Wait>(self, rt: &R) {
        let Sender { fifodir, me } = self;
        fifodir.leave(rt, me);
    }
}

/// A publisher of a fifodir that has room for one more.
pub(crate) fn publisher<R: Abort + Wait + Enter>(rt: &R, fifodir: &Fifodir) -> Publisher
    ensures of { IsPublisherOf fifodir.now result }
    ensures silent { mine result ≡ [] }
{
    fifodir.publisher(rt).expect(rt, "a publisher")
}

/// The same, beside the fifodir that made it.
pub(crate) fn new_sender<R: Abort + Wait + Enter>(rt: &R, fifodir: &Shared) -> Sender {
    let fifodir = Arc::try_clone(fifodir).expect(rt, "the fifodir");
    Sender::of(rt, fifodir).expect(rt, "a publisher")
}

/// Looks, and then the bell rings.
pub(crate) fn look_before_a_ring<R: Abort + Wait + Enter>(rt: &R, fifodir: &Shared) -> Looked {
    let waiter = fifodir.admit();
    let mut sender = new_sender(rt, fifodir);
    let (_, looked) = sender.look();
    let _ = sender.send(rt, &[Letter::LEAST]);
    sender.leave(rt);
    fifodir.dismiss(waiter);
    looked
}

impl Held for Sender {
    type Refusal = PassError;

    fn make<R: Wait + Enter>(rt: &R, fifodir: Shared) -> Result<Sender, PassError> {
        Sender::of(rt, fifodir)
    }

    fn own_number(&self) -> u64 {
        self.me.number()
    }

    fn end<R: Wait>(self, rt: &R) {
        self.leave(rt);
    }
}

pub(crate) struct Reader {
    pub(crate) fifodir: Shared,
    pub(crate) me: Ticket,
    ghost of: { IsTicketOf (arc_value fifodir) me },
}

impl Reader {
    pub(crate) fn of<R: Wait + Enter>(rt: &R, fifodir: Shared) -> Result<Reader, SubError> {
        let me = fifodir.subscribe(rt)?;
        Ok(Reader { fifodir, me })
    }

    pub(crate) fn take<R: Wait>(&mut self, rt: &R, out: &mut [Event]) -> Taken
        ensures { HasTaken self.old.me (length out.old) result self.new.me }
    {
        self.fifodir.take_into(rt, &mut self.me, out)
    }

    pub(crate) fn receive<R: Wait, P: Pause>(
        &mut self,
        rt: &R,
        out: &mut [Event],
        turns: u64,
        pause: &mut P,
    ) -> Taken {
        receive(rt, &self.fifodir, &mut self.me, out, turns, pause)
    }

    pub(crate) fn await_more<R: Wait, P: Pause>(
        &mut self,
        rt: &R,
        turns: u64,
        pause: &mut P,
    ) -> bool {
        self.fifodir.await_more(rt, &mut self.me, turns, pause)
    }

    pub(crate) fn status(&mut self) -> Status {
        self.fifodir.status(&mut self.me)
    }

    pub(crate) fn cancel<R: Wait>(self, rt: &R) {
        let Reader { fifodir, me } = self;
        fifodir.cancel(rt, me);
    }
}

/// A ticket of a fifodir that has room for one more.
pub(crate) fn ticket<R: Abort + Wait + Enter>(rt: &R, fifodir: &Fifodir) -> Ticket
    ensures { IsTicketOf fifodir.now result }
{
    fifodir.subscribe(rt).expect(rt, "a ticket")
}

/// The same, beside the fifodir that made it.
pub(crate) fn new_reader<R: Abort + Wait + Enter>(rt: &R, fifodir: &Shared) -> Reader {
    let fifodir = Arc::try_clone(fifodir).expect(rt, "the fifodir");
    Reader::of(rt, fifodir).expect(rt, "a ticket")
}

/// The id of the fifodir's next ticket, which a closed one doesn't give.
pub(crate) fn next_id<R: Wait + Enter>(rt: &R, fifodir: &Fifodir) -> Option<u64> {
    match fifodir.subscribe(rt) {
        Ok(reader) => {
            let id = reader.id();
            fifodir.cancel(rt, reader);
            Some(id)
        }
        Err(_) => None,
    }
}

impl Held for Reader {
    type Refusal = SubError;

    fn make<R: Wait + Enter>(rt: &R, fifodir: Shared) -> Result<Reader, SubError> {
        Reader::of(rt, fifodir)
    }

    fn own_number(&self) -> u64 {
        self.me.id()
    }

    fn end<R: Wait>(self, rt: &R) {
        self.cancel(rt);
    }
}
