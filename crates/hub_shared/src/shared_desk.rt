//! The desk of one session among several.
ghost use Rattle.std.specs.Prelude.{◌≡◌, ◌≤◌, IfOk, length};
ghost use Rattle.std.specs.Arc.{arc_value};
ghost use Rattle.hub_requests.specs.Ranges.{AreLimits};
ghost use Rattle.hub_requests.specs.declared.bounds.TheConstants.{MOST_SERVICES};
ghost use Rattle.hub_requests.specs.declared.request.Request.TheVariants as asked;

use hub_fifodir::Enter;
use hub_handles::Handles;
use hub_io::Client;
use hub_letters::{Mode, Span, State, Want};
use hub_names::{Fifodirs, Hub};
use hub_record::{Kind, Letters};
use hub_requests::{Desk, Name, Names, PatternText, Refusal, Reply, Request, Will, Wills, limits};
use hub_wait::Pause;
use std::alloc::{AllocError, Global};
use std::sync::{Arc, Wait};

mod client_pause;
mod waits;

use client_pause::ClientPause;
use waits::Posts;

/// One session over a hub. It keeps the fifodir that it first found under a name, and makes its publisher there at its
/// first `pub`, `close` or `status` of that name; `status` is one load through that publisher and waits for nobody.
/// Each wait begins with a copy of the pause.
///
/// A desk that was dropped would keep its subscriptions, and the events that are pending for them would fill those
/// fifodirs that hold. So it isn't `Drop`, and only `release` takes it.
pub struct SharedDesk<P: Pause + Copy> {
    alloc: Global,
    hub: Arc<Hub, Global>,
    pause: P,
    /// Its client, at which its waits look.
    client: Option<Client>,
    /// Whether those who sleep until a fifodir changes are woken only if the hub is told to settle.
    wakes_late: bool,
    fifodirs: Fifodirs,
    handles: Handles,
    wills: Wills,
    /// How many wills its last end couldn't carry out.
    lost: u64,
    /// At which fifodirs.
    lost_names: Vec<Name>,
}

impl<P: Pause + Copy> SharedDesk<P> {
    ghost use Rattle.hub_shared.specs.Desks.{Asks, IsNewDesk, Watches, lost_by};

    /// A session that has found no fifodir and has no handle.
    pub fn new(alloc: Global, hub: Arc<Hub, Global>, pause: P) -> Result<SharedDesk<P>, AllocError>
        ensures { IfOk result (IsNewDesk (arc_value hub) pause) }
    {
        let handles = Handles::new(alloc)?;
        Ok(SharedDesk {
            alloc,
            hub,
            pause,
            client: None,
            wakes_late: false,
            fifodirs: Fifodirs::new(alloc),
            handles,
            wills: Wills::new(alloc),
            lost: 0,
            lost_names: Vec::new(alloc),
        })
    }

    /// From now on a wait answers `late` within about half a second of the end of its client, who reads no reply. Else a session
    /// whose client was killed would hold its subscriptions until the wait is over.
    pub fn watch(&mut self, client: Option<Client>)
        ensures { Watches self.old client self.new }
    {
        self.client = client;
    }

    /// From now on a request doesn't wake those who sleep until a fifodir changes that it changed. They are woken at the desk's next
    /// request that may sleep, at its end, if a fifodir is half full, and whenever somebody calls [`Hub::settle`]. Whoever serves the
    /// session calls that before each read and each write.
    pub fn wake_late(&mut self)
        ensures { Watches self.old self.old.client self.new }
    {
        self.wakes_late = true;
    }

    // Wakes those who sleep until a fifodir changes that was changed.
    fn wake(&self) {
        self.hub.settle();
    }

    // Wakes them, unless the desk wakes late.
    fn settle(&self) {
        if !self.wakes_late {
            self.wake();
        }
    }

    /// How many wills its last end couldn't carry out, at fifodirs that had no room for a minute, or take no more events.
    pub fn lost_wills(&self) -> u64
        ensures { result ≡ lost_by self.now }
    {
        self.lost
    }

    /// The names of these fifodirs, as far as there was memory for them.
    pub fn lost_names(&self) -> &[Name] {
        &self.lost_names
    }

    /// Ends all that the session still holds, and frees the desk.
    pub fn release<H: Wait>(mut self, rt: &H) {
        self.end(rt);
        let SharedDesk {
            alloc: _,
            hub: _,
            pause: _,
            client: _,
            wakes_late: _,
            fifodirs,
            handles,
            wills: _,
            lost: _,
            lost_names: _,
        } = self;
        handles.release(rt);
        fifodirs.release(rt);
    }

    fn make_plain<H: Wait + Enter>(
        &mut self,
        rt: &H,
        name: &Name,
        waiting: u64,
        total: u64,
        evict: bool,
    ) -> Reply
        requires { AreLimits waiting total }
        ensures { Asks self.old (asked.Dir name.now waiting total evict) result self.new }
    {
        let limits = limits(waiting, total, evict);
        self.fifodirs
            .make(rt, &self.hub, name, Kind::Plain, limits, false)
    }

    fn make_service<H: Wait + Enter>(
        &mut self,
        rt: &H,
        name: &Name,
        waiting: u64,
        total: u64,
        notifies: bool,
        evict: bool,
    ) -> Reply
        requires { AreLimits waiting total }
        ensures { Asks self.old (asked.Svc name.now waiting total notifies evict)
            result self.new }
    {
        let limits = limits(waiting, total, evict);
        self.fifodirs
            .make(rt, &self.hub, name, Kind::Service, limits, notifies)
    }

    fn subscribe<H: Wait + Enter>(&mut self, rt: &H, name: &Name) -> Reply
        ensures { Asks self.old (asked.Sub name.now) result self.new }
    {
        match self.fifodirs.find(rt, &self.hub, name) {
            Ok(found) => self.handles.subscribe(rt, name, found.dir),
            Err(refusal) => Reply::No(refusal),
        }
    }

    fn listen<H: Wait + Enter>(
        &mut self,
        rt: &H,
        name: &Name,
        mode: Mode,
        pattern: &PatternText,
    ) -> Reply
        ensures { Asks self.old (asked.Listen name.now mode pattern.now) result self.new }
    {
        match self.fifodirs.find(rt, &self.hub, name) {
            Ok(found) => self.handles.listen(rt, name, found.dir, mode, pattern),
            Err(refusal) => Reply::No(refusal),
        }
    }

    fn publish<H: Wait + Enter>(&mut self, rt: &H, name: &Name, letters: &Letters) -> Reply
        ensures { Asks self.old (asked.Pub name.now letters.now) result self.new }
    {
        let reply = self.fifodirs.publish(rt, &self.hub, name, letters);
        self.settle();
        reply
    }

    fn tell<H: Wait + Enter>(&mut self, rt: &H, name: &Name, state: State) -> Reply
        ensures { Asks self.old (asked.Tell name.now state) result self.new }
    {
        let reply = self.fifodirs.tell(rt, &self.hub, name, state);
        self.settle();
        reply
    }

    fn will<H: Wait + Enter>(&mut self, rt: &H, name: &Name, will: Will) -> Reply
        ensures { Asks self.old (asked.Will name.now will) result self.new }
    {
        self.fifodirs
            .will(rt, &self.hub, &mut self.wills, name, will)
    }

    /// Waits for the lock only if the session has no publisher there yet.
    fn status<H: Wait + Enter>(&mut self, rt: &H, name: &Name) -> Reply
        ensures { Asks self.old (asked.Status name.now) result self.new }
    {
        match self.fifodirs.status(name) {
            Some(reply) => reply,
            None => self.fifodirs.first_status(rt, &self.hub, name),
        }
    }

    fn await_more<H: Wait>(&mut self, rt: &H, id: u64, turns: u64) -> Reply
        ensures { Asks self.old (asked.Await id turns) result self.new }
    {
        self.wake();
        let mut pause = ClientPause::new(self.pause, self.client.as_ref());
        self.handles.await_more(rt, id, turns, &mut pause)
    }

    fn next<H: Wait>(&mut self, rt: &H, id: u64, turns: u64) -> Reply
        ensures { Asks self.old (asked.Next id turns) result self.new }
    {
        self.wake();
        let client = self.client.as_ref();
        let mut pause = ClientPause::new(self.pause, client);
        self.handles.next(rt, id, turns, &mut pause)
    }

    fn wait<H: Wait + Enter>(
        &mut self,
        rt: &H,
        span: Span,
        want: Want,
        turns: u64,
        names: &Names,
    ) -> Reply
        requires { length names.now ≤ MOST_SERVICES }
        ensures { Asks self.old (asked.Wait span want turns names.now) result self.new }
    {
        self.wake();
        let fifodirs = &mut self.fifodirs;
        match Posts::open(rt, self.alloc, fifodirs, &self.hub, want, names.items()) {
            Ok(posts) => {
                let pause = ClientPause::new(self.pause, self.client.as_ref());
                posts.settle(rt, span, turns, pause)
            }
            Err(refusal) => Reply::No(refusal),
        }
    }
}

impl<P: Pause + Copy> Desk for SharedDesk<P> {
    ghost use Rattle.hub_shared.specs.Desks.{Asks, IsEnded};

    ghost asks = { Asks };

    ghost ends = { IsEnded };

    fn ask<H: Wait + Enter>(&mut self, rt: &H, request: &Request) -> Reply {
        match request {
            Request::Dir {
                name,
                waiting,
                total,
                evict,
            } => self.make_plain(rt, name, *waiting, *total, *evict),
            Request::Svc {
                name,
                waiting,
                total,
                notifies,
                evict,
            } => self.make_service(rt, name, *waiting, *total, *notifies, *evict),
            Request::Sub { name } => self.subscribe(rt, name),
            Request::Pub { name, letters } => self.publish(rt, name, letters),
            Request::Tell { name, state } => self.tell(rt, name, *state),
            Request::Will { name, state } => self.will(rt, name, *state),
            Request::Take { id, max } => self.handles.take(rt, *id, *max),
            Request::Cancel { id } => self.handles.cancel(rt, *id),
            Request::Close { name } => self.fifodirs.close(rt, &self.hub, name),
            Request::Status { name } => self.status(rt, name),
            Request::About { name } => self.fifodirs.about(rt, &self.hub, name),
            Request::Listen {
                name,
                mode,
                pattern,
            } => self.listen(rt, name, *mode, pattern),
            Request::Poll { id } => self.handles.poll(rt, *id),
            Request::Await { id, turns } => self.await_more(rt, *id, *turns),
            Request::Next { id, turns } => self.next(rt, *id, *turns),
            Request::Wait {
                span,
                want,
                turns,
                names,
            } => self.wait(rt, *span, *want, *turns, names),
            Request::Names { from } => self.fifodirs.list(rt, &self.hub, *from),
        }
    }

    fn end<H: Wait>(&mut self, rt: &H) {
        self.handles.end(rt);
        self.lost_names.clear();
        let names = &mut self.lost_names;
        self.lost = self.fifodirs.carry_out(rt, &self.wills, self.pause, names);
        self.wills.clear();
        self.fifodirs.leave(rt);
        self.wake();
    }
}
