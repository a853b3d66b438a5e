//! A watch with the ticket that feeds it.
ghost use Rattle.std.specs.Prelude.{◌≡◌, ◌+◌, ◌≤◌, List, Some, length, IfErr, IfOk};
ghost use Rattle.std.specs.Arc.{arc_value};
ghost use Rattle.hub_record.specs.declared.limits.TheConstants.{MOST_EVENTS};
ghost use Rattle.hub_fifodir.specs.Passes.{IsTicketOf, HasSoundSight, MayRefuseTicket, table_of, table_of_waiter, ticket_view};
ghost use Rattle.hub_record.specs.World.{letters};
ghost use Rattle.hub_wait.specs.Reading.{Reads};
ghost use Rattle.hub_wait.specs.Watching.{watching_after_step};

mod undecided;

use crate::Watch;
use hub_fifodir::{Fifodir, Looked, Ticket, Waiter};
use hub_letters::{Letter, Want};
use hub_record::{Enter, Event, SubError, Taken};
use std::alloc::Global;
use std::sync::{Arc, Wait};
pub(crate) use undecided::look;

/// How many events a take may give.
pub const SLICE: usize = 256;

/// How many takes one `catch_up` makes.
pub const SLICES: u64 = 16;

/// A subscription to a service's events, and what is known of the service by it. A post that was dropped would keep its
/// subscription, and with the policy Hold the events that are pending for it would fill the fifodir. So a post isn't `Drop`, and only `end`
/// takes it.
pub struct Post {
    fifodir: Arc<Fifodir, Global>,
    ticket: Ticket,
    watch: Watch,
    waiter: Waiter,
    /// The last look.
    looked: Looked,
    ghost of: { IsTicketOf (arc_value fifodir) ticket },
    ghost waits: { table_of_waiter waiter ≡ table_of (arc_value fifodir) },
    ghost sound: { ∥ HasSoundSight (ticket_view ticket) ∥₁ },
    ghost reads: { Reads ticket watch },
}

impl Post {
    ghost use Rattle.hub_letters.specs.declared.span.Span.{Span};
    ghost use Rattle.hub_wait.specs.declared.post.Post.{Post};
    ghost use Rattle.hub_wait.specs.declared.tally.Verdict.{Verdict};
    ghost use Rattle.hub_wait.specs.Verdicts.{verdict};
    ghost use Rattle.hub_wait.specs.Waits.{HadStates, watches_of};
    ghost use Rattle.hub_wait.specs.Posts.{HasOpened, IsKept, HasCaughtUp, HasLooked, HasTakenSlice, watch_of, mark_of};

    /// Subscribes, and then reads the status by the new ticket: a change between the two is told by the status, and its
    /// letter is passed over when it is taken. The other way round it would be lost.
    pub fn open<R: Wait + Enter>(
        rt: &R,
        fifodir: Arc<Fifodir, Global>,
        want: Want,
        notifies: bool,
    ) -> Result<Post, SubError>
        ensures ok { IfOk result (λ post. HasOpened (arc_value fifodir) want notifies post) }
        ensures refused { IfErr result (MayRefuseTicket (arc_value fifodir)) }
    {
        let mut ticket = fifodir.subscribe(rt)?;
        let waiter = fifodir.admit();
        let (status, looked) = fifodir.look(&mut ticket, fifodir.hear(&waiter));
        let watch = Watch::new(want, notifies, status);
        Ok(Post {
            fifodir,
            ticket,
            watch,
            waiter,
            looked,
        })
    }

    /// What is known of the service.
    pub fn watch(&self) -> &Watch
        ensures { result.now ≡ watch_of self.now }
    {
        &self.watch
    }

    /// The number of events when it subscribed.
    pub fn mark(&self) -> u64
        ensures { result ≡ mark_of self.now }
    {
        self.ticket.mark()
    }

    /// Takes what came meanwhile: slices of [`SLICE`] events, until one isn't whole or [`SLICES`] were taken. Each slice is put
    /// into `room`, and what it held before doesn't matter. If nothing came, it only looks at the front word, and takes no
    /// lock. If the subscription is evicted, the watch goes on from the status: what it missed lies between two of its numbers,
    /// and a fall that it missed doesn't count.
    pub fn catch_up<R: Wait>(&mut self, rt: &R, room: &mut [Event; SLICE])
        ensures kept { IsKept self.old self.new }
        ensures caught_up { HasCaughtUp self.old self.new }
    {
        for _ in 0..SLICES {
            if !self.look() {
                return;
            }
            if !self.take_slice(rt, room) {
                return;
            }
        }
    }

    /// Looks at the front word, and tells whether an event is pending. If none is, and the fifodir is closed, the watch ends.
    fn look(&mut self) -> bool
        ensures kept { IsKept self.old self.new }
        ensures looked { HasLooked self.old result self.new }
    {
        let heard = self.fifodir.hear(&self.waiter);
        let (status, looked) = self.fifodir.look(&mut self.ticket, heard);
        self.looked = looked;
        if status.number != self.ticket.next() {
            return true;
        }
        if status.closed {
            self.watch.end();
        }
        false
    }

    /// Takes a slice of events, and tells whether it was whole.
    fn take_slice<R: Wait>(&mut self, rt: &R, room: &mut [Event; SLICE]) -> bool
        ensures kept { IsKept self.old self.new }
        ensures took { HasTakenSlice self.old result self.new }
    {
        let first = self.ticket.next();
        match self.fifodir.take_into(rt, &mut self.ticket, room) {
            Taken::Got(count) => {
                step_by_events(&mut self.watch, first, &room[..count]);
                count == SLICE
            }
            Taken::Nothing => false,
            Taken::End => {
                self.watch.end();
                false
            }
            Taken::Evicted => {
                self.watch.renew(self.fifodir.status(&mut self.ticket));
                false
            }
        }
    }

    /// Ends the subscription.
    pub fn end<R: Wait>(self, rt: &R) {
        let Post {
            fifodir,
            ticket,
            watch: _,
            waiter,
            looked: _,
        } = self;
        fifodir.dismiss(waiter);
        fifodir.cancel(rt, ticket);
    }

    /// A law: a wait's yes names a state that its fifodir had after the post subscribed. For all, each post does so, and
    /// for any, one.
    pub fn names_a_state()
        ensures { (span : Span) (posts : List Post)
            → verdict span (watches_of posts) ≡ Some Verdict.Yes
            → HadStates span posts }
    {}
}

/// Steps a watch by the letters of events.
fn step_by_events(watch: &mut Watch, first: u64, events: &[Event])
    requires fits { length events.now ≤ SLICE }
    requires overlaps { first ≤ watch.old.at }
    requires small { first + length events.now ≤ MOST_EVENTS }
    ensures { watch.new ≡ watching_after_step watch.old first (letters events.now) }
{
    let mut letters = [Letter::LEAST; SLICE];
    let letters = &mut letters[..events.len()];
    copy_letters(events, letters);
    watch.step(first, letters);
}

fn copy_letters(events: &[Event], out: &mut [Letter])
    requires { length out.old ≡ length events.now }
    ensures { out.new ≡ letters events.now }
{
    for i in 0..events.len() {
        out[i] = events[i].letter;
    }
}
