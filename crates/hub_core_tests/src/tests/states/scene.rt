//! A fifodir with those who do something there, and the messages that they publish.
ghost use Rattle.std.specs.Arc.{arc_value};
ghost use Rattle.hub_fifodir.specs.Passes.{IsPublisherOf, IsTicketOf};

use super::table::Call;
use crate::tests::fixtures::word;
use crate::tests::passes::{Shared, next_id, publisher, ticket};
use crate::tests::posts::end_all;
use crate::tests::waits::open_post;
use hub_fifodir::together::{send_both, send_on};
use hub_fifodir::{Enter, Publisher, Ticket};
use hub_letters::{Letter, State, Want};
use hub_record::{Event, Kind};
use hub_wait::{Go, Pause, Post, SLICE, Span, receive, svlisten, svwait};
use std::alloc::Global;
use std::process::Abort;
use std::sync::{Arc, Wait};
use std::test::Fail;
use std::thread::Threads;

/// A pause that ends at once.
#[derive(Drop)]
struct AtOnce;

impl Pause for AtOnce {
    fn pause<R: Wait>(&mut self, _rt: &R) -> Go {
        Go::Again
    }
}

/// A fifodir, and those who made their passes before anything came.
pub(crate) struct Scene {
    pub(crate) fifodir: Shared,
    /// Another one, at which nobody is.
    there: Shared,
    one: Publisher,
    /// It publishes nothing.
    other: Publisher,
    pub(crate) reader: Ticket,
    posts: Vec<Post>,
    ghost one_of: { IsPublisherOf (arc_value fifodir) one },
    ghost other_of: { IsPublisherOf (arc_value fifodir) other },
    ghost reader_of: { IsTicketOf (arc_value fifodir) reader },
}

impl Scene {
    pub(crate) fn new<R: Abort + Wait + Enter>(
        rt: &R,
        alloc: Global,
        fifodir: Shared,
        there: Shared,
    ) -> Scene {
        let one = publisher(rt, &fifodir);
        let other = publisher(rt, &fifodir);
        let reader = ticket(rt, &fifodir);
        Scene {
            fifodir,
            there,
            one,
            other,
            reader,
            posts: Vec::new(alloc),
        }
    }

    /// So many posts more.
    pub(crate) fn post<R: Abort + Wait + Enter>(&mut self, rt: &R, count: u64) {
        for _ in 0..count {
            let shared = Arc::try_clone(&self.fifodir).expect(rt, "the fifodir");
            let post = open_post(rt, shared, Want::Up, true);
            if let Err(refused) = self.posts.push(post) {
                refused.value.end(rt);
            }
        }
    }

    pub(crate) fn send<R: Wait>(&mut self, rt: &R, letters: &[Letter]) {
        let _ = self.fifodir.publish(rt, &mut self.one, letters);
    }

    /// Tells where the service is. A plain fifodir isn't told.
    pub(crate) fn tell<R: Wait>(&mut self, rt: &R, state: State) {
        match self.fifodir.kind() {
            Kind::Service => {
                let _ = self.fifodir.tell(rt, &mut self.one, state);
            }
            Kind::Plain => {}
        }
    }

    /// Tells where the service is, if the last event is the first publisher's. A plain fifodir isn't told.
    pub(crate) fn tell_as_last<R: Wait>(&mut self, rt: &R, state: State) {
        match self.fifodir.kind() {
            Kind::Service => {
                let _ = self.fifodir.tell_as_last(rt, &mut self.one, state);
            }
            Kind::Plain => {}
        }
    }

    /// The same, by the publisher that published nothing.
    pub(crate) fn tell_as_another<R: Wait>(&mut self, rt: &R, state: State) {
        match self.fifodir.kind() {
            Kind::Service => {
                let _ = self.fifodir.tell_as_last(rt, &mut self.other, state);
            }
            Kind::Plain => {}
        }
    }

    pub(crate) fn take<R: Wait>(&mut self, rt: &R, out: &mut [Event]) {
        self.fifodir.take_into(rt, &mut self.reader, out);
    }

    /// Publishes this letter so often, and each time all take it.
    pub(crate) fn pass_on<R: Wait>(&mut self, rt: &R, letter: &[Letter], times: u64) {
        for _ in 0..times {
            self.send(rt, letter);
            self.take(rt, &mut [Event::FILLER; 2]);
            for post in self.posts.as_mut_slice() {
                post.catch_up(rt, &mut [Event::FILLER; SLICE]);
            }
        }
    }

    pub(crate) fn close<R: Wait>(&mut self, rt: &R) {
        let _ = self.fifodir.close(rt, &mut self.one);
    }

    /// Two more publishers publish these letters, each from a thread of its own, and leave.
    pub(crate) fn send_both<R: Abort + Threads + Wait + Enter + Sync>(
        &self,
        rt: &R,
        letters: &[Letter],
    ) {
        let fifodir = &self.fifodir;
        let (one, other) = (publisher(rt, fifodir), publisher(rt, fifodir));
        let ((one, _), (other, _)) = send_both(rt, fifodir, one, other, letters, letters);
        fifodir.leave(rt, one);
        fifodir.leave(rt, other);
    }

    /// Sends a letter that was published at the other fifodir on to this one.
    pub(crate) fn send_here<R: Abort + Wait + Enter>(&mut self, rt: &R, letter: &[Letter]) {
        let (mut sender, mut reader) = (publisher(rt, &self.there), ticket(rt, &self.there));
        let _ = self.there.publish(rt, &mut sender, letter);
        let _ = send_on(rt, &self.there, &mut reader, &self.fifodir, &mut self.one);
        self.there.leave(rt, sender);
        self.there.cancel(rt, reader);
    }

    /// Sends an event of this fifodir on to the other one.
    pub(crate) fn send_on<R: Abort + Wait + Enter>(&mut self, rt: &R) {
        let mut sender = publisher(rt, &self.there);
        let _ = send_on(
            rt,
            &self.fifodir,
            &mut self.reader,
            &self.there,
            &mut sender,
        );
        self.there.leave(rt, sender);
    }

    pub(crate) fn join<R: Abort + Wait + Enter>(&self, rt: &R) {
        let one = publisher(rt, &self.fifodir);
        self.fifodir.leave(rt, one);
    }

    pub(crate) fn subscribe<R: Wait + Enter>(&self, rt: &R) {
        let _ = next_id(rt, &self.fifodir);
    }

    /// A post is opened, if it may, and ends.
    pub(crate) fn open<R: Abort + Wait + Enter>(&self, rt: &R) {
        let shared = Arc::try_clone(&self.fifodir).expect(rt, "the fifodir");
        if let Ok(post) = Post::open(rt, shared, Want::Up, true) {
            post.end(rt);
        }
    }

    pub(crate) fn await_more<R: Wait>(&mut self, rt: &R) {
        self.fifodir
            .await_more(rt, &mut self.reader, 1, &mut AtOnce);
    }

    pub(crate) fn receive<R: Wait>(&mut self, rt: &R) {
        let mut out = [Event::FILLER; 4];
        receive(
            rt,
            &self.fifodir,
            &mut self.reader,
            &mut out,
            1,
            &mut AtOnce,
        );
    }

    pub(crate) fn meet<R: Wait>(&mut self, rt: &R) {
        self.fifodir.meet(rt, &mut self.one, &mut self.reader);
    }

    pub(crate) fn count<R: Wait + Enter>(&self, rt: &R) {
        let _ = self.fifodir.usage(rt);
    }

    pub(crate) fn look(&mut self, call: Call) {
        match call {
            Call::Status => {
                let _ = self.fifodir.status(&mut self.one);
                let _ = self.fifodir.status(&mut self.reader);
            }
            Call::Front => {
                let _ = self.fifodir.front(&mut self.one);
            }
            _ => {
                let _ = self.fifodir.has_more(&mut self.reader);
            }
        }
    }

    pub(crate) fn wait<R: Wait>(&mut self, rt: &R, call: Call) {
        let posts = self.posts.as_mut_slice();
        match call {
            Call::SvWait => {
                svwait(rt, posts, Span::All, 1, &mut AtOnce);
            }
            Call::SvListen => {
                svlisten(rt, posts, Span::All, 1, &mut AtOnce, |_posts| 7);
            }
            _ => {
                for post in posts {
                    post.catch_up(rt, &mut [Event::FILLER; SLICE]);
                }
            }
        }
    }

    pub(crate) fn end<R: Wait>(self, rt: &R) {
        let Scene {
            fifodir,
            there: _,
            one,
            other,
            reader,
            posts,
        } = self;
        fifodir.leave(rt, one);
        fifodir.leave(rt, other);
        fifodir.cancel(rt, reader);
        end_all(rt, posts);
    }
}

/// The messages that the calls publish.
#[derive(Drop)]
pub(crate) struct Words {
    pub(crate) start: Vec<Letter>,
    pub(crate) many: Vec<Letter>,
    pub(crate) too_many: Vec<Letter>,
    pub(crate) unlawful: Vec<Letter>,
    pub(crate) failed: Vec<Letter>,
}

impl Words {
    pub(crate) fn new(alloc: Global) -> Result<Words, Fail> {
        Ok(Words {
            start: word(alloc, "s")?,
            many: word(alloc, "ssssssss")?,
            too_many: word(alloc, "sssssssss")?,
            unlawful: word(alloc, "U")?,
            failed: word(alloc, "O")?,
        })
    }
}
