//! A fifodir with several passes, and calls with what each answers.
use crate::tests::fixtures::{are_events, word};
use crate::tests::passes::{Reader, Sender, Shared, end_all, keep, open_with};
use hub_fifodir::{Enter, PassError};
use hub_letters::State;
use hub_record::{Closed, Event, Kind, Policy, PubError, SubError, Taken};
use std::alloc::{AllocError, Global};
use std::io;
use std::sync::{Arc, Wait};
use std::test::Fail;

/// A call and what it answers. A message is spelled by letters. The publisher is the last that was given and hasn't
/// left, and a ticket is named by its place among those that are not cancelled.
#[derive(Clone, Copy)]
pub(crate) enum Step {
    Subscribe(Result<(u64, u64), SubError>),
    Join(Result<u64, PassError>),
    /// Tickets and publishers that get the numbers from 1 to this one.
    HoldUpTo(u64),
    Publish(&'static str, Result<u64, PubError>),
    /// What a tell by whoever published last answers, and the letters that it then has published.
    TellAsLast(State, Option<Result<u64, PubError>>, &'static str),
    Close(Result<(), Closed>),
    Leave,
    Take(usize, Taken, [(u64, u8); 3]),
    Cancel(usize),
    /// The number, the flags' code and whether it is closed, by the ticket's status.
    Shows(usize, (u64, u64, bool)),
    /// The ticket's id, mark and next.
    Ticket(usize, (u64, u64, u64)),
    /// The number of events, by the publisher.
    Front(u64),
}

/// A fifodir of this kind, with these limits, answers these calls so.
pub(crate) struct Row {
    pub(crate) name: &'static str,
    pub(crate) kind: Kind,
    pub(crate) limits: (u64, u64, u64),
    pub(crate) steps: &'static [Step],
}

/// A fifodir with the passes that were given.
pub(crate) struct Scene {
    fifodir: Shared,
    senders: Vec<Sender>,
    readers: Vec<Reader>,
    /// How many letters were to be published so far.
    events: u64,
    /// Whether it was to be closed.
    closed: bool,
}

impl Scene {
    /// A scene of a fifodir that has given no pass.
    pub(crate) fn new(alloc: Global, fifodir: Shared) -> Scene {
        Scene {
            fifodir,
            senders: Vec::new(alloc),
            readers: Vec::new(alloc),
            events: 0,
            closed: false,
        }
    }

    pub(crate) fn subscribe<R: Wait + Enter>(
        &mut self,
        rt: &R,
    ) -> Result<Result<(u64, u64), SubError>, AllocError> {
        match Reader::of(rt, Arc::try_clone(&self.fifodir)?) {
            Ok(reader) => {
                let given = (reader.me.id(), reader.me.mark());
                keep(rt, &mut self.readers, reader)?;
                Ok(Ok(given))
            }
            Err(refusal) => Ok(Err(refusal)),
        }
    }

    pub(crate) fn join<R: Wait + Enter>(
        &mut self,
        rt: &R,
    ) -> Result<Result<u64, PassError>, AllocError> {
        match Sender::of(rt, Arc::try_clone(&self.fifodir)?) {
            Ok(sender) => {
                let number = sender.me.number();
                keep(rt, &mut self.senders, sender)?;
                Ok(Ok(number))
            }
            Err(refusal) => Ok(Err(refusal)),
        }
    }

    /// Whether a ticket and a publisher are given this number.
    fn holds<R: Wait + Enter>(&mut self, rt: &R, number: u64) -> Result<bool, AllocError> {
        Ok(self.subscribe(rt)? == Ok((number, 0)) && self.join(rt)? == Ok(number))
    }

    fn holds_up_to<R: Wait + Enter>(&mut self, rt: &R, last: u64) -> Result<bool, AllocError> {
        for before in 0..last {
            if !self.holds(rt, before + 1)? {
                return Ok(false);
            }
        }
        Ok(true)
    }

    fn takes<R: Wait>(
        &mut self,
        rt: &R,
        place: usize,
        answer: Taken,
        events: [(u64, u8); 3],
    ) -> bool {
        let mut out = [Event::FILLER; 3];
        match self.readers.get_mut(place) {
            Some(reader) => reader.take(rt, &mut out) == answer && are_events(&out, &events),
            None => false,
        }
    }

    fn cancels<R: Wait>(&mut self, rt: &R, place: usize) -> bool {
        if place < self.readers.len() {
            self.readers.remove(place).cancel(rt);
            return true;
        }
        false
    }

    fn shows(&mut self, place: usize, wanted: (u64, u64, bool)) -> bool {
        match self.readers.get_mut(place) {
            Some(reader) => status_by(reader) == wanted,
            None => false,
        }
    }

    fn is_ticket(&self, place: usize, wanted: (u64, u64, u64)) -> bool {
        match self.readers.get(place) {
            Some(reader) => (reader.me.id(), reader.me.mark(), reader.me.next()) == wanted,
            None => false,
        }
    }

    fn goes_through<R: Wait + Enter>(
        &mut self,
        rt: &R,
        alloc: Global,
        steps: &[Step],
    ) -> io::Result<bool> {
        for step in steps {
            if !self.goes(rt, alloc, *step)? || !self.front_is_after(*step) {
                return Ok(false);
            }
        }
        Ok(true)
    }

    /// Whether the first publisher sees the letters that the steps were to publish, and no more, and the close.
    fn front_is_after(&mut self, step: Step) -> bool {
        match step {
            Step::Publish(text, Ok(_)) | Step::TellAsLast(_, _, text) => {
                self.events = self.events.wrapping_add(text.len() as u64);
            }
            Step::Close(Ok(())) => self.closed = true,
            _ => {}
        }
        match self.senders.first_mut() {
            Some(sender) => {
                let status = sender.status();
                (status.number, status.closed) == (self.events, self.closed)
            }
            None => true,
        }
    }

    /// Whether the step goes so.
    fn goes<R: Wait + Enter>(&mut self, rt: &R, alloc: Global, step: Step) -> io::Result<bool> {
        Ok(match step {
            Step::Subscribe(answer) => self.subscribe(rt)? == answer,
            Step::Join(answer) => self.join(rt)? == answer,
            Step::HoldUpTo(last) => self.holds_up_to(rt, last)?,
            Step::Leave => self.leaves(rt),
            Step::Take(place, answer, events) => self.takes(rt, place, answer, events),
            Step::Cancel(place) => self.cancels(rt, place),
            Step::Shows(place, wanted) => self.shows(place, wanted),
            Step::Ticket(place, wanted) => self.is_ticket(place, wanted),
            Step::Publish(_, _) | Step::TellAsLast(_, _, _) | Step::Close(_) | Step::Front(_) => {
                self.publisher_goes(rt, alloc, step)?
            }
        })
    }

    fn publisher_goes<R: Wait>(&mut self, rt: &R, alloc: Global, step: Step) -> io::Result<bool> {
        let Some(sender) = self.senders.last_mut() else {
            return Ok(false);
        };
        Ok(match step {
            Step::Publish(text, answer) => sender.send(rt, &word(alloc, text)?) == answer,
            Step::TellAsLast(state, answer, _) => sender.tell_as_last(rt, state) == answer,
            Step::Close(answer) => sender.close(rt) == answer,
            Step::Front(number) => sender.front() == number,
            _ => false,
        })
    }

    fn leaves<R: Wait>(&mut self, rt: &R) -> bool {
        match self.senders.pop() {
            Some(sender) => {
                sender.leave(rt);
                true
            }
            None => false,
        }
    }

    pub(crate) fn end<R: Wait>(self, rt: &R) {
        let Scene {
            fifodir: _,
            senders,
            readers,
            events: _,
            closed: _,
        } = self;
        end_all(rt, senders);
        end_all(rt, readers);
    }
}

/// The number, the flags' code and whether it is closed.
pub(crate) fn status_by(reader: &mut Reader) -> (u64, u64, bool) {
    let status = reader.status();
    (status.number, status.flags.code(), status.closed)
}

/// Whether a fifodir with this policy answers as the row says.
pub(crate) fn goes_so<R: Wait + Enter>(
    rt: &R,
    alloc: Global,
    row: &Row,
    policy: Policy,
) -> Result<bool, Fail> {
    let fifodir = open_with(alloc, row.kind, row.limits, policy)?;
    let mut scene = Scene::new(alloc, fifodir);
    let is_so = scene.goes_through(rt, alloc, row.steps);
    scene.end(rt);
    Ok(is_so?)
}
