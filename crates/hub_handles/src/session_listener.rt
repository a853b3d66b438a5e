//! A session's listeners.
ghost use Rattle.std.specs.Prelude.{◌≡◌, ◌≤◌, ◌<◌, [], Ok, length, vec_len, vec_capacity, IfOk, IfErr, IfNone, IfSome, MatchBool};
ghost use Rattle.hub_listen.specs.declared.feed.Feed.TheVariants.{Quiet};
ghost use Rattle.hub_letters.specs.declared.mode.Mode.TheVariants.{Repeat};

mod nexts;

use crate::subscription::Subscription;
use hub_fifodir::Pause;
use hub_letters::{Letter, MOST_GATHERED};
use hub_listen::{Feed, FeedError, Listener, Mode};
use hub_requests::{Excerpt, Refusal, Reply};
use std::alloc::Global;
use std::sync::Wait;

/// A listener that hears a subscription. It hears in mode `Repeat` whatever its own mode is: after the one hit of mode
/// `Once` the session ends it. It isn't `Drop`, and only `cancel` takes it.
pub struct SessionListener {
    subscription: Subscription,
    listener: Listener,
    mode: Mode,
    /// The letter that was taken when a search found no memory. It is heard first.
    held: Option<Letter>,
    ghost repeats: { listener.mode ≡ Repeat },
}

impl SessionListener {
    ghost use Rattle.hub_handles.specs.Awaiting.{HasMoreToHear, HasNoneToHear, HasOnlyLooked};
    ghost use Rattle.hub_handles.specs.Hearings.{BeginsHearing, Gives, HasMore, Hears, HearsOne, Polls, Stops, ends_by, mode_of};

    /// A listener that has heard nothing, over a subscription that begins now.
    pub fn new(subscription: Subscription, listener: Listener, mode: Mode) -> SessionListener
        requires { listener.mode ≡ Repeat }
        ensures { BeginsHearing subscription listener mode result }
    {
        SessionListener {
            subscription,
            listener,
            mode,
            held: None,
        }
    }

    /// Whether this was the last reply that it has.
    pub fn ends_with(&self, reply: &Reply) -> bool
        ensures { result ≡ ends_by (mode_of self.now) reply.now }
    {
        match reply {
            Reply::Hit(_) => self.mode == Mode::Once,
            _ => false,
        }
    }

    /// Hears letter after letter, up to the next hit or as far as it gathers.
    pub fn poll<H: Wait>(&mut self, rt: &H, alloc: Global) -> Reply
        ensures { Polls self.old result self.new }
    {
        if self.listener.text().len() >= MOST_GATHERED {
            return Reply::No(Refusal::Overlong);
        }
        if let Some(reply) = self.look() {
            return reply;
        }
        let Ok(room) = Vec::with_capacity(alloc, MOST_GATHERED) else {
            return Reply::No(Refusal::Memory);
        };
        for _ in self.listener.text().len()..MOST_GATHERED {
            match self.hear(rt) {
                Ok(false) => {}
                Ok(true) => return Reply::Hit(excerpt_of(self.listener.hit(), room)),
                Err(reply) => return reply,
            }
        }
        Reply::Nothing
    }

    /// What a poll is answered if no letter is held and none waits. None if there is a letter to hear.
    fn look(&mut self) -> Option<Reply>
        requires { length self.old.listener.gathered < MOST_GATHERED }
        ensures quiet { Hears self.old [] (Ok Quiet) self.new }
        ensures stopped { IfSome result (λ reply. Stops reply self.new) }
        ensures more { IfNone result (HasMore self.new) }
    {
        if self.held.is_some() {
            return None;
        }
        self.subscription.look()
    }

    /// Waits until the next poll has something to do, for at most so many turns. Tells whether it has.
    pub fn await_more<H: Wait, P: Pause>(&mut self, rt: &H, turns: u64, pause: &mut P) -> bool
        ensures looked { HasOnlyLooked self.old self.new }
        ensures more { MatchBool result (HasMoreToHear self.new) (HasNoneToHear self.new) }
    {
        self.held.is_some() || self.subscription.await_more(rt, turns, pause)
    }

    /// Hears one letter more, and tells whether it completes a hit; or what to answer where none can be heard.
    fn hear<H: Wait>(&mut self, rt: &H) -> Result<bool, Reply>
        requires { length self.old.listener.gathered < MOST_GATHERED }
        ensures heard { IfOk result (λ hit. HearsOne self.old hit self.new) }
        ensures stopped { IfErr result (λ reply. Hears self.old [] (Ok Quiet) self.new
            × Stops reply self.new) }
    {
        let letter = self.next_letter(rt)?;
        match self.listener.feed(&[letter]) {
            Ok(Feed::Quiet) => Ok(false),
            Ok(Feed::Hit(_)) => Ok(true),
            Err(FeedError::Memory) => {
                self.held = Some(letter);
                Err(Reply::No(Refusal::Memory))
            }
            Ok(Feed::Spent) | Err(FeedError::Overlong) => unreachable!(),
        }
    }

    /// The letter that is held, or the next one; or what to answer where there is none.
    fn next_letter<H: Wait>(&mut self, rt: &H) -> Result<Letter, Reply>
        ensures gives { Gives self.old result self.new }
        ensures listener { self.new.listener ≡ self.old.listener }
    {
        match self.held.take() {
            Some(letter) => Ok(letter),
            None => self.subscription.take_letter(rt),
        }
    }

    /// Ends the subscription.
    pub fn cancel<H: Wait>(self, rt: &H) {
        let SessionListener {
            subscription,
            listener: _,
            mode: _,
            held: _,
        } = self;
        subscription.cancel(rt);
    }
}

/// The letters again, in a list that has room for them.
fn excerpt_of(letters: &[Letter], mut room: Vec<Letter>) -> Excerpt
    requires few { length letters.now ≤ MOST_GATHERED }
    requires empty { vec_len room ≡ 0 }
    requires fits { length letters.now ≤ vec_capacity room }
    ensures { result ≡ letters.now }
{
    room.extend_from_slice(letters).unwrap();
    Excerpt::of(room)
}
