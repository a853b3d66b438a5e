//! Publishers, and the calls of a fifodir that take one.
ghost use Rattle.std.specs.Prelude.{◌≡◌, ◌≢◌, ◌<◌, [], true, IfOk, IfErr, IfNone, IfSome, OnErr, OnOk};
ghost use Rattle.hub_letters.specs.States.{is_at_end};
ghost use Rattle.hub_record.specs.World.{letters};
ghost use Rattle.hub_record.specs.declared.Kind.TheVariants.{Service};
ghost use Rattle.hub_fifodir.specs.Rule.{IsSound};
ghost use Rattle.hub_fifodir.specs.Notes.{KeepsPlace};
ghost use Rattle.hub_fifodir.specs.Steps.{IsWriter, HoldsAsWriter};

use crate::fifodir::Fifodir;
use crate::steps::{Held, Seat};
use crate::{PassError, steps, word};
use hub_letters::{Letter, State};
use hub_record::{Closed, Enter, PubError};
use std::sync::Wait;

/// The pass of a publisher. A publisher that was dropped would keep its place among those that a fifodir has room for.
/// So it is neither `Copy` nor `Drop`, and only `Fifodir::leave` takes it.
pub struct Publisher {
    number: u64,
    pub(crate) seat: Seat,
    pub ghost is_writer: { IsWriter seat.at.me number },
    pub ghost positive: { 0 < number },
}

impl Publisher {
    ghost use Rattle.hub_fifodir.specs.Passes.{publisher_number};

    /// The number that its events carry.
    pub fn number(&self) -> u64
        ensures { result ≡ publisher_number self.now }
    {
        self.number
    }
}

impl Fifodir {
    ghost use Rattle.hub_fifodir.specs.Passes.{IsPublisherOf, Remains, HasSoundSight, publisher_number, publisher_view};
    ghost use Rattle.hub_fifodir.specs.Passes.{table_of, kind_of, closed_mark, mine, seen_by, KnewOwnClose, HasPublished, IsRefusedAt};
    ghost use Rattle.hub_fifodir.specs.Passes.{HasAdded, word_told, word_to_tell, IsLast, WasLast, MayRefusePublisher};

    /// A new publisher, which has published nothing. A closed fifodir gives publishers too.
    pub fn publisher<R: Wait + Enter>(&self, rt: &R) -> Result<Publisher, PassError>
        ensures ok { IfOk result (λ p. IsPublisherOf self.now p
            × HasSoundSight (publisher_view p)
            × (mine p ≡ []) × (closed_mark p ≢ publisher_number p)) }
        ensures refused { IfErr result (MayRefusePublisher self.now) }
    {
        let board = self.board();
        let mut seat = steps::enter(rt, board);
        let mut held = self.lock(rt, &mut seat);
        match held.locked.publisher() {
            Ok(number) => {
                steps::rest_as_publisher(board, &mut seat, held);
                Ok(Publisher { number, seat })
            }
            Err(refusal) => {
                steps::rest_refused(board, seat, held);
                Err(refusal)
            }
        }
    }

    /// Adds the whole message, or nothing, and answers the number of its first event.
    pub fn publish<R: Wait>(
        &self,
        rt: &R,
        me: &mut Publisher,
        letters: &[Letter],
    ) -> Result<u64, PubError>
        requires { IsPublisherOf self.now me.old }
        ensures remains { Remains self.now (publisher_view me.old) (publisher_view me.new) }
        ensures own { KnewOwnClose me.old me.new }
        ensures ok { IfOk result (λ n. HasPublished me.old letters.now n me.new) }
        ensures err { OnErr result (mine me.new ≡ mine me.old) }
        ensures refused { IfErr result (λ e. IsRefusedAt me.new letters.now e) }
    {
        let held = self.lock(rt, &mut me.seat);
        self.add(me.number, &mut me.seat, held, letters)
    }

    /// Publishes the letters that bring the service to a state from where it is, as one message: none if it is there already.
    /// It finds out where the service is and publishes in one step under the lock, so nothing comes between.
    pub fn tell<R: Wait>(&self, rt: &R, me: &mut Publisher, state: State) -> Result<u64, PubError>
        requires of { IsPublisherOf self.now me.old }
        requires service { kind_of self.now ≡ Service }
        ensures remains { Remains self.now (publisher_view me.old) (publisher_view me.new) }
        ensures own { KnewOwnClose me.old me.new }
        ensures ok { IfOk result (λ n. HasPublished me.old (word_told state n me.new) n me.new) }
        ensures there { OnOk result (is_at_end state (letters (seen_by me.new)) ≡ true) }
        ensures err { OnErr result (mine me.new ≡ mine me.old) }
        ensures refused { IfErr result (λ e. IsRefusedAt me.new (word_to_tell state me.new) e) }
    {
        let held = self.lock(rt, &mut me.seat);
        let word = held.locked.word(state);
        self.add(me.number, &mut me.seat, held, word.letters())
    }

    /// Tells where the service is, as `tell` does, if its last event is this publisher's. None if another one published since, or
    /// if there is no event: whoever published last speaks for the service. It looks and publishes in one step under the lock. Those who
    /// sleep until the fifodir changes are woken at once, also by a late bell.
    pub fn tell_as_last<R: Wait>(
        &self,
        rt: &R,
        me: &mut Publisher,
        state: State,
    ) -> Option<Result<u64, PubError>>
        requires of { IsPublisherOf self.now me.old }
        requires service { kind_of self.now ≡ Service }
        ensures remains { Remains self.now (publisher_view me.old) (publisher_view me.new) }
        ensures own { KnewOwnClose me.old me.new }
        ensures last { IfSome result (λ told. IfOk told (λ n. WasLast n me.new)) }
        ensures ok { IfSome result (λ told. IfOk told (λ n. HasPublished me.old
            (word_told state n me.new) n me.new)) }
        ensures there { IfSome result (λ told. OnOk told (is_at_end state
            (letters (seen_by me.new)) ≡ true)) }
        ensures err { IfSome result (λ told. OnErr told (IsLast me.new
            × (mine me.new ≡ mine me.old))) }
        ensures refused { IfSome result (λ told. IfErr told (λ e. IsRefusedAt me.new
            (word_to_tell state me.new) e)) }
        ensures none { IfNone result ((IsLast me.new → ⊥) × (mine me.new ≡ mine me.old)) }
    {
        let held = self.lock(rt, &mut me.seat);
        if held.locked.last_publisher() != Some(me.number) {
            steps::rest(self.board(), &mut me.seat, held);
            return None;
        }
        let word = held.locked.word(state);
        let told = self.add(me.number, &mut me.seat, held, word.letters());
        self.bell().settle();
        Some(told)
    }

    // Adds a message of this publisher, whose seat has the lock, and releases the lock.
    fn add(
        &self,
        number: u64,
        seat: &mut Seat,
        mut held: Held<'_>,
        letters: &[Letter],
    ) -> Result<u64, PubError>
        requires table { seat.old.at.table_id ≡ table_of self.now }
        requires writer { HoldsAsWriter seat.old.at.me number held.locked }
        ensures table { KeepsPlace seat.old.at seat.new.at }
        ensures writer { IsWriter seat.new.at.me number }
        ensures sound { IsSound seat.new.at.me.0.rules seat.new.at.me.0.sight.seen }
        ensures added { HasAdded seat.old.at.me number letters.now result seat.new.at.me }
    {
        let board = self.board();
        match held.locked.publish(number, letters) {
            Ok(first) => {
                let word = word::pack(held.locked.status());
                let is_urgent = held.locked.is_half_full();
                steps::write_message(board, seat, word, letters);
                steps::rest(board, seat, held);
                self.ring(is_urgent);
                Ok(first)
            }
            Err(refusal) => {
                steps::rest(board, seat, held);
                Err(refusal)
            }
        }
    }

    /// Closes the fifodir for events and subscriptions.
    pub fn close<R: Wait>(&self, rt: &R, me: &mut Publisher) -> Result<(), Closed>
        requires { IsPublisherOf self.now me.old }
        ensures remains { Remains self.now (publisher_view me.old) (publisher_view me.new) }
        ensures mine { mine me.new ≡ mine me.old }
        ensures ok { OnOk result ((closed_mark me.old ≡ 0)
            × (closed_mark me.new ≡ publisher_number me.old)) }
        ensures err { OnErr result ((closed_mark me.new ≢ 0) × KnewOwnClose me.old me.new) }
    {
        let board = self.board();
        let mut held = self.lock(rt, &mut me.seat);
        match held.locked.close() {
            Ok(()) => {
                let word = word::pack(held.locked.status());
                steps::write_mark(board, &mut me.seat, word);
                steps::rest(board, &mut me.seat, held);
                self.ring(true);
                Ok(())
            }
            Err(refusal) => {
                steps::rest(board, &mut me.seat, held);
                Err(refusal)
            }
        }
    }

    /// Takes the publisher back, so that there is room for another.
    pub fn leave<R: Wait>(&self, rt: &R, me: Publisher)
        requires { IsPublisherOf self.now me }
    {
        let Publisher { number, mut seat } = me;
        let board = self.board();
        let mut held = self.lock(rt, &mut seat);
        held.locked.leave(number);
        steps::rest_gone(board, seat, held);
    }
}
