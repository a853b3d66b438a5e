//! The steps of a call, each on one seat.
ghost use Rattle.std.specs.Prelude.{◌≡◌, ◌∷◌, [], None, IfSome};
ghost use Rattle.hub_fifodir.specs.Rule.{visitor};
ghost use Rattle.hub_fifodir.specs.declared.views.Role.TheVariants.{Visitor};
ghost use Rattle.hub_fifodir.specs.Steps.{IsIdle, Holding, Gives, Front, WritesMessage, WritesMark, Looks, Grows};
ghost use Rattle.hub_fifodir.specs.Steps.{view_with_letters, closing, writing_of, taking_of, view_at_rest};
ghost use Rattle.hub_fifodir.specs.Steps.{writer, new_taker, taker_after, as_gone};
ghost use Rattle.hub_fifodir.specs.Notes.{IsSized, IsNote, KeepsPlace, note_sight};

use crate::fifodir::Fifodir;
use crate::locked::Locked;
use crate::rule::{Board, FirstLook, Lock, Look, Notes, TableSeat, Unlock, ViewAfter, Write};
use hub_letters::Letter;
use hub_record::Enter;
use std::hint;
use std::marker::Brand;
use std::sync::Wait;
use std::sync::atomic::{AtomicU64, Ordering};

// How often a thread looks at a lock that is taken before it sleeps.
const LOOKS: u32 = 64;

/// The seat of a pass, with which it makes its steps. It can't be dropped, since the fifodir would keep what it has: a
/// cursor, or a place among the publishers. Only two calls take it, `rest_refused` of a visitor, which has neither, and
/// `rest_gone`, after which it has neither.
pub type Seat = Undropped<TableSeat>;

/// A value that can't be dropped.
pub struct Undropped<T> {
    at: T,
}

// This type has no `Drop`, so the compiler finds each path that doesn't release the lock.
struct LockGuard<'a> {
    sleepers: &'a AtomicU64,
}

/// The value behind the lock, while a seat has it. It can't be dropped: `rest`, or one of its variants, takes it and
/// releases the lock.
pub(crate) struct Held<'a> {
    pub(crate) locked: Locked,
    guard: LockGuard<'a>,
}

impl Fifodir {
    ghost use Rattle.hub_fifodir.specs.Passes.{table_of};

    // Takes the lock, and the value behind it.
    //
    // A thread that has to wait is counted among the sleepers meanwhile, so that a release wakes a thread only if one
    // may be asleep. No sleeper is passed over. The count and the lock are stored and read in one order for all threads:
    // here the count goes up before the park reads the lock, and a release stores 0 in the lock before it reads the
    // count. So if a release reads a count without this thread, this thread's park finds 0 in the turn, and doesn't sleep.
    pub(crate) fn lock<R: Wait>(&self, rt: &R, seat: &mut Seat) -> Held<'_>
        requires table { seat.old.at.table_id ≡ table_of self.now }
        requires idle { IsIdle seat.old.at.me }
        ensures table { KeepsPlace seat.old.at seat.new.at }
        ensures holding { Holding seat.old.at.me result.locked seat.new.at.me }
    {
        let board = self.board();
        let sleepers = self.sleepers();
        for _ in rt.forever() {
            let found = board.swap::<Lock>(&mut seat.at, 1, 1);
            if found == 0 {
                let locked = board.exchange(&mut seat.at, 0, None).unwrap();
                return Held {
                    locked,
                    guard: LockGuard { sleepers },
                };
            }
            if !is_free_soon(board) {
                sleepers.fetch_add(1, Ordering::SeqCst);
                board.park(rt, 1, 1);
                sleepers.fetch_sub(1, Ordering::SeqCst);
            }
        }
        unreachable!()
    }
}

// Looks at the lock some times, and tells whether it was free. A holder keeps it for less time than a sleep takes.
fn is_free_soon(board: &Board) -> bool
    requires { IsSized board.now.table_id }
{
    for _ in 0..LOOKS {
        if board.peek(1) == 0 {
            return true;
        }
        hint::spin_loop();
    }
    false
}

// Puts the value back into the slot, and releases the lock. `N` is the view afterwards; `_taken`, the number of events
// taken, only helps to say it.
fn give_back<N: ViewAfter>(board: &Board, seat: &mut Seat, held: Held<'_>, _taken: u64)
    requires table { (seat.old.at.table_id ≡ board.now.table_id) × IsSized board.now.table_id }
    requires held { seat.old.at.me.1 ≡ (0, None) ∷ [] }
    requires gives { Gives seat.old.at.me held.locked N.view }
    ensures table { KeepsPlace seat.old.at seat.new.at }
    ensures view { seat.new.at.me ≡ (N.view, []) }
{
    let Held {
        locked,
        guard: LockGuard { sleepers },
    } = held;
    drop(board.exchange(&mut seat.at, 0, Some(locked)));
    board.store::<Unlock<N>>(&mut seat.at, 1, 0);
    if sleepers.load(Ordering::SeqCst) > 0 {
        board.wake_one(1);
    }
}

// Releases the lock; the seat keeps its role.
pub(crate) fn rest(board: &Board, seat: &mut Seat, held: Held<'_>)
    requires table { (seat.old.at.table_id ≡ board.now.table_id) × IsSized board.now.table_id }
    requires held { seat.old.at.me.1 ≡ (0, None) ∷ [] }
    requires gives { Gives seat.old.at.me held.locked (view_at_rest seat.old.at.me.0 seat.old.at.me.0.role) }
    ensures table { KeepsPlace seat.old.at seat.new.at }
    ensures view { seat.new.at.me ≡ (view_at_rest seat.old.at.me.0 seat.old.at.me.0.role, []) }
{
    give_back::<Brand>(board, seat, held, 0);
}

// Releases the lock; the seat becomes the publisher with the last number given.
pub(crate) fn rest_as_publisher(board: &Board, seat: &mut Seat, held: Held<'_>)
    requires table { (seat.old.at.table_id ≡ board.now.table_id) × IsSized board.now.table_id }
    requires held { seat.old.at.me.1 ≡ (0, None) ∷ [] }
    requires gives { Gives seat.old.at.me held.locked
        (view_at_rest seat.old.at.me.0 (writer held.locked.given [])) }
    ensures table { KeepsPlace seat.old.at seat.new.at }
    ensures view { seat.new.at.me
        ≡ (view_at_rest seat.old.at.me.0 (writer held.entry.locked.given []), []) }
{
    give_back::<Brand>(board, seat, held, 0);
}

// Releases the lock; the seat becomes the ticket with the last id given.
pub(crate) fn rest_as_ticket(board: &Board, seat: &mut Seat, held: Held<'_>)
    requires table { (seat.old.at.table_id ≡ board.now.table_id) × IsSized board.now.table_id }
    requires held { seat.old.at.me.1 ≡ (0, None) ∷ [] }
    requires gives { Gives seat.old.at.me held.locked
        (view_at_rest seat.old.at.me.0 (new_taker held.locked seat.old.at.me.0.sight.seen)) }
    ensures table { KeepsPlace seat.old.at seat.new.at }
    ensures view { seat.new.at.me ≡ (
      view_at_rest seat.old.at.me.0
          (new_taker held.entry.locked seat.old.at.me.0.sight.seen),
      [],
    ) }
{
    give_back::<Brand>(board, seat, held, 0);
}

// Releases the lock; the seat is a ticket that took `taken` events.
pub(crate) fn rest_moved(board: &Board, seat: &mut Seat, held: Held<'_>, taken: u64)
    requires table { (seat.old.at.table_id ≡ board.now.table_id) × IsSized board.now.table_id }
    requires held { seat.old.at.me.1 ≡ (0, None) ∷ [] }
    requires gives { Gives seat.old.at.me held.locked
        (view_at_rest seat.old.at.me.0 (taker_after seat.old.at.me.0.sight.seen
        (taking_of seat.old.at.me.0.role) taken)) }
    ensures table { KeepsPlace seat.old.at seat.new.at }
    ensures view { seat.new.at.me ≡ (
      view_at_rest seat.old.at.me.0
          (taker_after seat.old.at.me.0.sight.seen (taking_of seat.old.at.me.0.role) taken),
      [],
    ) }
{
    give_back::<Brand>(board, seat, held, taken);
}

// Releases the lock, and ends the seat of a ticket that is cancelled, or of a publisher that left.
pub(crate) fn rest_gone(board: &Board, mut seat: Seat, held: Held<'_>)
    requires table { (seat.at.table_id ≡ board.now.table_id) × IsSized board.now.table_id }
    requires held { seat.at.me.1 ≡ (0, None) ∷ [] }
    requires gives { Gives seat.at.me held.locked (view_at_rest seat.at.me.0 (as_gone seat.at.me.0.role)) }
{
    give_back::<Brand>(board, &mut seat, held, 0);
    let Undropped { at: _ } = seat;
}

// Releases the lock, and ends the seat of a visitor, which gets no pass: it was refused one, or asked for none.
pub(crate) fn rest_refused(board: &Board, mut seat: Seat, held: Held<'_>)
    requires table { (seat.at.table_id ≡ board.now.table_id) × IsSized board.now.table_id }
    requires held { seat.at.me.1 ≡ (0, None) ∷ [] }
    requires visitor { seat.at.me.0.role ≡ Visitor }
    requires gives { Gives seat.at.me held.locked (view_at_rest seat.at.me.0 seat.at.me.0.role) }
{
    give_back::<Brand>(board, &mut seat, held, 0);
    let Undropped { at: _ } = seat;
}

// Stores the front word after a message was added.
fn store_message<N: ViewAfter>(board: &Board, seat: &mut Seat, word: u64, _message: &[Letter])
    requires table { (seat.old.at.table_id ≡ board.now.table_id) × IsSized board.now.table_id }
    requires writes { WritesMessage seat.old.at.me word _message.now N.view }
    ensures table { KeepsPlace seat.old.at seat.new.at }
    ensures view { seat.new.at.me ≡ (N.view, seat.old.at.me.1) }
{
    board.store::<Write<N>>(&mut seat.at, 0, word);
}

// Stores the front word after the record was closed.
fn store_mark<N: ViewAfter>(board: &Board, seat: &mut Seat, word: u64)
    requires table { (seat.old.at.table_id ≡ board.now.table_id) × IsSized board.now.table_id }
    requires writes { WritesMark seat.old.at.me word N.view }
    ensures table { KeepsPlace seat.old.at seat.new.at }
    ensures view { seat.new.at.me ≡ (N.view, seat.old.at.me.1) }
{
    board.store::<Write<N>>(&mut seat.at, 0, word);
}

// Shows in the front word that a message was added. An empty message changes no word.
pub(crate) fn write_message(board: &Board, seat: &mut Seat, word: u64, message: &[Letter])
    requires table { (seat.old.at.table_id ≡ board.now.table_id) × IsSized board.now.table_id }
    requires writes { WritesMessage seat.old.at.me word message.now
        (view_with_letters seat.old.at.me.0 (writing_of seat.old.at.me.0.role) message.now) }
    ensures table { KeepsPlace seat.old.at seat.new.at }
    ensures view { seat.new.at.me ≡ (
      view_with_letters seat.old.at.me.0
          (writing_of seat.old.at.me.0.role) message.now,
      seat.old.at.me.1,
    ) }
{
    if message.is_empty() {
        return;
    }
    store_message::<Brand>(board, seat, word, message);
}

// Shows in the front word that the record was closed.
pub(crate) fn write_mark(board: &Board, seat: &mut Seat, word: u64)
    requires table { (seat.old.at.table_id ≡ board.now.table_id) × IsSized board.now.table_id }
    requires writes { WritesMark seat.old.at.me word
        (closing seat.old.at.me.0 (writing_of seat.old.at.me.0.role)) }
    ensures table { KeepsPlace seat.old.at seat.new.at }
    ensures view { seat.new.at.me ≡ (
      closing seat.old.at.me.0
          (writing_of seat.old.at.me.0.role),
      seat.old.at.me.1,
    ) }
{
    store_mark::<Brand>(board, seat, word);
}

// A seat of a new pass.
pub(crate) fn enter<R: Enter>(_rt: &R, board: &Board) -> Seat
    requires { IsSized board.now.table_id }
    ensures table { (result.at.table_id ≡ board.now.table_id) × (result.at.me.1 ≡ []) }
    ensures view { result.at.me.0 ≡ visitor board.now.key result.at.me.0.sight.seen
        result.at.me.0.sight.closed }
{
    Undropped {
        at: new_seat(board),
    }
}

// A new seat, which has seen the record so far.
pub(crate) fn new_seat(board: &Board) -> TableSeat
    requires { IsSized board.now.table_id }
    ensures table { (result.table_id ≡ board.now.table_id) × (result.me.1 ≡ []) }
    ensures view { result.me.0 ≡ visitor board.now.key result.me.0.sight.seen
        result.me.0.sight.closed }
{
    board.load_new_seat::<FirstLook>(0).1
}

// The seat joins a note if there is one, and loads the front word.
pub(crate) fn look(board: &Board, seat: &mut Seat, note: Option<TableSeat>) -> u64
    requires table { (seat.old.at.table_id ≡ board.now.table_id) × IsSized board.now.table_id }
    requires idle { IsIdle seat.old.at.me }
    requires note { IfSome note (λ n. IsNote seat.old.at.table_id (note_sight n) n) }
    ensures table { KeepsPlace seat.old.at seat.new.at }
    ensures seen { Looks seat.old.at.me seat.new.at.me × Front result seat.new.at.me.0.sight }
    ensures noted { IfSome note (λ n. Grows (note_sight n) seat.new.at.me.0.sight) }
{
    let Some(note) = note else {
        return board.load::<Look>(&mut seat.at, 0);
    };
    board.join_seat::<Notes>(&mut seat.at, note);
    board.load::<Look>(&mut seat.at, 0)
}

// Splits off a note of what the seat has seen.
pub(crate) fn note(board: &Board, seat: &mut Seat) -> TableSeat
    requires table { (seat.old.at.table_id ≡ board.now.table_id) × IsSized board.now.table_id }
    requires idle { IsIdle seat.old.at.me }
    ensures table { KeepsPlace seat.old.at seat.new.at × (seat.new.at.me ≡ seat.old.at.me) }
    ensures note { IsNote seat.old.at.table_id seat.old.at.me.0.sight result }
{
    board.split_seat::<Notes>(&mut seat.at)
}
