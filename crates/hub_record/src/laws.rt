//! Laws of the model, which no clause of a single call says. They are about the definitions alone, and so they hold for
//! every record that represents a world.
ghost use Rattle.std.specs.Prelude.{◌≡◌, ◌≢◌, ◌<◌, ◌≤◌, ◌+◌, ◌++◌, ◌∷◌, ◌⊎◌, ◌↔◌, ℕ, List, [], Ok, Some, None, length, get_or, false};
ghost use Rattle.hub_record.specs.World.{World, IsWorld, Subscription, empty_world, active, last_publisher, take_reply};
ghost use Rattle.hub_record.specs.Kept.{Kept, Represents};
ghost use Rattle.hub_record.specs.Laws.{IsOut, StaysOut, SaysOut, HasMark};
ghost use Rattle.hub_record.specs.Runs.{IsRun, SaidTo, AllGatherSinceMark, after_call, by, ids_given, letters_accepted, letters_published, world_after};

use crate::{Call, Event, Kind, Limits, Said, Taken};

/// After every run each subscription, cancelled or not, has gathered the events between its mark and its cursor, each
/// event once and in order. The letters of a publisher are those of its accepted messages.
pub fn each_event_once_and_in_order()
    ensures since { (kind : Kind) (limits : Limits) (calls : List Call) (replies : List Said)
        → IsRun (empty_world kind limits) calls replies
        → AllGatherSinceMark (world_after (empty_world kind limits) calls replies) }
    ensures own { (kind : Kind) (limits : Limits) (calls : List Call) (replies : List Said) (p : ℕ)
        → IsRun (empty_world kind limits) calls replies
        → by p (world_after (empty_world kind limits) calls replies).events
        ≡ letters_published p calls
        replies }
{}

/// Unless memory runs out, a call has one reply in a world, and one world after it. So a run has one list of replies.
pub fn one_reply()
    ensures reply { (w : World) (call : Call) (one other : Said) → SaidTo w call one
        → SaidTo w call other → one ≡ other }
    ensures after { (w : World) (call : Call) (one other : Said) → SaidTo w call one
        → SaidTo w call other → after_call w call one ≡ after_call w call other }
    ensures run { (w : World) (calls : List Call) (one other : List Said) → IsRun w calls one
        → IsRun w calls other → one ≡ other }
{}

/// A record never keeps more events than may be pending, and keeps none if no subscription is active.
#[tactic(auto, using(crate::proofs::RepresentsWorlds::kept_bound, crate::proofs::RepresentsWorlds::kept_none))]
pub fn no_more_than_may_wait()
    ensures most { (r : Kept) (w : World) → Represents r w → length r.events ≤ w.limits.waiting }
    ensures none { (r : Kept) (w : World) → Represents r w → active w ≡ [] → r.events ≡ [] }
{}

/// Every run keeps the bounds of a world. There are at most `total` events, at most `waiting` are pending, at most `ids` ids
/// were given, the letters of a service are lawful, and no cursor is before its mark or past the end.
#[tactic(auto, using(crate::proofs::Bounds::call_keeps, crate::proofs::Bounds::runs_keep))]
pub fn runs_keep_the_bounds()
    ensures call { (w : World) (call : Call) (said : Said) → IsWorld w → SaidTo w call said
        → IsWorld (after_call w call said) }
    ensures run { (kind : Kind) (limits : Limits) (calls : List Call) (replies : List Said)
        → IsRun (empty_world kind limits) calls replies
        → IsWorld (world_after (empty_world kind limits) calls replies) }
{}

/// The ids that a run gives are 1, 2, 3, and so on, so that any two differ.
#[tactic(auto, using(crate::proofs::Ids::counted, crate::proofs::Ids::differ))]
pub fn ids_differ()
    ensures counted { (kind : Kind) (limits : Limits) (calls : List Call) (replies : List Said)
        (k d : ℕ) → IsRun (empty_world kind limits) calls replies
        → k < length (ids_given replies) → get_or (ids_given replies) k d ≡ k + 1 }
    ensures differ { (kind : Kind) (limits : Limits) (calls : List Call) (replies : List Said)
        (j k d : ℕ) → IsRun (empty_world kind limits) calls replies
        → j < k → k < length (ids_given replies)
        → get_or (ids_given replies) j d ≢ get_or (ids_given replies) k d }
{}

/// An empty message changes nothing, and an open record accepts it.
#[tactic(auto, using(crate::proofs::Bounds::nothing_changes, crate::proofs::Bounds::is_accepted))]
pub fn empty_message_changes_nothing()
    ensures still { (w : World) (who : ℕ) (said : Said)
        → after_call w (Call.Publish who []) said ≡ w }
    ensures accepted { (w : World) (who : ℕ) (said : Said) → IsWorld w → w.closed ≡ false
        → SaidTo w (Call.Publish who []) said → said ≡ Said.Published (Ok (length w.events)) }
{}

/// An evicted subscription stays evicted until it is cancelled, and gathers no more. Once a take answered `Evicted`, each later one
/// does, or is refused since the id was cancelled.
pub fn evicted_stays_evicted()
    ensures still { (w : World) (calls : List Call) (replies : List Said) (id : ℕ)
        (s : Subscription) → IsRun w calls replies → IsOut w id s
        → StaysOut (world_after w calls replies) id s }
    ensures says { (w : World) (calls : List Call) (replies : List Said) (id most later : ℕ)
        → IsRun w calls replies → take_reply w id most ≡ Ok Taken.Evicted
        → SaysOut (world_after w calls replies) id later }
{}

/// The mark of a subscription is the number of events at its subscribe, and stays so whatever comes after.
pub fn marks_stay()
    ensures end { (w : World) (id mark : ℕ)
        → SaidTo w Call.Subscribe (Said.Subscribed (Ok (id, mark))) → mark ≡ length w.events }
    ensures stays { (w : World) (id mark : ℕ) (calls : List Call) (replies : List Said)
        → SaidTo w Call.Subscribe (Said.Subscribed (Ok (id, mark)))
        → IsRun (after_call w Call.Subscribe (Said.Subscribed (Ok (id, mark)))) calls replies
        → HasMark (world_after
        (after_call w Call.Subscribe (Said.Subscribed (Ok (id, mark)))) calls replies) id mark }
{}

/// The last publisher is that of the event at the end, and there is none exactly if there is no event. Whoever is the last one after a
/// call was it before, or the call published letters of its.
pub fn who_published_last()
    ensures end { (before : List Event) (e : Event)
        → last_publisher (before ++ e ∷ []) ≡ Some e.who }
    ensures none { (events : List Event) → (last_publisher events ≡ None) ↔ (events ≡ []) }
    ensures call { (w : World) (call : Call) (said : Said) (p : ℕ)
        → last_publisher (after_call w call said).events ≡ Some p
        → (last_publisher w.events ≡ Some p) ⊎ (letters_accepted p call said ≢ []) }
{}
