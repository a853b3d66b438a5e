//! The rule of the table, and the names of its steps. Word 0 is the front word and word 1 the lock. The one slot has
//! the locked value.
use crate::locked::Locked;
use crate::views::{Rules, View};
use atomic_table::{Join, Play, Shared, Split, TableRule};
use std::marker::{Brand, PhantomData};

/// The rule: there is one history, and each seat has seen a prefix of it.
pub struct OneHistory;

impl TableRule<Option<Locked>, View, Rules> for OneHistory {
    ghost use Rattle.std.specs.Prelude.{[]};
    ghost use Rattle.hub_fifodir.specs.Rule.{RuleHolds, visitor};

    ghost holds = { RuleHolds };

    ghost first = { λ rules. visitor rules [] 0 };
}

/// The table on which the calls make their steps.
pub type Board = Shared<Option<Locked>, View, Rules, OneHistory>;

/// A seat of the table as the table gives it: that of a note, or what is in the [`Seat`](crate::steps::Seat) of a pass.
pub type TableSeat = atomic_table::Seat<Option<Locked>, View>;

/// The first load of the front word, by a new seat.
pub struct FirstLook;

impl Play<Option<Locked>, View> for FirstLook {
    ghost use Rattle.hub_fifodir.specs.Steps.{enter_step};

    ghost then = { enter_step };
}

/// A load of the front word.
pub struct Look;

impl Play<Option<Locked>, View> for Look {
    ghost use Rattle.hub_fifodir.specs.Steps.{look_step};

    ghost then = { look_step };
}

/// The swap of 1 into the lock's word, which takes the lock if the word was 0.
pub struct Lock;

impl Play<Option<Locked>, View> for Lock {
    ghost use Rattle.hub_fifodir.specs.Steps.{lock_step};

    ghost then = { lock_step };
}

/// The view that a store leaves in its seat. Each call chooses it.
pub trait ViewAfter {
    ghost use Rattle.hub_fifodir.specs.declared.views.View.{View};

    ghost view: { View };
}

impl ViewAfter for Brand {
    ghost use Rattle.hub_fifodir.specs.Rule.{spent_view};

    ghost view = { spent_view };
}

/// A store to the front word.
pub struct Write<N> {
    next: PhantomData<N>,
}

impl<N: ViewAfter> Play<Option<Locked>, View> for Write<N> {
    ghost use Rattle.std.specs.Prelude.{◌≡◌};

    ghost then = { λ st m n r. (r.0 ≡ N.view) × (r.1 ≡ m.1) };
}

/// The store of 0 into the lock's word, which releases the lock.
pub struct Unlock<N> {
    next: PhantomData<N>,
}

impl<N: ViewAfter> Play<Option<Locked>, View> for Unlock<N> {
    ghost use Rattle.std.specs.Prelude.{◌≡◌, []};

    ghost then = { λ st m n r. (r.0 ≡ N.view) × (r.1 ≡ []) };
}

/// A note of what a seat has seen: one seat splits it off, and another joins it.
pub struct Notes;

impl Split<View> for Notes {
    ghost use Rattle.hub_fifodir.specs.Steps.{note_of};

    ghost left = { λ v. v };

    ghost right = { note_of };
}

impl Join<View> for Notes {
    ghost use Rattle.hub_fifodir.specs.Steps.{with_note};
    ghost use Rattle.hub_fifodir.specs.Rule.{spent_view};

    ghost both = { with_note };

    ghost spent = { spent_view };
}
