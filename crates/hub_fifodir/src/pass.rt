//! What publishers and tickets share.
ghost use Rattle.std.specs.Prelude.{◌≡◌, IfSome};
ghost use Rattle.hub_fifodir.specs.Notes.{IsSized, IsNote, note_sight};
ghost use Rattle.hub_fifodir.specs.Passes.{HasSoundSight, OnlyLooks};
ghost use Rattle.hub_fifodir.specs.Steps.{Front, Grows};

use crate::publisher::Publisher;
use crate::rule::{Board, TableSeat};
use crate::steps;
use crate::ticket::Ticket;

/// A publisher or a ticket. Other crates can't implement it, since it asks for a trait that they can't name.
pub trait Pass: Seated {}

impl Pass for Publisher {}

impl Pass for Ticket {}

/// What has a seat at a fifodir's table, and makes its steps there.
pub trait Seated {
    ghost use Rattle.hub_fifodir.specs.Passes.{PassView};

    // What a contract sees of it.
    ghost view: { Self → PassView };

    /// Joins a note if there is one, and looks at the front word. Returns that word.
    fn look(&mut self, board: &Board, note: Option<TableSeat>) -> u64
        requires board { ((view self.old).table ≡ board.now.table_id)
            × IsSized board.now.table_id }
        requires note { IfSome note (λ n. IsNote (view self.old).table (note_sight n) n) }
        ensures looks { OnlyLooks (view self.old) (view self.new) }
        ensures sound { HasSoundSight (view self.new) }
        ensures seen { Grows (view self.old).sight (view self.new).sight }
        ensures noted { IfSome note (λ n. Grows (note_sight n) (view self.new).sight) }
        ensures word { Front result (view self.new).sight };

    /// Splits off a note of what it has seen, for another pass to join.
    fn note(&mut self, board: &Board) -> TableSeat
        requires { ((view self.old).table ≡ board.now.table_id) × IsSized board.now.table_id }
        ensures still { view self.new ≡ view self.old }
        ensures note { IsNote (view self.old).table (view self.old).sight result };
}

impl Seated for Publisher {
    ghost use Rattle.hub_fifodir.specs.Passes.{publisher_view};

    ghost view = { publisher_view };

    fn look(&mut self, board: &Board, note: Option<TableSeat>) -> u64 {
        steps::look(board, &mut self.seat, note)
    }

    fn note(&mut self, board: &Board) -> TableSeat {
        steps::note(board, &mut self.seat)
    }
}

impl Seated for Ticket {
    ghost use Rattle.hub_fifodir.specs.Passes.{ticket_view};

    ghost view = { ticket_view };

    fn look(&mut self, board: &Board, note: Option<TableSeat>) -> u64 {
        steps::look(board, &mut self.seat, note)
    }

    fn note(&mut self, board: &Board) -> TableSeat {
        steps::note(board, &mut self.seat)
    }
}
