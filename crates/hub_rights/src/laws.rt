//! Laws of sessions that only look.
ghost use Rattle.hub_rights.specs.Limits.{MakesItsShare};
ghost use Rattle.hub_rights.specs.Looking.{LooksAlone};
ghost use Rattle.hub_rights.specs.Records.{LooksLeaveRecords};

use hub_local::LocalDesk;
use hub_requests::Desk;

/// A law: whatever a session asks an [`Onlooker`](crate::Onlooker) for, and over whatever desk, the desk below is asked no request that
/// changes something. It is asked to subscribe only right after it said that the fifodir evicts who is slow.
pub fn onlookers_only_look<D: Desk>()
    ensures { LooksAlone D.asks }
{}

/// A law: in the model of a desk, such requests leave each fifodir as it is but for its subscriptions. Messages that it would have accepted,
/// one after another, it accepts afterwards as well, unless one alone is longer than may be pending.
pub fn looks_leave_records()
    ensures { LooksLeaveRecords }
{
    LocalDesk::waits_use_ids();
}

/// A law: a session of a [`Limited`](crate::Limited) desk makes at most its share of fifodirs, whatever it asks for.
pub fn sessions_keep_their_share<D: Desk>()
    ensures { MakesItsShare D.asks }
{}
