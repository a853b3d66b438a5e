//! What every desk allows: the limits of a fifodir that a client asks for, and how many handles a session may have.
ghost use Rattle.std.specs.Prelude.{◌≡◌, Some};
ghost use Rattle.hub_record.specs.LimitsOf.{limits_of};
ghost use Rattle.hub_requests.specs.Ranges.{AreLimits};
ghost use Rattle.hub_requests.specs.Room.{policy_of, refusal_of_handle};

use crate::bounds::{MOST_HANDLES, MOST_NUMBERS};
use crate::reply::Refusal;
use hub_record::{Limits, MOST_IDS, Policy};

/// The limits of a fifodir that a client asks for.
pub fn limits(waiting: u64, total: u64, evict: bool) -> Limits
    requires { AreLimits waiting total }
    ensures { limits_of waiting total MOST_IDS (policy_of evict) ≡ Some result }
{
    let policy = if evict { Policy::Evict } else { Policy::Hold };
    Limits::new(waiting, total, MOST_IDS).with(policy)
}

/// Why a session gets no further handle. None if it can get one.
pub fn refusal_of_handle(current: usize, given: u64) -> Option<Refusal>
    ensures { result ≡ refusal_of_handle current given }
{
    if current >= MOST_HANDLES {
        return Some(Refusal::Many);
    }
    if given >= MOST_NUMBERS {
        return Some(Refusal::Spent);
    }
    None
}
