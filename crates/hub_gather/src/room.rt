//! Which requests may sleep.
ghost use Rattle.std.specs.Prelude.{◌↔◌, IsTrue};
ghost use Rattle.hub_gather.specs.Steps.{MaySleep};

use hub_requests::{Refusal, Request};

/// Whether a line spells a request that may sleep until something happens: `wait`, `await` or `next`.
pub fn may_sleep(line: &Result<Request, Refusal>) -> bool
    ensures { IsTrue result ↔ MaySleep line.now }
{
    matches!(
        line,
        Ok(Request::Wait { .. } | Request::Await { .. } | Request::Next { .. })
    )
}
