//! What a session wants its services to be told when it ends.
ghost use Rattle.std.specs.Prelude.{◌≡◌};
ghost use Rattle.hub_requests.specs.Wills.{state_of};

use hub_letters::State;

/// Where a session wants a service to be told to be when the session has ended.
#[derive(Clone, Copy, Debug, PartialEq, Eq)]
pub enum Will {
    /// It is to be off.
    Off,
    /// It is to be down.
    Down,
    /// It is to have failed.
    Failed,
    /// It is to be told nothing. This takes an earlier will back.
    None,
}

impl Will {
    /// The state that the service is to be told, if any.
    pub fn state(self) -> Option<State>
        ensures { result ≡ state_of self }
    {
        match self {
            Will::Off => Some(State::Off),
            Will::Down => Some(State::Down),
            Will::Failed => Some(State::Failed),
            Will::None => None,
        }
    }
}
