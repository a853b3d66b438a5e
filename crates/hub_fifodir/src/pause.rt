//! What a wait does between two looks.

use crate::bell::{Bell, Looked};
use std::sync::Wait;

/// Whether a wait goes on after a pause.
#[derive(Clone, Copy, Debug, PartialEq, Eq)]
pub enum Go {
    /// It takes what has come meanwhile, and looks again.
    Again,
    /// It ends now, since its time is over.
    Expired,
}

/// What a wait does between two looks.
pub trait Pause {
    /// Pauses, and says whether the wait goes on.
    fn pause<R: Wait>(&mut self, rt: &R) -> Go;

    /// The same for a wait that has so many turns left, over fifodirs that ring this bell, and has looked. The pause may end as
    /// soon as the bell rings. A pause that doesn't listen needs no more than `pause`.
    fn pause_at<R: Wait>(&mut self, rt: &R, _bell: &Bell, _looked: Looked, _left: u64) -> Go {
        self.pause(rt)
    }

    /// The same between two tries of a call that was refused, for one that is tried so many times more. A pause by the clock ends
    /// the tries after the time of all turns.
    fn pause_for<R: Wait>(&mut self, rt: &R, _left: u64) -> Go {
        self.pause(rt)
    }
}
