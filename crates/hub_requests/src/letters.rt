//! The letters of what was taken.
ghost use Rattle.std.specs.Prelude.{◌≡◌, ◌≤◌, length, vec_len, vec_capacity};
ghost use Rattle.hub_letters.specs.declared.mode.TheConstants.{MOST_GATHERED};
ghost use Rattle.hub_record.specs.World.{letters};

use crate::texts::Excerpt;
use hub_letters::Letter;
use hub_record::Event;

/// The letters of the events, in an empty list that has room for them.
pub fn letters_of(events: &[Event], mut room: Vec<Letter>) -> Excerpt
    requires empty { vec_len room ≡ 0 }
    requires fits { length events.now ≤ vec_capacity room }
    requires few { length events.now ≤ MOST_GATHERED }
    ensures { result ≡ letters events.now }
{
    room.resize(events.len(), Letter::LEAST).unwrap();
    copy_letters(events, &mut room);
    Excerpt::of(room)
}

// A loop over slices copies many letters at a time, and one that pushes each takes four times as long.
fn copy_letters(events: &[Event], room: &mut [Letter])
    requires { length room.old ≡ length events.now }
    ensures { room.new ≡ letters events.now }
{
    for i in 0..events.len() {
        room[i] = events[i].letter;
    }
}
