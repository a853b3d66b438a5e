//! The last word of a publisher whose session ends.
ghost use Rattle.std.specs.Prelude.{◌≡◌};
ghost use Rattle.hub_record.specs.declared.Kind.TheVariants.{Service};
ghost use Rattle.hub_fifodir.specs.Passes.{IsPublisherOf, Remains, kind_of, publisher_view};
ghost use Rattle.hub_names.specs.Wills.{finds_no_room, is_lost, says_as_last};

use hub_fifodir::{Fifodir, Go, Pause, Publisher};
use hub_letters::State;
use hub_record::PubError;
use std::sync::Wait;

/// How often it is tried again at most if there is no room. By the clock a try comes each millisecond, so this is a minute.
const MOST_TRIES: u64 = 60_000;

/// Nothing, if the last event is another publisher's; else the answer of the fifodir.
type Told = Option<Result<u64, PubError>>;

/// Tells where the service is, if its last event is this publisher's. It is tried again while there is no room.
pub fn tell_as_last<H: Wait, P: Pause + Copy>(
    rt: &H,
    dir: &Fifodir,
    me: &mut Publisher,
    state: State,
    pause: P,
) -> Told
    requires of { IsPublisherOf dir.now me.old }
    requires service { kind_of dir.now ≡ Service }
    ensures remains { Remains dir.now (publisher_view me.old) (publisher_view me.new) }
    ensures said { says_as_last state me.old result me.new }
{
    let mut pause = pause;
    let mut told = try_once(rt, dir, me, state);
    for tries in 0..MOST_TRIES {
        if !finds_no_room(told) || pause.pause_for(rt, MOST_TRIES - tries) == Go::Expired {
            break;
        }
        told = try_once(rt, dir, me, state);
    }
    told
}

fn try_once<H: Wait>(rt: &H, dir: &Fifodir, me: &mut Publisher, state: State) -> Told
    requires of { IsPublisherOf dir.now me.old }
    requires service { kind_of dir.now ≡ Service }
    ensures remains { Remains dir.now (publisher_view me.old) (publisher_view me.new) }
    ensures said { says_as_last state me.old result me.new }
{
    dir.tell_as_last(rt, me, state)
}

fn finds_no_room(told: Told) -> bool
    ensures { result ≡ finds_no_room told }
{
    matches!(told, Some(Err(PubError::Full)))
}

/// Whether a word was refused, though the fifodir is open: it has no room, or takes no more events.
pub fn is_lost(told: Option<Result<u64, PubError>>) -> bool
    ensures { result ≡ is_lost told }
{
    matches!(told, Some(Err(PubError::Full | PubError::Spent)))
}
