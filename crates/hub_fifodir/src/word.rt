//! The front word: the number of events, whether the record is closed, and its flags, in one `u64`.
ghost use Rattle.std.specs.Prelude.{◌≡◌, ◌≤◌, Bool, ℕ};
ghost use Rattle.hub_letters.specs.declared.flags.Flags.{Flags};
ghost use Rattle.hub_record.specs.declared.limits.TheConstants.{MOST_EVENTS};
ghost use Rattle.hub_fifodir.specs.Events.{packed_word};

use hub_letters::Flags;
use hub_record::Status;

/// The front word of a status: `number * 32 + closed * 16 + code of the flags`.
pub fn pack(status: Status) -> u64
    requires { status.number ≤ MOST_EVENTS }
    ensures { result ≡ packed_word status.number status.closed status.flags }
{
    let closed = if status.closed { 1 } else { 0 };
    status.number * 32 + closed * 16 + status.flags.code()
}

/// The status of a front word.
pub fn unpack(word: u64) -> Status
    ensures { (number : ℕ) (closed : Bool) (flags : Flags) → word ≡ packed_word number closed flags
        → (result.number ≡ number) × (result.closed ≡ closed) × (result.flags ≡ flags) }
{
    Status {
        number: word / 32,
        flags: Flags::of_code(word % 16).unwrap(),
        closed: word / 16 % 2 == 1,
    }
}
