//! The bounds of requests and replies, each a number of its own.

use hub_letters::MOST_GATHERED;

/// The most fifodirs that a hub has, or a desk without a hub.
pub const MOST_NAMES: usize = 256;

/// The most handles that a session has at one time.
pub const MOST_HANDLES: usize = 256;

/// The most handles that a session is given in all.
pub const MOST_NUMBERS: u64 = 1_000_000;

/// The most events that one `take` takes.
pub const MOST_TAKEN: u64 = 256;

/// The most turns of a `wait`.
pub const MOST_TURNS: u64 = 1_000_000;

/// The most services that one `wait` names.
pub const MOST_SERVICES: usize = 32;

/// How many bytes the longest name has.
pub const LONGEST_NAME: usize = 32;

/// How many bytes the longest reply has, with its LF: `got ` or `hit `, and as many letters as a listener may gather.
pub const LONGEST_REPLY: usize = "hit ".len() + MOST_GATHERED + "\n".len();

/// How many bytes of names a reply has room for, each with a space before it: what `names` and the LF leave.
pub(crate) const ROOM_FOR_NAMES: usize = LONGEST_REPLY - "names".len() - "\n".len();
