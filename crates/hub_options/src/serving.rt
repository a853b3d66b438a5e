//! What a hub that is served without end may be told.
ghost use Rattle.std.specs.Prelude.{◌≡◌, ℕ, ◌≤◌, Some, codes, is_some, true};
ghost use Rattle.hub_options.specs.Ranges.{IsInRange};
ghost use Rattle.hub_options.specs.declared.serving.TheConstants.{LEAST_WITH_LOOK, MOST_CLIENTS, MOST_DESCRIPTOR, MOST_IDLE, MOST_MADE};

/// The most sessions of a hub at the same time.
pub const MOST_CLIENTS: u64 = 1_024;

/// The largest descriptor that may be told.
pub const MOST_DESCRIPTOR: u64 = 65_535;

/// The most seconds that a session may be idle.
pub const MOST_IDLE: u64 = 1_000_000;

/// The most fifodirs that one session may make.
pub const MOST_MADE: u64 = 256;

/// The fewest sessions of a hub with two sockets: one of them is kept for the first.
pub const LEAST_WITH_LOOK: u64 = 2;

/// A second socket, whose sessions only look.
#[derive(Clone, Copy, Debug, PartialEq, Eq)]
pub struct LookOptions<'a> {
    /// The path of the socket.
    pub socket: &'a str,
    /// The permission bits of the socket's file.
    pub mode: u32,
}

/// How a hub is served without end.
#[derive(Clone, Copy, Debug, PartialEq, Eq)]
pub struct HubOptions<'a> {
    /// The path of the socket.
    pub socket: &'a str,
    /// Whether the folder `/run/ftrighub` is made if it isn't there.
    pub makes_folder: bool,
    /// How many sessions there may be at the same time.
    pub sessions: u64,
    /// The permission bits of the socket's file. None: those that the process's umask leaves.
    pub mode: Option<u32>,
    /// The descriptor that gets a newline once the hub listens, as the `notification-fd` of s6 does. None: there is none.
    pub ready: Option<u64>,
    /// How many seconds a session may be idle: its client sends no whole line, or takes no whole reply, while the session waits for
    /// it. None: without end.
    pub idle: Option<u64>,
    /// The path of the file whose lines are carried out before the hub listens. None: there is none.
    pub setup: Option<&'a str>,
    /// The second socket. Its sessions count among the others. None: there is none.
    pub look: Option<LookOptions<'a>>,
    /// How many fifodirs one session may make.
    pub names: u64,
    // The folder is made for root's socket only.
    ghost folder_is: { makes_folder ≡ true → socket.now ≡ codes "/run/ftrighub/hub.socket" },
    ghost sessions_are: { IsInRange 1 MOST_CLIENTS sessions },
    ghost ready_is: { (d : ℕ) → ready ≡ Some d → IsInRange 0 MOST_DESCRIPTOR d },
    ghost idle_is: { (seconds : ℕ) → idle ≡ Some seconds → IsInRange 1 MOST_IDLE seconds },
    // Each of two sockets has a session.
    ghost look_is: { is_some look ≡ true → LEAST_WITH_LOOK ≤ sessions },
    ghost names_are: { IsInRange 1 MOST_MADE names },
}
