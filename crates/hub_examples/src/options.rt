// crates.txt: YOURS: hub_options
use hub_options::{HubOptions, MOST_MADE};

/// A hub at this path, for one session at a time and with all else as it is if no option says so.
pub fn small_hub(socket: &str) -> HubOptions<'_> {
    HubOptions {
        socket,
        makes_folder: false,
        sessions: 1,
        mode: None,
        ready: None,
        idle: None,
        setup: None,
        look: None,
        names: MOST_MADE,
    }
}
