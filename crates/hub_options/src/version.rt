//! The program's version.

/// The program's version, which `--version` prints after its name, and a hub's log says.
pub const VERSION: &str = "0.5.0-dev";
