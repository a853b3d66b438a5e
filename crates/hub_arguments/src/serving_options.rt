//! The options of `serve`. But for the number of sessions, each is for one that doesn't end.

use crate::options::{flag, valued};
use clap::{Arg, value_parser};
use std::alloc::{AllocError, Global};

pub(crate) const SESSIONS: &str = "sessions";

pub(crate) const FOREVER: &str = "forever";

pub(crate) const READY: &str = "ready-fd";

pub(crate) const MODE: &str = "mode";

pub(crate) const IDLE: &str = "idle";

pub(crate) const SETUP: &str = "setup";

pub(crate) const LOOK: &str = "look";

pub(crate) const LOOK_MODE: &str = "look-mode";

pub(crate) const MADE: &str = "names-per-session";

/// The modes that a socket may be given: those who may connect need the right to write.
static MODES: [&str; 5] = ["0600", "0620", "0622", "0660", "0666"];

/// How many sessions. With `--forever` there may be more.
pub(crate) fn sessions<'a>(alloc: Global, forever: bool) -> Arg<'a> {
    let (help, end, usual) = if forever {
        ("Most clients at once, from 1 to 1024", 1025, "64")
    } else {
        ("How many connections, from 1 to 64", 65, "1")
    };
    valued(alloc, SESSIONS, "N")
        .help(help)
        .value_parser(value_parser!(u64).range(1..end))
        .default_value(usual)
}

/// Whether it runs until it is stopped.
pub(crate) fn forever<'a>(alloc: Global) -> Arg<'a> {
    flag(alloc, FOREVER).help("Run until stopped; N is then 1 to 1024, else 64")
}

/// The descriptor that is told once it listens.
pub(crate) fn ready<'a>(alloc: Global) -> Result<Arg<'a>, AllocError> {
    valued(alloc, READY, "D")
        .help("With --forever: write a newline to D when ready")
        .value_parser(value_parser!(u64).range(0..65536))
        .requires_arg(FOREVER)
}

/// The mode of the socket's file.
pub(crate) fn mode<'a>(alloc: Global) -> Result<Arg<'a>, AllocError> {
    valued(alloc, MODE, "MODE")
        .help("With --forever: mode of the socket file")
        .value_parser(MODES.as_slice())
        .requires_arg(FOREVER)
}

/// How long a session may be idle.
pub(crate) fn idle<'a>(alloc: Global) -> Result<Arg<'a>, AllocError> {
    valued(alloc, IDLE, "SECONDS")
        .help("With --forever: end sessions idle for SECONDS")
        .value_parser(value_parser!(u64).range(1..1000001))
        .requires_arg(FOREVER)
}

/// The file whose lines come first.
pub(crate) fn setup<'a>(alloc: Global) -> Result<Arg<'a>, AllocError> {
    valued(alloc, SETUP, "FILE")
        .help("With --forever: carry out the lines of FILE first")
        .requires_arg(FOREVER)
}

/// The path of a second socket.
pub(crate) fn look<'a>(alloc: Global) -> Result<Arg<'a>, AllocError> {
    valued(alloc, LOOK, "PATH")
        .help("With --forever: a second socket, only to look")
        .requires_arg(FOREVER)
}

/// The mode of its file.
pub(crate) fn look_mode<'a>(alloc: Global) -> Result<Arg<'a>, AllocError> {
    valued(alloc, LOOK_MODE, "MODE")
        .help("With --look: mode of that socket's file")
        .value_parser(MODES.as_slice())
        .default_value("0666")
        .requires_arg(LOOK)
}

/// How many fifodirs one session may make.
pub(crate) fn made<'a>(alloc: Global) -> Result<Arg<'a>, AllocError> {
    valued(alloc, MADE, "N")
        .help("With --forever: fifodirs that a session may make")
        .value_parser(value_parser!(u64).range(1..257))
        .requires_arg(FOREVER)
}
