//! What the subcommands share: their options, and how a subcommand that asks a hub begins.

use crate::command_line::Plan;
use clap::error::ErrorKind;
use clap::{Arg, ArgAction, ArgMatches, Command, Error};
use std::alloc::{AllocError, Global};

/// The name of the socket among the arguments.
pub(crate) const SOCKET: &str = "socket";

/// The name of the fifodirs or services.
pub(crate) const NAMES: &str = "names";

/// The word of an option that two subcommands have.
pub(crate) const PLAIN: &str = "plain";

/// A command, unless memory ran out.
pub(crate) type Made<'a> = Result<Command<'a>, AllocError>;

/// What the words ask for, or what is wrong with them.
pub(crate) type Read<'a> = Result<Plan<'a>, Error>;

/// The option `--WORD VALUE`.
pub(crate) fn valued<'a>(alloc: Global, word: &'a str, value: &'a str) -> Arg<'a> {
    Arg::new(alloc, word).long(word).value_name(value)
}

/// The option `--WORD`.
pub(crate) fn flag<'a>(alloc: Global, word: &'a str) -> Arg<'a> {
    Arg::new(alloc, word).long(word).action(ArgAction::SetTrue)
}

/// What `--help` says of the argument for the socket of a hub.
pub(crate) const SOCKET_HELP: &str = "Socket of the hub (or else FTRIGHUB_SOCKET has it)";

/// The argument for the socket. Without it the socket has this path, if one is known.
pub(crate) fn or_known<'a>(argument: Arg<'a>, known: Option<&'a str>) -> Arg<'a> {
    match known {
        Some(path) => argument.default_value(path).hide_default_value(true),
        None => argument,
    }
}

/// A subcommand that asks the hub of a socket, with its text and the lines behind its options.
pub(crate) fn asking<'a>(
    alloc: Global,
    known: Option<&'a str>,
    word: &'a str,
    texts: (&'a str, &'a str),
) -> Made<'a> {
    let (about, lines) = texts;
    let path = or_known(valued(alloc, SOCKET, "PATH").help(SOCKET_HELP), known);
    Command::new(alloc, word)
        .about(about)
        .after_help(lines)
        .arg(path)
}

/// Both of these, unless memory ran out for one of them.
pub(crate) fn both<A: Drop, B: Drop>(
    first: Result<A, AllocError>,
    second: Result<B, AllocError>,
) -> Result<(A, B), AllocError> {
    Ok((first?, second?))
}

/// The command with this argument, unless memory ran out for one of them.
pub(crate) fn with<'a>(command: Made<'a>, argument: Result<Arg<'a>, AllocError>) -> Made<'a> {
    let (command, argument) = both(command, argument)?;
    command.arg(argument)
}

/// One or more values behind the options.
pub(crate) fn operands<'a>(alloc: Global, id: &'a str, value: &'a str) -> Arg<'a> {
    Arg::new(alloc, id)
        .value_name(value)
        .required(true)
        .num_args(1..)
}

/// What is wrong with values that an argument of this command takes. `usage` is how the command is called.
pub(crate) fn refused(command: Made<'_>, usage: &str, text: &str) -> Result<Error, AllocError> {
    command?
        .bin_name(usage)?
        .error(ErrorKind::InvalidValue, text)
}

/// The socket that the words name.
pub(crate) fn socket_in<'a>(found: &ArgMatches<'a>) -> &'a str {
    found.get_str(SOCKET).unwrap_or("")
}

/// The values of an argument.
pub(crate) fn values<'a>(
    alloc: Global,
    found: &ArgMatches<'a>,
    id: &str,
) -> Result<Vec<&'a str>, AllocError> {
    Vec::from_slice(alloc, found.get_strs(id).unwrap_or(&[]))
}
