//! The subcommands that serve sessions, and `call`, which reaches them.
ghost use Rattle.std.specs.Prelude.{◌≡◌, ◌<◌, ◌^◌, ◌||◌, None, Some, IsSomeAnd, MatchOption, codes, is_none, nat_le, true, unwrap_or};
ghost use Rattle.std.specs.Option.{SomeIff};
ghost use Rattle.std.specs.Str.Parse.{IsNumeral, digits_value, without_leading_plus};
ghost use Rattle.hub_arguments.specs.Environment.{IsServedAt};
ghost use Rattle.hub_options.specs.Ranges.{IsInRange};
ghost use Rattle.hub_options.specs.declared.serving.TheConstants.{LEAST_WITH_LOOK, MOST_CLIENTS, MOST_MADE};
ghost use Rattle.hub_arguments.specs.Ranges.{kept_in};
ghost use Rattle.hub_arguments.specs.declared.serving.TheConstants.{MOST_CONNECTIONS, OPEN_TO_ALL};

use crate::command_line::Plan;
use crate::help::{CALL_ABOUT, CALL_LINES, SCRIPT_ABOUT, SCRIPT_LINES, SERVE_ABOUT, SERVE_LINES};
use crate::options::{Made, Read, SOCKET, SOCKET_HELP, or_known, refused, socket_in, with};
use crate::serving_options::{
    FOREVER, IDLE, LOOK, LOOK_MODE, MADE, MODE, READY, SESSIONS, SETUP, forever, idle, look,
    look_mode, made, mode, ready, sessions, setup,
};
use crate::socket::{OwnSocket, ROOT_SOCKET};
use clap::{Arg, ArgMatches, Command};
use hub_options::{
    HubOptions, LEAST_WITH_LOOK, LookOptions, MOST_CLIENTS, MOST_DESCRIPTOR, MOST_IDLE, MOST_MADE,
};
use std::alloc::{AllocError, Global};

/// The most connections of a `serve` that ends.
const MOST_CONNECTIONS: u64 = 64;

/// The mode of a socket that any user may connect to.
const OPEN_TO_ALL: u32 = 0o666;

const TOO_FEW: &str =
    "--look needs at least two sessions: one of them is kept for the first socket";

fn socket<'a>(alloc: Global) -> Arg<'a> {
    Arg::new(alloc, SOCKET).value_name("SOCKET")
}

pub(crate) fn script_command<'a>(alloc: Global) -> Command<'a> {
    Command::new(alloc, "script")
        .about(SCRIPT_ABOUT)
        .after_help(SCRIPT_LINES)
}

// What each `serve` has.
fn any_serve<'a>(alloc: Global, is_forever: bool) -> Made<'a> {
    let path = socket(alloc)
        .help("Path of the socket; --forever can do without it")
        .required(!is_forever);
    let command = Command::new(alloc, "serve")
        .about(SERVE_ABOUT)
        .after_help(SERVE_LINES)
        .arg(path);
    let command = with(command, Ok(sessions(alloc, is_forever)));
    with(command, Ok(forever(alloc)))
}

pub(crate) fn serve_command<'a>(alloc: Global, is_forever: bool) -> Made<'a> {
    let command = any_serve(alloc, is_forever);
    let command = with(command, ready(alloc));
    let command = with(command, mode(alloc));
    let command = with(command, idle(alloc));
    let command = with(command, setup(alloc));
    let command = with(command, look(alloc));
    let command = with(command, look_mode(alloc));
    with(command, made(alloc))
}

pub(crate) fn call_command<'a>(alloc: Global, known: Option<&'a str>) -> Made<'a> {
    let path = or_known(socket(alloc).help(SOCKET_HELP), known);
    Command::new(alloc, "call")
        .about(CALL_ABOUT)
        .after_help(CALL_LINES)
        .arg(path)
}

// The number that was found, if it is in range.
fn within(found: Option<u64>, least: u64, most: u64) -> Option<u64>
    ensures { result ≡ kept_in least most found }
{
    match found {
        Some(number) if least <= number && number <= most => Some(number),
        _ => None,
    }
}

// The mode that these octal digits write.
fn mode_of(digits: &str) -> Option<u32>
    ensures { SomeIff result (IsNumeral 8 (without_leading_plus digits.now)
        × (digits_value 8 (without_leading_plus digits.now) < 2 ^ 32))
        (digits_value 8 (without_leading_plus digits.now)) }
{
    u32::from_str_radix(digits, 8).ok()
}

// The mode that an option has.
fn found_mode(found: &ArgMatches<'_>, option: &str) -> Option<u32> {
    found.get_str(option).and_then(|digits| mode_of(digits))
}

// The clients at the same time of a `serve` that doesn't end, if this number was found.
fn clients(found: Option<u64>) -> u64
    ensures kept { result ≡ unwrap_or (kept_in 1 MOST_CLIENTS found) 64 }
    ensures ranged { IsInRange 1 MOST_CLIENTS result }
{
    match within(found, 1, MOST_CLIENTS) {
        Some(number) => number,
        None => 64,
    }
}

// How many fifodirs one session may make, if this number was found.
fn names(found: Option<u64>) -> u64
    ensures kept { result ≡ unwrap_or (kept_in 1 MOST_MADE found) MOST_MADE }
    ensures ranged { IsInRange 1 MOST_MADE result }
{
    match within(found, 1, MOST_MADE) {
        Some(number) => number,
        None => MOST_MADE,
    }
}

// The second socket, if its path is named. Without a mode any user may connect.
fn second<'a>(named: Option<&'a str>, mode: Option<u32>) -> Option<LookOptions<'a>>
    ensures { MatchOption named.entry (result ≡ None)
        (λ path. IsSomeAnd result (λ look. (look.socket.now ≡ path.now)
        × (look.mode ≡ unwrap_or mode OPEN_TO_ALL))) }
{
    let socket = named?;
    let mode = mode.unwrap_or(OPEN_TO_ALL);
    Some(LookOptions { socket, mode })
}

// The connections of a `serve` that ends, if this number was found.
fn connections(found: Option<u64>) -> u64
    ensures kept { result ≡ unwrap_or (kept_in 1 MOST_CONNECTIONS found) 1 }
    ensures ranged { IsInRange 1 MOST_CONNECTIONS result }
{
    match within(found, 1, MOST_CONNECTIONS) {
        Some(number) => number,
        None => 1,
    }
}

// The path of the socket of a `serve` that doesn't end, and whether its folder is made.
fn hub_socket<'a>(named: Option<&'a str>, known: Option<&'a OwnSocket>) -> (&'a str, bool)
    ensures served { IsServedAt (λ path. path.now) (λ own. own.now)
        named.entry known.entry result.0.now result.1 }
    ensures roots { result.1 ≡ true → result.0.now ≡ codes "/run/ftrighub/hub.socket" }
{
    match (named, known) {
        (Some(path), _) => (path, false),
        (None, Some(OwnSocket::OfRoot)) => (ROOT_SOCKET, true),
        (None, Some(OwnSocket::Named(path) | OwnSocket::OfUser(path))) => (path.as_str(), false),
        (None, None) => ("", false),
    }
}

// Whether the sockets have enough sessions.
fn are_enough(sessions: u64, look: Option<LookOptions<'_>>) -> bool
    ensures { result ≡ (is_none look.entry || nat_le LEAST_WITH_LOOK sessions) }
{
    look.is_none() || LEAST_WITH_LOOK <= sessions
}

// What these options say of a hub. None if it has two sockets, and too few sessions for them.
fn hub_options<'a>(found: &ArgMatches<'a>, known: Option<&'a OwnSocket>) -> Option<HubOptions<'a>> {
    let (socket, makes_folder) = hub_socket(found.get_str(SOCKET), known);
    let sessions = clients(found.get_one::<u64>(SESSIONS));
    let look = second(found.get_str(LOOK), found_mode(found, LOOK_MODE));
    if !are_enough(sessions, look) {
        return None;
    }
    Some(HubOptions {
        socket,
        makes_folder,
        sessions,
        mode: found_mode(found, MODE),
        ready: within(found.get_one::<u64>(READY), 0, MOST_DESCRIPTOR),
        idle: within(found.get_one::<u64>(IDLE), 1, MOST_IDLE),
        setup: found.get_str(SETUP),
        look,
        names: names(found.get_one::<u64>(MADE)),
    })
}

/// What the words of a `serve` ask for. `known` is the socket of one that doesn't end, if they name none.
pub(crate) fn serve_plan<'a>(
    alloc: Global,
    found: &ArgMatches<'a>,
    known: Option<&'a OwnSocket>,
) -> Read<'a> {
    if !found.get_flag(FOREVER) {
        return Ok(Plan::Serve {
            socket: socket_in(found),
            sessions: connections(found.get_one::<u64>(SESSIONS)),
        });
    }
    let Some(options) = hub_options(found, known) else {
        return Err(refused(serve_command(alloc, true), "ftrighub serve", TOO_FEW)?);
    };
    Ok(Plan::ServeForever(options))
}

/// What the words of a `call` ask for.
pub(crate) fn call_plan<'a>(found: &ArgMatches<'a>) -> Plan<'a> {
    Plan::Call {
        socket: socket_in(found),
    }
}
