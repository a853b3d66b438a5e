//! The subcommands that ask a hub for one thing.
ghost use Rattle.std.specs.Prelude.{◌≡◌, ◌∷◌, ◌<◌, ℕ, List, length, map, MatchBool, MatchOption};
ghost use Rattle.hub_arguments.specs.Wishes.{IsSpan, IsWant, Says};

use crate::asking_help::{
    ASK_ABOUT, ASK_LINES, FOLLOW_ABOUT, FOLLOW_LINES, STATUS_ABOUT, STATUS_LINES, WAIT_ABOUT,
    WAIT_LINES,
};
use crate::command_line::Plan;
use crate::options::{
    Made, NAMES, PLAIN, Read, asking, flag, operands, refused, socket_in, valued, values, with,
};
use clap::{Arg, ArgMatches};
use hub_options::{Follow, Wish};
use std::alloc::{AllocError, Global};

const WORDS: &str = "words";

const FIRST: &str = "first";

const TIMEOUT: &str = "timeout";

const NOW: &str = "now";

const QUIET: &str = "quiet";

const PATTERN: &str = "pattern";

const ONCE: &str = "once";

const JSON: &str = "json";

const RETRY: &str = "retry";

// What the first operand of a wait may be: how many of the services are meant, or the state itself.
static FIRSTS: [&str; 8] = [
    "all",
    "any",
    "up",
    "ready",
    "down",
    "finished",
    "restarted",
    "restarted-ready",
];

const NO_WISH: &str =
    "a wait needs a state (up, ready, down, finished, restarted or restarted-ready), and a name";

pub(crate) fn ask_command<'a>(alloc: Global, known: Option<&'a str>) -> Made<'a> {
    let words = operands(alloc, WORDS, "WORD")
        .help("The words of the request")
        .trailing_var_arg(true);
    let command = asking(alloc, known, "ask", (ASK_ABOUT, ASK_LINES));
    with(command, Ok(words))
}

// The time limit of what waits.
fn timeout<'a>(alloc: Global) -> Arg<'a> {
    valued(alloc, TIMEOUT, "D").help("Time limit, such as 500ms, 0.5s, 90 (seconds), 2m or 1h")
}

fn quiet<'a>(alloc: Global) -> Arg<'a> {
    flag(alloc, QUIET)
        .short('q')
        .help("Write nothing but errors")
}

fn first<'a>(alloc: Global) -> Arg<'a> {
    Arg::new(alloc, FIRST)
        .value_name("WANT")
        .help("State to wait for; `any` before it is for any one of the services")
        .value_parser(FIRSTS.as_slice())
        .required(true)
}

pub(crate) fn wait_command<'a>(alloc: Global, known: Option<&'a str>) -> Made<'a> {
    let command = asking(alloc, known, "wait", (WAIT_ABOUT, WAIT_LINES));
    let command = with(command, timeout(alloc).alias("for"));
    let now = flag(alloc, NOW).help("Don't wait for the hub, or for names to be made");
    let command = with(command, Ok(now));
    let command = with(command, Ok(quiet(alloc)));
    let command = with(command, Ok(first(alloc)));
    let names = operands(alloc, NAMES, "NAME").help("Names of services");
    with(command, Ok(names))
}

pub(crate) fn status_command<'a>(alloc: Global, known: Option<&'a str>) -> Made<'a> {
    let command = asking(alloc, known, "status", (STATUS_ABOUT, STATUS_LINES));
    let json = flag(alloc, JSON).help("Write an object of JSON on a line for each fifodir");
    let command = with(command, Ok(json));
    let names = Arg::new(alloc, NAMES)
        .value_name("NAME")
        .help("Names of fifodirs; without one, all of the hub")
        .num_args(0..);
    with(command, Ok(names))
}

fn pattern<'a>(alloc: Global) -> Arg<'a> {
    valued(alloc, PATTERN, "P").help("Write the hits of this pattern, and not each letter")
}

// That the letters or hits are written as objects of JSON.
fn json<'a>(alloc: Global) -> Result<Arg<'a>, AllocError> {
    flag(alloc, JSON)
        .help("Write an object of JSON for each letter or hit")
        .conflicts_with(PLAIN)
}

pub(crate) fn follow_command<'a>(alloc: Global, known: Option<&'a str>) -> Made<'a> {
    let command = asking(alloc, known, "follow", (FOLLOW_ABOUT, FOLLOW_LINES));
    let command = with(command, Ok(pattern(alloc)));
    let plain = flag(alloc, PLAIN).help("Write the letters alone");
    let command = with(command, Ok(plain));
    let command = with(command, json(alloc));
    let once = flag(alloc, ONCE).help("End with the first letter, or the first hit");
    let command = with(command, Ok(once));
    let command = with(command, Ok(timeout(alloc)));
    let retry = flag(alloc, RETRY).help("If the hub ends, wait for the next one, and go on");
    let command = with(command, Ok(retry));
    let names = operands(alloc, NAMES, "NAME").help("Names of fifodirs");
    with(command, Ok(names))
}

pub(crate) fn ask_plan<'a>(alloc: Global, found: &ArgMatches<'a>) -> Read<'a> {
    Ok(Plan::Ask {
        socket: socket_in(found),
        words: values(alloc, found, WORDS)?,
    })
}

// Whether the word says how many of the services.
fn is_span(word: &str) -> bool
    ensures { MatchBool result (IsSpan word.now) (IsSpan word.now → ⊥) }
{
    matches!(word, "all" | "any")
}

// Whether the word is a state to wait for.
fn is_want(word: &str) -> bool
    ensures { MatchBool result (IsWant word.now) (IsWant word.now → ⊥) }
{
    matches!(
        word,
        "up" | "ready" | "down" | "finished" | "restarted" | "restarted-ready"
    )
}

// How many of which services are to be in which state. None if one of these isn't said.
fn wish_of<'a, 'b>(first: &'a str, rest: &'b [&'a str]) -> Option<(&'a str, &'a str, &'b [&'a str])>
    ensures { MatchOption result
        ((span want : List ℕ) (names : List (List ℕ))
        → Says (first.now ∷ map (λ word. word.now) rest.now) span want names → ⊥)
        (λ it. Says (first.now ∷ map (λ word. word.now) rest.now)
        it.0.now it.1.now (map (λ word. word.now) it.2.now)) }
{
    if !is_span(first) {
        return with_names("all", first, rest);
    }
    let (want, names) = rest.split_first()?;
    with_names(first, want, names)
}

// The three of them. None if the word is no state, or there is no name.
fn with_names<'a, 'b>(
    span: &'a str,
    want: &'a str,
    names: &'b [&'a str],
) -> Option<(&'a str, &'a str, &'b [&'a str])>
    ensures { MatchOption result (IsWant want.now → 0 < length names.now → ⊥)
        (λ it. IsWant want.now × (0 < length names.now) × (it.0.now ≡ span.now)
        × (it.1.now ≡ want.now) × (it.2.now ≡ names.now)) }
{
    if is_want(want) && !names.is_empty() {
        Some((span, want, names))
    } else {
        None
    }
}

pub(crate) fn wait_plan<'a>(alloc: Global, found: &ArgMatches<'a>) -> Read<'a> {
    let first = found.get_str(FIRST).unwrap_or("");
    let rest = found.get_strs(NAMES).unwrap_or(&[]);
    let Some((span, want, names)) = wish_of(first, rest) else {
        return Err(refused(wait_command(alloc, None), "ftrighub wait", NO_WISH)?);
    };
    let wish = Wish {
        span,
        want,
        timeout: found.get_str(TIMEOUT),
        is_now: found.get_flag(NOW),
        is_quiet: found.get_flag(QUIET),
        names: Vec::from_slice(alloc, names)?,
    };
    Ok(Plan::Wait {
        socket: socket_in(found),
        wish,
    })
}

pub(crate) fn status_plan<'a>(alloc: Global, found: &ArgMatches<'a>) -> Read<'a> {
    Ok(Plan::Status {
        socket: socket_in(found),
        names: values(alloc, found, NAMES)?,
        is_json: found.get_flag(JSON),
    })
}

pub(crate) fn follow_plan<'a>(alloc: Global, found: &ArgMatches<'a>) -> Read<'a> {
    let follow = Follow {
        names: values(alloc, found, NAMES)?,
        pattern: found.get_str(PATTERN),
        is_plain: found.get_flag(PLAIN),
        is_json: found.get_flag(JSON),
        is_once: found.get_flag(ONCE),
        timeout: found.get_str(TIMEOUT),
        is_patient: found.get_flag(RETRY),
    };
    Ok(Plan::Follow {
        socket: socket_in(found),
        follow,
    })
}
