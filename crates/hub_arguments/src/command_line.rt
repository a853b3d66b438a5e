//! Reads the words of the command line.
ghost use Rattle.std.specs.Prelude.{◌≡◌, ◌≢◌, ◌⊎◌, ℕ, codes, IfErr, IfOk, IfSome};
ghost use Rattle.clap.specs.Words.{kind_of};
ghost use Rattle.clap.specs.declared.error.ErrorKind.TheVariants as kind;
ghost use Rattle.hub_arguments.specs.Words.{BeginsWith};
ghost use Rattle.hub_arguments.specs.declared.command_line.Start.TheVariants.{End};
ghost use Rattle.hub_arguments.specs.declared.command_line.WordsError.TheVariants.{Text};

use crate::asking::{
    ask_command, ask_plan, follow_command, follow_plan, status_command, status_plan, wait_command,
    wait_plan,
};
use crate::changing::{hold_command, hold_plan, make_command, make_plan, tell_command, tell_plan};
use crate::help::{ABOUT, LINES};
use crate::help_words::words_of_help;
use crate::options::{Made, Read, SOCKET, both};
use crate::serving::{call_command, call_plan, script_command, serve_command, serve_plan};
use crate::socket::OwnSocket;
use clap::error::ErrorKind;
use clap::{ArgMatches, Command, Error};
use hub_io::FrontError;
use hub_letters::State;
use hub_options::{Follow, Hold, HubOptions, Shape, VERSION, Wish};
use std::alloc::{AllocError, AllocGlobal, Global};
use std::rt::Runtime;
use std::{env, io};

/// The program's name in the usage lines, whatever name it was started by.
pub(crate) const NAME: &str = "ftrighub";

/// What the program is to do.
#[derive(Drop, Debug, PartialEq, Eq)]
pub enum Plan<'a> {
    /// Serves standard input to standard output, as one local session.
    Script,
    /// Accepts this many connections at the socket (1 to 64), and serves each as a session.
    Serve {
        socket: &'a str,
        sessions: u64,
    },
    /// Serves sessions at a socket for as long as the program runs.
    ServeForever(HubOptions<'a>),
    /// Sends standard input to the server at the socket, and writes its replies to standard output.
    Call {
        socket: &'a str,
    },
    /// Sends these words as one request to the server at the socket, and writes its reply to standard output.
    Ask {
        socket: &'a str,
        words: Vec<&'a str>,
    },
    /// Waits until the services are in a state, by the hub at the socket, writes the reply to standard output, and which of
    /// them aren't to standard error.
    Wait {
        socket: &'a str,
        wish: Wish<'a>,
    },
    /// Writes the state of these fifodirs, or of all of the hub at the socket if there is none, to standard output: as a table, or
    /// as objects of JSON.
    Status {
        socket: &'a str,
        names: Vec<&'a str>,
        is_json: bool,
    },
    /// Writes each letter of these fifodirs of the server at the socket to standard output, or each hit of the pattern.
    Follow {
        socket: &'a str,
        follow: Follow<'a>,
    },
    /// Says where a service of the hub at the socket is.
    Tell {
        socket: &'a str,
        name: &'a str,
        state: State,
    },
    /// Leaves a will for a service of the hub at the socket, and tells its state if that is said. Then it stays connected until
    /// standard input ends.
    Hold {
        socket: &'a str,
        hold: Hold<'a>,
    },
    /// Makes fifodirs of this shape at the hub at the socket, one for each name, or sees that they are there.
    Make {
        socket: &'a str,
        names: Vec<&'a str>,
        shape: Shape,
    },
}

fn program<'a>(alloc: Global) -> Command<'a> {
    Command::new(alloc, NAME)
        .version(VERSION)
        .about(ABOUT)
        .after_help(LINES)
        .subcommand_required(true)
        .arg_required_else_help(true)
}

// The command with this subcommand, unless memory ran out for one of them.
fn with<'a>(command: Made<'a>, subcommand: Made<'a>) -> Made<'a> {
    let (command, subcommand) = both(command, subcommand)?;
    command.subcommand(subcommand)
}

// The command with the subcommands that ask a hub for one thing, or change something there.
fn with_requests<'a>(command: Made<'a>, alloc: Global, known: Option<&'a str>) -> Made<'a> {
    let command = with(command, make_command(alloc, known));
    let command = with(command, tell_command(alloc, known));
    let command = with(command, wait_command(alloc, known));
    let command = with(command, status_command(alloc, known));
    let command = with(command, follow_command(alloc, known));
    let command = with(command, hold_command(alloc, known));
    with(command, ask_command(alloc, known))
}

// The path of the socket for words that name none may be known.
fn command<'a>(alloc: Global, is_forever: bool, known: Option<&'a str>) -> Made<'a> {
    let command = with_requests(Ok(program(alloc)), alloc, known);
    let command = with(command, serve_command(alloc, is_forever));
    let command = with(command, call_command(alloc, known));
    with(command, Ok(script_command(alloc)))
}

/// Why words are no plan.
#[derive(Drop, Debug)]
pub enum WordsError {
    /// This has the text to print: help, the version, or what is wrong with the words. `OutOfMemory` if memory ran out.
    Text(Error),
    /// They need a socket and name none, and none is known.
    NoSocket,
}

impl From<Error> for WordsError {
    ghost from_gives = { λ error it. it ≡ Text error };

    fn from(error: Error) -> WordsError {
        WordsError::Text(error)
    }
}

impl From<AllocError> for WordsError {
    fn from(error: AllocError) -> WordsError {
        WordsError::Text(Error::from(error))
    }
}

// Whether the words need a socket and name none, unless one is known.
fn lacks_socket(matches: &ArgMatches<'_>) -> bool {
    match matches.subcommand() {
        Some(("script", _)) | None => false,
        Some((_, found)) => found.get_str(SOCKET).is_none(),
    }
}

// The help for words that begin with `help`, or what is wrong with them.
fn help_for(alloc: Global, words: &[String]) -> Result<Option<Error>, AllocError> {
    let Some(asked) = words_of_help(alloc, words)? else {
        return Ok(None);
    };
    Ok(
        command(alloc, false, None)?
            .try_get_matches_from(asked.as_slice())
            .err(),
    )
}

// What is wrong with words behind `--version`, if there are some: `clap` doesn't look at them.
fn behind_version(alloc: Global, words: &[String]) -> Result<Option<Error>, AllocError> {
    let [_, first, second, ..] = words else {
        return Ok(None);
    };
    if first.as_str() != "--version" && first.as_str() != "-V" {
        return Ok(None);
    }
    let text = format!(in alloc; "unexpected argument '{second}' found")?;
    let error = command(alloc, false, None)?.error(ErrorKind::UnknownArgument, text.as_str())?;
    Ok(Some(error))
}

// What the words of a subcommand that asks a hub for one thing ask for.
fn asking_plan<'a>(alloc: Global, word: &str, found: &ArgMatches<'a>) -> Read<'a> {
    match word {
        "ask" => ask_plan(alloc, found),
        "wait" => wait_plan(alloc, found),
        "status" => status_plan(alloc, found),
        "follow" => follow_plan(alloc, found),
        _ => Ok(Plan::Script),
    }
}

// What the words that matched ask for.
fn plan_of<'a>(alloc: Global, matches: &ArgMatches<'a>, known: Option<&'a OwnSocket>) -> Read<'a> {
    let Some((word, found)) = matches.subcommand() else {
        return Ok(Plan::Script);
    };
    match word {
        "serve" => serve_plan(alloc, found, known),
        "call" => Ok(call_plan(found)),
        "make" => make_plan(alloc, found),
        "tell" => Ok(tell_plan(found)),
        "hold" => Ok(hold_plan(found)),
        _ => asking_plan(alloc, word, found),
    }
}

// How the words match the command.
fn matches_of<'a>(
    alloc: Global,
    words: &'a [String],
    known: Option<&'a OwnSocket>,
) -> Result<ArgMatches<'a>, Error> {
    let is_forever = words.iter().any(|word| word.as_str() == "--forever");
    let path = known.map(|own| own.path());
    command(alloc, is_forever, path)?.try_get_matches_from(words)
}

/// Reads the words. The first word is the program's name, which the usage lines print. `known` is the socket for words that
/// name none, if there is one.
pub fn read_words<'a>(
    alloc: Global,
    words: &'a [String],
    known: Option<&'a OwnSocket>,
) -> Result<Plan<'a>, WordsError> {
    if let Some(error) = help_for(alloc, words)? {
        return Err(WordsError::Text(error));
    }
    if let Some(error) = behind_version(alloc, words)? {
        return Err(WordsError::Text(error));
    }
    let matches = matches_of(alloc, words, known)?;
    if known.is_none() && lacks_socket(&matches) {
        return Err(WordsError::NoSocket);
    }
    Ok(plan_of(alloc, &matches, known)?)
}

/// What the words of the command line ask for.
#[derive(Drop, Debug, PartialEq, Eq)]
pub enum Start<'a> {
    /// The program is to do this.
    Run(Plan<'a>),
    /// The words need a socket and name none, and none is known. Nothing was printed.
    NoSocket,
    /// The text for these words was printed, and the program ends with this status.
    End(u8),
}

/// The exit status for words that run nothing: 2 if they were refused, 0 if they ask for help or the version.
pub fn status_of(error: &Error) -> u8
    ensures shown { (kind_of error.now ≡ kind.DisplayHelp)
        ⊎ (kind_of error.now ≡ kind.DisplayVersion) → result ≡ 0 }
    ensures refused { kind_of error.now ≢ kind.DisplayHelp
        → kind_of error.now ≢ kind.DisplayVersion → result ≡ 2 }
    ensures either { (result ≡ 0) ⊎ (result ≡ 2) }
{
    if error.use_stderr() { 2 } else { 0 }
}

// The same, unless the words couldn't be read for want of memory.
fn status_with_memory(error: &Error) -> Result<u8, AllocError>
    ensures memory { IfErr result (λ _. kind_of error.now ≡ kind.OutOfMemory) }
    ensures shown { IfOk result (λ status. (kind_of error.now ≡ kind.DisplayHelp)
        ⊎ (kind_of error.now ≡ kind.DisplayVersion) → status ≡ 0) }
    ensures refused { IfOk result (λ status. kind_of error.now ≢ kind.DisplayHelp
        → kind_of error.now ≢ kind.DisplayVersion → status ≡ 2) }
    ensures either { IfOk result (λ status. (status ≡ 0) ⊎ (status ≡ 2)) }
{
    if error.kind() == ErrorKind::OutOfMemory {
        return Err(AllocError);
    }
    Ok(status_of(error))
}

/// The exit status for words that run nothing. None if the words are a plan to run.
pub fn early_status(
    alloc: Global,
    words: &[String],
    known: Option<&OwnSocket>,
) -> Result<Option<u8>, AllocError>
    ensures { IfOk result (λ status. IfSome status (λ s. (s ≡ 0) ⊎ (s ≡ 2))) }
{
    match read_words(alloc, words, known) {
        Ok(_) => Ok(None),
        Err(WordsError::Text(error)) => Ok(Some(status_with_memory(&error)?)),
        Err(WordsError::NoSocket) => Ok(Some(2)),
    }
}

/// The words of the command line, with the program's name first, by whatever name it was started. An error is `InvalidData` if a
/// word is not UTF-8, or `OutOfMemory`.
pub fn own_words<H: Runtime + AllocGlobal>(rt: &H, alloc: Global) -> io::Result<Vec<String>>
    ensures { IfOk result (λ words. BeginsWith
        (λ word. word.bytes.items) (codes "ftrighub") words.items) }
{
    let mut words = Vec::new(alloc);
    words.push(String::from_str(alloc, NAME)?)?;
    'words: for word in env::args(rt)?.skip(1) {
        words.push(word)?;
    }
    Ok(words)
}

/// Reads the words. If they run nothing, it prints their text: help and the version on standard output, what is wrong on
/// standard error. `known` is the socket for words that name none. An error is `Write` if the text couldn't be printed, or `Memory`.
pub fn begin<'a, H: Runtime + AllocGlobal>(
    rt: &H,
    alloc: Global,
    words: &'a [String],
    known: Option<&'a OwnSocket>,
) -> Result<Start<'a>, FrontError>
    ensures { IfOk result (λ start. (status : ℕ) → start ≡ End status
        → (status ≡ 0) ⊎ (status ≡ 2)) }
{
    let error = match read_words(alloc, words, known) {
        Ok(plan) => return Ok(Start::Run(plan)),
        Err(WordsError::NoSocket) => return Ok(Start::NoSocket),
        Err(WordsError::Text(error)) => error,
    };
    let status = status_with_memory(&error)?;
    match error.print(rt) {
        Ok(()) => Ok(Start::End(status)),
        Err(_) => Err(FrontError::Write),
    }
}
