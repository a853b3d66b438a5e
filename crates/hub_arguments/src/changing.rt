//! The subcommands that change something at a hub: they make fifodirs, say where a service is, and leave a will for it.
ghost use Rattle.std.specs.Prelude.{◌≡◌};
ghost use Rattle.hub_letters.specs.declared.state.State.{State as states};
ghost use Rattle.hub_requests.specs.declared.will.Will.{Will as wills};
ghost use Rattle.hub_protocol.specs.Spelling.{text_of_state, text_of_will};

use crate::changing_help::{
    HOLD_ABOUT, HOLD_LINES, MAKE_ABOUT, MAKE_LINES, TELL_ABOUT, TELL_LINES,
};
use crate::command_line::Plan;
use crate::options::{
    Made, NAMES, PLAIN, Read, asking, flag, operands, socket_in, valued, values, with,
};
use clap::{Arg, ArgMatches, value_parser};
use hub_letters::State;
use hub_options::{Hold, Shape};
use hub_protocol::Spelled;
use hub_record::{Kind, Policy};
use hub_requests::Will;
use std::alloc::Global;

const NAME: &str = "name";

const STATE: &str = "state";

const TELL: &str = "tell";

const WILL: &str = "will";

const NO_READINESS: &str = "no-readiness";

const WAITING: &str = "waiting";

const TOTAL: &str = "total";

const HOLD: &str = "hold";

static STATES: [&str; 5] = ["off", "down", "up", "ready", "failed"];

static WILLS: [&str; 3] = ["off", "down", "failed"];

fn service<'a>(alloc: Global) -> Arg<'a> {
    Arg::new(alloc, NAME)
        .value_name("NAME")
        .help("Name of the service")
        .required(true)
}

pub(crate) fn tell_command<'a>(alloc: Global, known: Option<&'a str>) -> Made<'a> {
    let command = asking(alloc, known, "tell", (TELL_ABOUT, TELL_LINES));
    let command = with(command, Ok(service(alloc)));
    let state = Arg::new(alloc, STATE)
        .value_name("STATE")
        .help("Where it is")
        .value_parser(STATES.as_slice())
        .required(true);
    with(command, Ok(state))
}

pub(crate) fn hold_command<'a>(alloc: Global, known: Option<&'a str>) -> Made<'a> {
    let command = asking(alloc, known, "hold", (HOLD_ABOUT, HOLD_LINES));
    let told = valued(alloc, TELL, "STATE")
        .help("Where it is now, to be told at the beginning")
        .value_parser(STATES.as_slice());
    let command = with(command, Ok(told));
    let command = with(command, Ok(service(alloc)));
    let will = Arg::new(alloc, WILL)
        .value_name("WILL")
        .help("Where it is when this command has ended")
        .value_parser(WILLS.as_slice())
        .default_value("down");
    with(command, Ok(will))
}

fn waiting<'a>(alloc: Global) -> Arg<'a> {
    valued(alloc, WAITING, "N")
        .help("How many events may be pending, 1 to 4096")
        .value_parser(value_parser!(u64).range(1..4097))
        .default_value("64")
}

fn total<'a>(alloc: Global) -> Arg<'a> {
    valued(alloc, TOTAL, "N")
        .help("How many in all, from 1 to 10^12")
        .value_parser(value_parser!(u64).range(1..1_000_000_000_001))
        .default_value("1000000000000")
}

pub(crate) fn make_command<'a>(alloc: Global, known: Option<&'a str>) -> Made<'a> {
    let command = asking(alloc, known, "make", (MAKE_ABOUT, MAKE_LINES));
    let plain = flag(alloc, PLAIN).help("Make plain fifodirs, which take any letters");
    let command = with(command, Ok(plain));
    let silent = flag(alloc, NO_READINESS).help("The services don't report that they are ready");
    let command = with(command, Ok(silent));
    let command = with(command, Ok(waiting(alloc)));
    let command = with(command, Ok(total(alloc)));
    let hold = flag(alloc, HOLD).help("Refuse what has no room, and evict no subscriber");
    let command = with(command, Ok(hold));
    let names = operands(alloc, NAMES, "NAME").help("Names of what is made");
    with(command, Ok(names))
}

// The state of this word, which is one of `STATES`.
fn state_of(word: &str) -> State
    ensures { (it : states) → word.now ≡ text_of_state it → word.now ≡ text_of_state result }
{
    State::of_word(word.as_bytes()).unwrap_or(State::Down)
}

pub(crate) fn tell_plan<'a>(found: &ArgMatches<'a>) -> Plan<'a> {
    Plan::Tell {
        socket: socket_in(found),
        name: found.get_str(NAME).unwrap_or(""),
        state: state_of(found.get_str(STATE).unwrap_or("")),
    }
}

// The will of this word, which is one of `WILLS`.
fn will_of(word: &str) -> Will
    ensures { (it : wills) → word.now ≡ text_of_will it → word.now ≡ text_of_will result }
{
    Will::of_word(word.as_bytes()).unwrap_or(Will::Down)
}

pub(crate) fn hold_plan<'a>(found: &ArgMatches<'a>) -> Plan<'a> {
    let hold = Hold {
        name: found.get_str(NAME).unwrap_or(""),
        will: will_of(found.get_str(WILL).unwrap_or("")),
        told: found.get_str(TELL).map(state_of),
    };
    Plan::Hold {
        socket: socket_in(found),
        hold,
    }
}

fn shape_in(found: &ArgMatches<'_>) -> Shape {
    let is_plain = found.get_flag(PLAIN);
    Shape {
        kind: if is_plain { Kind::Plain } else { Kind::Service },
        notifies: !is_plain && !found.get_flag(NO_READINESS),
        waiting: found.get_one::<u64>(WAITING).unwrap_or(64),
        total: found.get_one::<u64>(TOTAL).unwrap_or(1_000_000_000_000),
        policy: if found.get_flag(HOLD) {
            Policy::Hold
        } else {
            Policy::Evict
        },
    }
}

pub(crate) fn make_plan<'a>(alloc: Global, found: &ArgMatches<'a>) -> Read<'a> {
    Ok(Plan::Make {
        socket: socket_in(found),
        names: values(alloc, found, NAMES)?,
        shape: shape_in(found),
    })
}
