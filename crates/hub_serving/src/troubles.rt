//! Fifodirs in trouble: a publisher was refused there as full, a subscription was evicted, or a will was lost.

ghost use Rattle.std.specs.Prelude.{◌≡◌, ◌∷◌, [], OnOk};
ghost use Rattle.std.specs.Io.KnownBytes.{Appends};
ghost use Rattle.hub_serving.specs.Troubles.{eviction_of, is_told, loss_of, past_after, refusal_of, trouble_line};

use crate::lost_wills::LostWills;
use crate::noting::{NotedNames, is_among};
use hub_endings::{Trouble, TroubleAt};
use hub_requests::{Enter, MOST_NAMES, Name, Reply};
use hub_shared::{Found, Hub};
use std::alloc::{AllocError, Global};
use std::io::{self, ErrorKind, Write};
use std::rt::Clock;
use std::str;
use std::sync::{Arc, Wait};
use std::time::{Duration, Instant};

/// For how many seconds no other line of its kind is told of a fifodir.
const MINUTE: u64 = 60;

/// What is known of a fifodir after a look at it.
#[derive(Clone, Copy, Debug, PartialEq, Eq)]
pub(crate) struct Past {
    /// How many subscriptions were evicted and not cancelled.
    evicted: u64,
    /// In which second it was told last that a publisher was refused. None: never.
    refusal: Option<u64>,
    /// In which second it was told last that a subscription was evicted. None: never.
    eviction: Option<u64>,
    /// In which second it was told last that a will was lost. None: never.
    loss: Option<u64>,
}

/// A look at a fifodir.
#[derive(Clone, Copy, Debug, PartialEq, Eq)]
pub(crate) struct Look {
    /// In which second.
    now: u64,
    /// Whether a publisher was refused as full since the look before.
    refused: bool,
    /// Whether a will couldn't be carried out since the look before.
    lost: bool,
    /// How many events are pending for the slowest subscription.
    pending: u64,
    /// How many subscriptions are evicted and not cancelled.
    evicted: u64,
    /// How many events may be pending for a subscription.
    limit: u64,
}

impl Past {
    /// Of a fifodir that wasn't looked at yet.
    const NONE: Past = Past {
        evicted: 0,
        refusal: None,
        eviction: None,
        loss: None,
    };

    // What to tell of the fifodir by a look at it: of a publisher that was refused, of a subscription that was evicted, and of a will that
    // was lost.
    fn note(&mut self, look: Look) -> [Option<Trouble>; 3]
        ensures troubles { result ≡ refusal_of self.old look ∷ eviction_of self.old look ∷ loss_of self.old look ∷ [] }
        ensures past { self.new ≡ past_after self.old look }
    {
        let refused = is_told(look.refused, self.refusal, look.now);
        let evicted = is_told(look.evicted > self.evicted, self.eviction, look.now);
        let lost = is_told(look.lost, self.loss, look.now);
        self.evicted = look.evicted;
        if refused {
            self.refusal = Some(look.now);
        }
        if evicted {
            self.eviction = Some(look.now);
        }
        if lost {
            self.loss = Some(look.now);
        }
        let (pending, limit) = (look.pending, look.limit);
        [
            refused.then_some(Trouble::Refused { pending }),
            evicted.then_some(Trouble::Evicted { limit }),
            lost.then_some(Trouble::Will { pending }),
        ]
    }
}

// Whether a line is told in this second of what has happened, if one of its kind was told last in the other second.
fn is_told(happened: bool, told: Option<u64>, now: u64) -> bool
    ensures { result ≡ is_told happened told now }
{
    match told {
        Some(second) => happened && now.saturating_sub(second) > MINUTE,
        None => happened,
    }
}

/// A fifodir of the hub, with what is known of it.
#[derive(Drop)]
struct Watched {
    name: Name,
    found: Found,
    past: Past,
}

impl Watched {
    // What to tell of it in this second, if publishers were refused at fifodirs with these names since the look before, and wills were lost
    // at those with the others.
    fn look<H: Wait + Enter>(
        &mut self,
        rt: &H,
        now: u64,
        refused: &[Name],
        lost: &[Name],
    ) -> [Option<Trouble>; 3] {
        let usage = self.found.dir.usage(rt);
        self.past.note(Look {
            now,
            refused: is_among(refused, &self.name),
            lost: is_among(lost, &self.name),
            pending: usage.pending,
            evicted: usage.evicted,
            limit: self.found.dir.limits().waiting,
        })
    }
}

/// Tells of fifodirs in trouble, of each at most three lines a minute. It keeps those that it has found, since a hub keeps its names for
/// as long as it lives.
#[derive(Drop)]
pub(crate) struct Troubles {
    hub: Arc<Hub, Global>,
    full: NotedNames,
    lost: LostWills,
    /// When it began, if that is known.
    begun: Option<Instant>,
    /// The fifodirs that it has found, in the order in which they were made.
    watched: Vec<Watched>,
}

impl Troubles {
    /// Those of this hub, whose desks note refusals among these names, and their lost wills here.
    pub(crate) fn of<C: Clock>(
        rt: &C,
        alloc: Global,
        hub: Arc<Hub, Global>,
        full: NotedNames,
        lost: LostWills,
    ) -> Troubles {
        Troubles {
            hub,
            full,
            lost,
            begun: Instant::now(rt).ok(),
            watched: Vec::new(alloc),
        }
    }

    /// Looks at each fifodir, and writes the lines that are to be told. It is asked for about once a second.
    pub(crate) fn tell<H: Clock + Wait + Enter, W: Write>(
        &mut self,
        rt: &H,
        alloc: Global,
        out: &mut W,
    ) {
        self.find_new(rt);
        let refused = self.full.take(rt, alloc);
        let lost = self.lost.take_names(rt, alloc);
        let now = self.seconds(rt);
        for watched in self.watched.as_mut_slice() {
            for trouble in watched.look(rt, now, &refused, &lost) {
                let _: io::Result<()> = tell_trouble(alloc, &watched.name, trouble, out);
            }
        }
    }

    // How many whole seconds have passed since it began.
    fn seconds<C: Clock>(&self, rt: &C) -> u64 {
        let time = match self.begun {
            Some(begun) => begun.elapsed(rt).unwrap_or(Duration::ZERO),
            None => Duration::ZERO,
        };
        time.as_secs()
    }

    // Finds the fifodirs that were made since the look before. Those for which memory ran out are found at a later look.
    fn find_new<H: Wait>(&mut self, rt: &H) {
        for _ in 0..MOST_NAMES {
            if !self.find_listed(rt) {
                return;
            }
        }
    }

    // Finds the next ones, as many as one reply lists. Whether there may be more.
    fn find_listed<H: Wait>(&mut self, rt: &H) -> bool {
        let (_, listed) = self.hub.list(rt, self.watched.len() as u64);
        let Reply::Listed(names) = listed else {
            return false;
        };
        for name in names.items() {
            if self.find(rt, name).is_err() {
                return false;
            }
        }
        true
    }

    fn find<H: Wait>(&mut self, rt: &H, name: &Name) -> Result<(), AllocError> {
        let (_, found) = self.hub.find(rt, name);
        let Some(found) = found? else {
            return Ok(());
        };
        let name = name.copy()?;
        let past = Past::NONE;
        match self.watched.push(Watched { name, found, past }) {
            Ok(()) => Ok(()),
            Err(_) => Err(AllocError),
        }
    }
}

// Writes the line of a trouble of the fifodir with this name, if there is one.
fn tell_trouble<W: Write>(
    alloc: Global,
    name: &Name,
    trouble: Option<Trouble>,
    out: &mut W,
) -> io::Result<()>
    ensures { OnOk result (Appends (W.contents out.old) (W.contents out.new)
        (trouble_line name.now trouble)) }
{
    let Some(trouble) = trouble else {
        return Ok(());
    };
    match str::from_utf8(name.bytes()) {
        Ok(name) => TroubleAt { name, trouble }.tell(alloc, out),
        Err(_) => Err(io::Error::from(ErrorKind::InvalidData)),
    }
}
