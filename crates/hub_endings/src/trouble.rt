//! The lines of a hub that lives about its fifodirs.
ghost use Rattle.std.specs.Prelude.{OnOk, Some};
ghost use Rattle.std.specs.Io.KnownBytes.{Appends};
ghost use Rattle.hub_endings.specs.Faults.{line_with};
ghost use Rattle.hub_endings.specs.Troubles.{trouble_text};

use crate::line::tell_line;
use std::alloc::Global;
use std::io::Write;
use std::{fmt, io};

/// What a fifodir of a hub is in trouble with.
#[derive(Clone, Copy, Debug, PartialEq, Eq)]
pub enum Trouble {
    /// A publisher was refused as full, and so many events are pending for the slowest subscription.
    Refused { pending: u64 },
    /// A subscription was evicted: more events were pending for it than so many, which is the fifodir's limit.
    Evicted { limit: u64 },
    /// A will couldn't be carried out, and so many events are pending for the slowest subscription.
    Will { pending: u64 },
}

/// A trouble of the fifodir with this name. Its text is a line of the hub's log.
#[derive(Clone, Copy, Debug, PartialEq, Eq)]
pub struct TroubleAt<'a> {
    pub name: &'a str,
    pub trouble: Trouble,
}

impl<'a> fmt::Display for TroubleAt<'a> {
    ghost output = { λ it. Some (trouble_text it.name.now it.trouble) };

    fn fmt<W: fmt::Write>(&self, f: &mut fmt::Formatter<W>) -> fmt::Result {
        let name = self.name;
        match self.trouble {
            Trouble::Refused { pending } => write!(
                f,
                "{name}: a publisher was refused as full, the slowest subscription is {pending} events behind"
            ),
            Trouble::Evicted { limit } => write!(
                f,
                "{name}: a subscription was evicted, more than {limit} events behind"
            ),
            Trouble::Will { pending } => write!(
                f,
                "{name}: a will was not carried out, the slowest subscription is {pending} events behind; end its client, then tell {name} its state"
            ),
        }
    }
}

impl TroubleAt<'_> {
    /// Writes the line, as [`Fault::tell`](crate::Fault::tell) does.
    pub fn tell<W: Write>(self, alloc: Global, out: &mut W) -> io::Result<()>
        ensures { OnOk result (Appends (W.contents out.old) (W.contents out.new)
            (line_with (trouble_text self.entry.name.now self.entry.trouble))) }
    {
        tell_line(alloc, &self, out)
    }
}
