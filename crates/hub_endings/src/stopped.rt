//! The lines of sessions that stopped.
ghost use Rattle.std.specs.Prelude.{OnOk};
ghost use Rattle.std.specs.Io.KnownBytes.{Appends};
ghost use Rattle.hub_endings.specs.Faults.{session_line, session_lines, report_lines};

use crate::fault::Fault;
use hub_io::FrontError;
use hub_reports::Report;
use std::alloc::Global;
use std::io;
use std::io::Write;

// Writes a line if the session with this number stopped.
fn tell_session<W: Write>(
    alloc: Global,
    number: u64,
    ended: Result<u64, FrontError>,
    out: &mut W,
) -> io::Result<()>
    ensures { OnOk result (Appends (W.contents out.old) (W.contents out.new)
        (session_line number ended)) }
{
    match ended {
        Ok(_) => Ok(()),
        Err(fault) => Fault::Session { number, fault }.tell(alloc, out),
    }
}

// Writes a line for each of these sessions that stopped. The first has number 1.
fn tell_sessions<W: Write>(
    alloc: Global,
    results: &[Result<u64, FrontError>],
    out: &mut W,
) -> io::Result<()>
    ensures { OnOk result (Appends (W.contents out.old) (W.contents out.new)
        (session_lines 1 results.now)) }
{
    let mut told = Ok(());
    'sessions: for (at, ended) in results.iter().enumerate() {
        told = told.and(tell_session(alloc, at as u64 + 1, *ended, out));
    }
    told
}

/// Writes a line for each session that stopped, in their order, and then a line if the gate failed. If a line can't be
/// written, the others are tried nevertheless.
pub fn tell_faults<W: Write>(alloc: Global, report: &Report, out: &mut W) -> io::Result<()>
    ensures { OnOk result (Appends (W.contents out.old) (W.contents out.new)
        (report_lines report.now.results.items report.now.gate_failed)) }
{
    let told = tell_sessions(alloc, &report.results, out);
    if !report.gate_failed {
        return told;
    }
    told.and(Fault::Accept.tell(alloc, out))
}
