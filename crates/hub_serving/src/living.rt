//! The subcommand `serve --forever`: sessions over a Unix socket, for as long as the program runs.

ghost use Rattle.std.specs.Prelude.{◌≡◌, OnOk, flat_map};
ghost use Rattle.std.specs.Io.KnownBytes.{Appends};
ghost use Rattle.hub_options.specs.declared.version.TheConstants.{VERSION as version};
ghost use Rattle.hub_endings.specs.Faults.{line_with};
ghost use Rattle.hub_endings.specs.HubLines.{listening_text};
ghost use Rattle.hub_serving.specs.Doors.{look_listening};
ghost use Rattle.hub_serving.specs.Pending.{line_if, pending_lines};

use crate::desks::HubDesks;
use crate::doors::{Doors, open_doors};
use crate::lost_wills::LostWills;
use crate::notice::Notice;
use crate::noting::NotedNames;
use crate::places::{AllInPlace, Places};
use crate::setup::read_setup;
use crate::troubles::Troubles;
use crate::watching::{Pending, Watcher};
use hub_endings::{Fault, HubLine, Listening, LookListening};
use hub_front::{Enter, Stay};
use hub_options::{HubOptions, LookOptions, VERSION};
use hub_place::make_root_folder;
use hub_server::most_looking;
use hub_shared::Hub;
use hub_wait::Patience;
use std::alloc::{AllocError, Global};
use std::fs::{File, Files};
use std::io::Write;
use std::net::Net;
use std::rt::Clock;
use std::sync::{Arc, Wait};
use std::thread::Threads;
use std::time::Duration;
use std::{io, thread};

/// Serves sessions at the socket for as long as the program runs, over one hub, which has carried out the lines of the setup before. So
/// many threads each accept a connection, serve its session, and accept the next one. `log` gets a line once the hub listens, one for
/// each session that stopped, as they come, a few lines a second and the number of the rest, and one if all sessions are taken and a
/// client waits. If the socket's file is removed, it is put back. The folder of root's socket is made if the options say so.
///
/// If the options name a second socket, threads of its own serve there, over the same hub, sessions that only look. Both sockets share
/// the number of sessions, of which a quarter, at least one, is kept for the first one.
///
/// It returns only if it couldn't begin, and then nobody could connect unless it is `Notify`: `Taken` if another server listens
/// at the socket, `Listen`, `Notify` if the descriptor isn't open or couldn't be written to, `Setup` if the file of the setup couldn't
/// be read, `SetupLine` if a line of it was refused, `Memory`, or `Serve` if a thread couldn't be started. Or it returns `Lost`, if
/// another file is in the socket's place, or its file can't be put back. Of the second socket each is told as a `Look`.
pub fn serve_forever<H, F>(
    rt: &H,
    alloc: Global,
    options: HubOptions<'_>,
    log: &mut F,
) -> Result<(), Fault>
where
    H: Files<File = File> + Net + Clock + Threads + Wait + Enter + Copy + Send + 'static,
    F: Write,
{
    let notice = match options.ready {
        Some(descriptor) => Some(Notice::at(descriptor)?),
        None => None,
    };
    let setup = read_setup(rt, alloc, options.setup)?;
    if options.makes_folder {
        make_root_folder(rt)?;
    }
    let mut places = Places::take(rt, alloc, &options)?;
    let ended = serve_at(
        rt,
        alloc,
        &mut places,
        &options,
        setup.as_slice(),
        notice,
        log,
    );
    places.leave(rt);
    ended
}

/// A hub whose doors have their threads, and what tells of it.
#[derive(Drop)]
struct Living<H> {
    doors: Doors,
    watcher: Watcher<H>,
    lost: LostWills,
    troubles: Troubles,
}

// The desks over a new hub that has carried out the lines of this setup. Wills that are lost are counted here.
fn set_up_desks<H>(
    rt: &H,
    alloc: Global,
    lost: &LostWills,
    setup: &[u8],
) -> Result<HubDesks<Patience<H>>, Fault>
where
    H: Clock + Wait + Enter + Copy,
{
    let Ok(hub) = Arc::new(alloc, Hub::new(alloc)?) else {
        return Err(Fault::Memory);
    };
    let desks = HubDesks {
        hub,
        pause: Patience::new(*rt),
        stay: Stay::Long,
        lost: Some(lost.share()?),
    };
    desks.set_up(rt, alloc, setup)?;
    Ok(desks)
}

// What tells of fifodirs in trouble, of those that these desks make, of those that are noted as full, and of those of lost wills.
fn troubles_of<H>(
    rt: &H,
    alloc: Global,
    desks: &HubDesks<Patience<H>>,
    full: &NotedNames,
    lost: &LostWills,
) -> Result<Troubles, AllocError>
where
    H: Clock + Copy,
{
    let hub = Arc::try_clone(&desks.hub)?;
    Ok(Troubles::of(rt, alloc, hub, full.share()?, lost.share()?))
}

// A hub whose sockets are in these places. Its threads come before that, since a client that could connect would be cut off if one of
// them couldn't be started: who has no `Doors` can't put a socket there.
fn begin<H>(
    rt: &H,
    alloc: Global,
    places: &mut Places<'_>,
    options: &HubOptions<'_>,
    setup: &[u8],
) -> Result<(Living<H>, AllInPlace), Fault>
where
    H: Files<File = File> + Net + Clock + Threads + Wait + Enter + Copy + Send + 'static,
{
    let watcher = Watcher::new(alloc, *rt)?;
    let lost = LostWills::new(alloc)?;
    let desks = set_up_desks(rt, alloc, &lost, setup)?;
    let full = NotedNames::new(alloc)?;
    let troubles = troubles_of(rt, alloc, &desks, &full, &lost)?;
    let doors = open_doors(rt, alloc, places, options, desks, full, &watcher)?;
    let there = places.put(rt, &doors, options.sessions)?;
    let living = Living {
        doors,
        watcher,
        lost,
        troubles,
    };
    Ok((living, there))
}

// Serves sessions at these places. Nobody is told before all sockets are there (`AllInPlace`).
fn serve_at<H, F>(
    rt: &H,
    alloc: Global,
    places: &mut Places<'_>,
    options: &HubOptions<'_>,
    setup: &[u8],
    notice: Option<Notice>,
    log: &mut F,
) -> Result<(), Fault>
where
    H: Files<File = File> + Net + Clock + Threads + Wait + Enter + Copy + Send + 'static,
    F: Write,
{
    let (living, there) = begin(rt, alloc, places, options, setup)?;
    if let Some(notice) = notice {
        notice.give(rt, &there)?;
    }
    let _: io::Result<()> = tell_listening(alloc, options, log);
    watch(rt, alloc, places, &there, living, log)
}

// Tells what happens to sessions, and keeps the sockets in their places. It returns only if one is lost.
fn watch<H, F>(
    rt: &H,
    alloc: Global,
    places: &Places<'_>,
    there: &AllInPlace,
    mut living: Living<H>,
    log: &mut F,
) -> Result<(), Fault>
where
    H: Files + Clock + Wait + Enter + Copy,
    F: Write,
{
    'seconds: for _ in rt.forever() {
        let pending = living.watcher.take(rt);
        let _: io::Result<()> = tell_pending(alloc, pending, log);
        let _: io::Result<()> = tell_if(alloc, living.lost.take(), log);
        let running = living.watcher.running();
        let _: io::Result<()> = tell_each(alloc, &living.doors.crowds(rt, running), log);
        let _: io::Result<()> = tell_each(alloc, &places.keep(rt, there)?, log);
        living.troubles.tell(rt, alloc, log);
        if pending.has_lines() {
            thread::sleep(rt, Duration::from_secs(1));
        }
    }
    Ok(())
}

// The second socket of a hub that may have so many sessions, as it is told.
fn look_listening<'a>(sessions: u64, look: Option<LookOptions<'a>>) -> Option<LookListening<'a>>
    ensures { result ≡ look_listening sessions look.entry }
{
    match look {
        Some(look) => Some(LookListening {
            socket: look.socket,
            mode: look.mode,
            sessions: most_looking(sessions),
        }),
        None => None,
    }
}

// Writes the line that says that the hub of these options listens.
fn tell_listening<W: Write>(alloc: Global, options: &HubOptions<'_>, out: &mut W) -> io::Result<()>
    ensures { OnOk result (Appends (W.contents out.old) (W.contents out.new)
        (line_with (listening_text version.now options.now.socket.now options.now.mode
        options.now.sessions (look_listening options.now.sessions options.now.look)))) }
{
    let listening = Listening {
        version: VERSION,
        socket: options.socket,
        mode: options.mode,
        sessions: options.sessions,
        look: look_listening(options.sessions, options.look),
    };
    listening.tell(alloc, out)
}

// Writes a line, if there is one.
fn tell_if<W: Write>(alloc: Global, line: Option<HubLine>, out: &mut W) -> io::Result<()>
    ensures { OnOk result (Appends (W.contents out.old) (W.contents out.new) (line_if line)) }
{
    match line {
        Some(line) => line.tell(alloc, out),
        None => Ok(()),
    }
}

// Writes these lines, in their order.
fn tell_each<W: Write>(alloc: Global, lines: &[Option<HubLine>], out: &mut W) -> io::Result<()>
    ensures { OnOk result (Appends (W.contents out.old) (W.contents out.new)
        (flat_map line_if lines.now)) }
{
    'lines: for line in lines.iter() {
        tell_if(alloc, *line, out)?;
    }
    Ok(())
}

// Writes the lines that are pending, in their order, and one with the number of the rest.
fn tell_pending<W: Write>(alloc: Global, pending: Pending, out: &mut W) -> io::Result<()>
    ensures { OnOk result (Appends (W.contents out.old) (W.contents out.new)
        (pending_lines pending)) }
{
    tell_each(alloc, &pending.lines, out)?;
    tell_if(alloc, pending.rest(), out)
}
