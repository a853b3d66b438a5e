//! The private folder of a hub, in which its socket has a second name.

use crate::look::{has_socket, is_served};
use hub_endings::{Fault, ListenFault};
use std::alloc::{AllocError, Global};
use std::fs::{DirBuilder, File, Files, Metadata};
use std::io::{self, ErrorKind};
use std::net::Net;
use std::os::unix::fs::{DirBuilderExt, FileExt, MetadataExt};
use std::{fs, str};

/// The letters after SOCKET and a dot that a folder's name may end with. The first that is free is taken.
const LETTERS: &str = "abcdefghijklmnopqrstuvwxyz";

/// Only its own user may enter a folder.
const OWN: u32 = 0o700;

/// The bits of a mode that let others than its own user into a folder.
const OTHERS: u32 = 0o077;

/// The most bytes that a lock's file has: a letter, a space, a number and a newline.
const MOST_BYTES: usize = 32;

/// A folder SOCKET.K that nobody else has, and the names in it.
#[derive(Drop)]
pub(crate) struct Folder {
    path: String,
    /// The second name of the hub's socket.
    pub(crate) socket: String,
    /// The name that a stale socket gets before it is removed.
    pub(crate) stale: String,
}

impl Folder {
    fn named(alloc: Global, socket: &str, letter: char) -> Result<Folder, AllocError> {
        Ok(Folder {
            path: format!(in alloc; "{socket}.{letter}")?,
            socket: format!(in alloc; "{socket}.{letter}/s")?,
            stale: format!(in alloc; "{socket}.{letter}/t")?,
        })
    }

    /// Makes a folder, and writes into the lock's file which one it is: its letter before, and its number once it is there. So a hub that
    /// is killed meanwhile leaves none that the next one doesn't know. An error is `Listen` or `Memory`.
    pub(crate) fn make<H: Files>(
        rt: &H,
        alloc: Global,
        socket: &str,
        lock: &File,
    ) -> Result<Folder, Fault> {
        'letters: for letter in LETTERS.chars() {
            let folder = Folder::named(alloc, socket, letter)?;
            if folder.begin(rt, alloc, letter, lock)? {
                return Ok(folder);
            }
        }
        Err(Fault::Listen(ListenFault::Names))
    }

    // Makes this folder, and notes it, unless its name is taken. Returns whether it wasn't.
    fn begin<H: Files>(
        &self,
        rt: &H,
        alloc: Global,
        letter: char,
        lock: &File,
    ) -> Result<bool, ListenFault> {
        if self.number(rt).is_ok() {
            return Ok(false);
        }
        Note::of(letter, None).write(alloc, lock)?;
        match DirBuilder::new().mode(OWN).create(rt, self.path.as_str()) {
            Ok(()) => {
                self.note(rt, alloc, letter, lock)?;
                Ok(true)
            }
            Err(fault) if fault.kind() == ErrorKind::AlreadyExists => Ok(false),
            Err(fault) => Err(ListenFault::from(fault)),
        }
    }

    // Writes into the lock's file which folder this is. If it can't, it removes the folder.
    fn note<H: Files>(
        &self,
        rt: &H,
        alloc: Global,
        letter: char,
        lock: &File,
    ) -> Result<(), ListenFault> {
        let noted = match self.number(rt) {
            Ok(number) => Note::of(letter, Some(number)).write(alloc, lock),
            Err(fault) => Err(ListenFault::from(fault)),
        };
        if noted.is_err() {
            self.remove(rt);
        }
        noted
    }

    // The number that the file system gave the folder.
    fn number<H: Files>(&self, rt: &H) -> io::Result<u64> {
        Ok(fs::symlink_metadata(rt, self.path.as_str())?.ino())
    }

    /// Why no socket could be made in the folder.
    pub(crate) fn why_not<H: Files>(&self, rt: &H, fault: io::Error) -> ListenFault {
        let is_usable = match fs::symlink_metadata(rt, self.path.as_str()) {
            Ok(found) => found.mode() & OWN == OWN,
            Err(_) => true,
        };
        if fault.kind() == ErrorKind::PermissionDenied && !is_usable {
            return ListenFault::Umask;
        }
        ListenFault::from(fault)
    }

    // Removes a stale socket that a hub was about to remove, if no server has it.
    fn remove_stale<H: Files + Net>(&self, rt: &H) {
        let stale = self.stale.as_str();
        if has_socket(rt, stale) == Ok(true) && is_served(rt, stale) == Ok(false) {
            let _: io::Result<()> = fs::remove_file(rt, stale);
        }
    }

    /// Removes the folder with the socket in it. If there is anything else in it, the folder stays.
    pub(crate) fn remove<H: Files>(&self, rt: &H) {
        if has_socket(rt, self.socket.as_str()) == Ok(true) {
            let _: io::Result<()> = fs::remove_file(rt, self.socket.as_str());
        }
        let _: io::Result<()> = fs::remove_dir(rt, self.path.as_str());
    }
}

/// Removes the folder that a hub which was killed has left, if the lock's file names one and it is that very folder.
pub(crate) fn remove_left<H: Files + Net>(
    rt: &H,
    alloc: Global,
    socket: &str,
    lock: &File,
) -> Result<(), AllocError> {
    let Some(note) = Note::read(lock) else {
        return Ok(());
    };
    let folder = Folder::named(alloc, socket, note.letter)?;
    let Ok(found) = fs::symlink_metadata(rt, folder.path.as_str()) else {
        return Ok(());
    };
    match note.number {
        Some(number) if is_own(&found) && found.ino() == number => {
            folder.remove_stale(rt);
            folder.remove(rt);
        }
        // Its hub was killed before it could note the number, so nothing is in it.
        None if is_own(&found) && found.mode() & OTHERS == 0 => {
            let _: io::Result<()> = fs::remove_dir(rt, folder.path.as_str());
        }
        _ => {}
    }
    Ok(())
}

fn is_own(found: &Metadata) -> bool {
    found.is_dir() && found.uid() == libc::geteuid()
}

/// What a lock's file says of its hub's folder.
#[derive(Clone, Copy)]
struct Note {
    letter: char,
    /// The number that the file system gave the folder. None: it wasn't made yet.
    number: Option<u64>,
}

impl Note {
    fn of(letter: char, number: Option<u64>) -> Note {
        Note { letter, number }
    }

    // The rest of an earlier note goes last, since only the first line counts: a hub that is killed meanwhile leaves a whole one.
    fn write(self, alloc: Global, lock: &File) -> Result<(), ListenFault> {
        let letter = self.letter;
        let text = match self.number {
            Some(number) => format!(in alloc; "{letter} {number}\n"),
            None => format!(in alloc; "{letter}\n"),
        };
        let Ok(text) = text else {
            return Err(ListenFault::Memory);
        };
        lock.write_all_at(text.as_bytes(), 0)?;
        lock.set_len(text.len() as u64)?;
        Ok(())
    }

    fn read(lock: &File) -> Option<Note> {
        let mut text = [0u8; MOST_BYTES];
        let length = lock.read_at(&mut text, 0).ok()?;
        let (line, _) = str::from_utf8(text.get(..length)?).ok()?.split_once('\n')?;
        let (word, number) = match line.split_once(' ') {
            Some((word, number)) => (word, Some(number.parse::<u64>().ok()?)),
            None => (line, None),
        };
        let letter = LETTERS.chars().find(|it| word.starts_with(*it))?;
        (word.len() == 1).then_some(Note { letter, number })
    }
}
