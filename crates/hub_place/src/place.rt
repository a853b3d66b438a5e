//! The place of a socket that one server after the other listens at.

ghost use Rattle.std.specs.Prelude.{◌≡◌, IfErr};
ghost use Rattle.hub_endings.specs.declared.fault.Fault.TheVariants as fault;
ghost use Rattle.hub_endings.specs.declared.listen_fault.ListenFault.{ListenFault as listen_fault};
ghost use Rattle.hub_place.specs.Places.{path_fault};

use crate::folder::{Folder, remove_left};
use crate::lock::lock_beside;
use crate::look::{has_socket, is_served};
use hub_endings::{Fault, ListenFault};
use hub_server::Keeper;
use std::alloc::Global;
use std::fs;
use std::fs::{DirBuilder, File, Files, Metadata, Permissions};
use std::io::{self, ErrorKind};
use std::net::Net;
use std::os::unix::fs::{DirBuilderExt, MetadataExt, PermissionsExt};
use std::os::unix::net::UnixListener;

/// The folder of root's socket, where other users may come by.
const ROOT_FOLDER: &str = "/run/ftrighub";

const ROOT_FOLDER_MODE: u32 = 0o755;

/// The bits of a folder's mode that let others than its owner write to it.
const OTHERS_WRITE: u32 = 0o022;

/// The bit of a folder's mode by which each user may rename only its own files there.
const STICKY: u32 = 0o1000;

/// The most bytes of a path whose socket has a second name SOCKET.K/s.
const MOST_BYTES: usize = 103;

/// The path of a socket, a lock that no other server of this program has meanwhile, and a private folder.
#[derive(Drop)]
pub struct Place<'a> {
    socket: &'a str,
    lock: File,
    folder: Folder,
    /// The device and the number that tell the hub's socket from each other file. None before it listens.
    own: Option<(u64, u64)>,
}

/// That a hub's socket was put in its place. Only [`Place::put`] makes one.
#[derive(Drop)]
pub struct InPlace {
    made: (),
}

/// Makes the folder of root's socket, whatever the umask is. What is there already stays as it is.
pub fn make_root_folder<H: Files>(rt: &H) -> Result<(), Fault>
    ensures { IfErr result (λ error. (why : listen_fault) × (error ≡ fault.Listen why)) }
{
    let made = DirBuilder::new()
        .mode(ROOT_FOLDER_MODE)
        .create(rt, ROOT_FOLDER);
    let done = match made {
        Ok(()) => fs::set_permissions(rt, ROOT_FOLDER, Permissions::from_mode(ROOT_FOLDER_MODE)),
        Err(fault) if fault.kind() == ErrorKind::AlreadyExists => Ok(()),
        Err(fault) => Err(fault),
    };
    match done {
        Ok(()) => Ok(()),
        Err(why) => Err(Fault::Listen(ListenFault::from(why))),
    }
}

// Whether a socket and its second name can have this path.
fn check_path(path: &str) -> Result<(), ListenFault>
    ensures { result ≡ path_fault path.now }
{
    match path.len() {
        0 => Err(ListenFault::Empty),
        length if length > MOST_BYTES => Err(ListenFault::Long),
        _ => Ok(()),
    }
}

/// Takes the socket's place, if no server has it. An error is `Taken` if another server has it, `Listen` or `Memory`.
pub fn take_place<'a, H: Files<File = File> + Net>(
    rt: &H,
    alloc: Global,
    socket: &'a str,
) -> Result<Place<'a>, Fault> {
    check_path(socket)?;
    has_socket(rt, socket)?;
    let lock = lock_beside(rt, alloc, socket)?;
    if has_socket(rt, socket)? && is_served(rt, socket)? {
        return Err(Fault::Taken);
    }
    remove_left(rt, alloc, socket, &lock)?;
    let folder = Folder::make(rt, alloc, socket, &lock)?;
    Ok(Place {
        socket,
        lock,
        folder,
        own: None,
    })
}

impl Place<'_> {
    /// Whether this place is that of the socket with this path, by whatever name.
    pub fn is_at<H: Files>(&self, rt: &H, alloc: Global, socket: &str) -> bool {
        let Ok(path) = format!(in alloc; "{socket}.lock") else {
            return false;
        };
        match (
            self.lock.metadata(),
            fs::symlink_metadata(rt, path.as_str()),
        ) {
            (Ok(own), Ok(other)) => identity(&own) == identity(&other),
            _ => false,
        }
    }

    /// A socket that listens in the private folder, with this mode. Nobody can connect to it until it is put in its place. An error is
    /// `Shared` if it is to have a mode, and another user could have the mode of another file set.
    pub fn listen<H: Files + Net>(
        &mut self,
        rt: &H,
        mode: Option<u32>,
    ) -> Result<UnixListener, ListenFault> {
        if mode.is_some() && is_shared(rt, self.socket)? {
            return Err(ListenFault::Shared);
        }
        let aside = self.folder.socket.as_str();
        let listener = match UnixListener::bind(rt, aside) {
            Ok(listener) => listener,
            Err(fault) => return Err(self.folder.why_not(rt, fault)),
        };
        if let Some(mode) = mode {
            fs::set_permissions(rt, aside, Permissions::from_mode(mode))?;
        }
        self.own = Some(identity(&fs::symlink_metadata(rt, aside)?));
        Ok(listener)
    }

    /// Puts the socket in its place, once there are threads for so many sessions. A stale socket's file makes way for it, and nothing
    /// else does.
    pub fn put<H: Files + Net>(
        &self,
        rt: &H,
        _keeper: &Keeper,
        _sessions: u64,
    ) -> Result<InPlace, Fault>
        requires crew { _keeper.now.crew.value.asked ≡ _sessions }
    {
        if self.link(rt).is_ok() {
            return Ok(InPlace { made: () });
        }
        self.take_stale_away(rt)?;
        match self.link(rt) {
            Ok(()) => Ok(InPlace { made: () }),
            Err(_) if has_socket(rt, self.socket)? => Err(Fault::Taken),
            Err(fault) => Err(Fault::Listen(ListenFault::from(fault))),
        }
    }

    // Unlike a rename, a link never replaces what is there.
    fn link<H: Files>(&self, rt: &H) -> io::Result<()> {
        fs::hard_link(rt, self.folder.socket.as_str(), self.socket)
    }

    // Removes the socket's file that is in the place, if no server has it. A server may come between a look and a removal. So the
    // file gets a name in the private folder first, where nobody else can change it, and then comes the look that counts.
    fn take_stale_away<H: Files + Net>(&self, rt: &H) -> Result<(), Fault> {
        if !has_socket(rt, self.socket)? {
            return Ok(());
        }
        if is_served(rt, self.socket)? {
            return Err(Fault::Taken);
        }
        let stale = self.folder.stale.as_str();
        fs::rename(rt, self.socket, stale).map_err(|fault| ListenFault::from(fault))?;
        if has_socket(rt, stale) == Ok(true) && is_served(rt, stale) == Ok(false) {
            let removed = fs::remove_file(rt, stale);
            return Ok(removed.map_err(|fault| ListenFault::from(fault))?);
        }
        if fs::hard_link(rt, stale, self.socket).is_ok() {
            let _: io::Result<()> = fs::remove_file(rt, stale);
        }
        Err(Fault::Taken)
    }

    /// Sees to it that the socket is in its place. Returns whether it was away and is back. An error is `Lost` if another file is
    /// in its place, or if it can't be put back.
    pub fn keep<H: Files>(&self, rt: &H, _there: &InPlace) -> Result<bool, Fault> {
        match fs::symlink_metadata(rt, self.socket) {
            Ok(found) if self.own == Some(identity(&found)) => Ok(false),
            Ok(_) => Err(Fault::Lost),
            Err(fault) if is_away(&fault) => match self.link(rt) {
                Ok(()) => Ok(true),
                Err(_) => Err(Fault::Lost),
            },
            Err(_) => Ok(false),
        }
    }

    /// Removes the private folder.
    pub fn leave<H: Files>(&self, rt: &H) {
        self.folder.remove(rt);
        let _: io::Result<()> = self.lock.set_len(0);
    }
}

// Whether others than its owner may rename the private folder: who may write to the folder that it is in, unless that is sticky. A link
// in its place would be followed as a mode is set.
fn is_shared<H: Files>(rt: &H, socket: &str) -> Result<bool, ListenFault> {
    let folder = match socket.rsplit_once('/') {
        Some((folder, _)) if folder.is_empty() => "/",
        Some((folder, _)) => folder,
        None => ".",
    };
    let mode = fs::metadata(rt, folder)?.mode();
    Ok(mode & OTHERS_WRITE != 0 && mode & STICKY == 0)
}

fn identity(file: &Metadata) -> (u64, u64) {
    (file.dev(), file.ino())
}

// Whether nothing is at a path.
fn is_away(fault: &io::Error) -> bool {
    matches!(fault.kind(), ErrorKind::NotFound | ErrorKind::NotADirectory)
}
