//! The descriptors of the standard streams, of which a program may be started without some.

use libc::net::{EPOLL_CLOEXEC, epoll_create1};
use libc::{STDERR_FILENO, STDIN_FILENO};

/// The file that is opened in the place of a missing stream.
const NULL: &[u8] = b"/dev/null";

/// Opens a file in the place of each standard stream that is missing. Else the first client, or a lock's file, would get its number, and
/// what is written to that stream. Standard input is opened for writing only and the others for reading only, so that each read and each
/// write fails as it does without a file.
pub(crate) fn open_missing() {
    // An open gives the least descriptor that is free.
    let input = or_other(os::open_append(NULL));
    if input > STDIN_FILENO {
        libc::close(input);
    }
    'outputs: for _ in 0..2 {
        let output = or_other(os::open_read(NULL));
        if output > STDERR_FILENO {
            libc::close(output);
            return;
        }
    }
}

// Without /dev/null it is a descriptor that can be neither read nor written to.
fn or_other(opened: i32) -> i32 {
    if opened < 0 {
        epoll_create1(EPOLL_CLOEXEC)
    } else {
        opened
    }
}
