//! The lines of faults on standard error.
use hub_client::RelayError;
use hub_endings::{Fault, ListenFault, LookFault, ReachFault, tell_faults};
use hub_fakes::Narrow;
use hub_io::FrontError;
use hub_server::{Report, ServeError};
use std::alloc::Global;
use std::io;
use std::io::ErrorKind;
use std::test::Fail;

static OWN: [(Fault, &str); 8] = [
    (Fault::Taken, "ftrighub: another server listens there\n"),
    (Fault::Notify, "ftrighub: cannot notify\n"),
    (Fault::Setup, "ftrighub: cannot read the setup\n"),
    (Fault::Lost, "ftrighub: socket file lost\n"),
    (Fault::Accept, "ftrighub: cannot accept\n"),
    (Fault::Connect, "ftrighub: cannot connect\n"),
    (
        Fault::Reach(ReachFault::Denied),
        "ftrighub: cannot connect: permission denied\n",
    ),
    (Fault::Memory, "ftrighub: out of memory\n"),
];

static OF_LISTENING: [(ListenFault, &str); 12] = [
    (ListenFault::Untold, "ftrighub: cannot listen\n"),
    (
        ListenFault::NoFolder,
        "ftrighub: cannot listen: no such directory\n",
    ),
    (
        ListenFault::NotFolder,
        "ftrighub: cannot listen: not a directory\n",
    ),
    (
        ListenFault::Denied,
        "ftrighub: cannot listen: permission denied\n",
    ),
    (
        ListenFault::Empty,
        "ftrighub: cannot listen: the path is empty\n",
    ),
    (
        ListenFault::Long,
        "ftrighub: cannot listen: the path is too long (at most 103 bytes)\n",
    ),
    (
        ListenFault::Another,
        "ftrighub: cannot listen: a file that isn't a socket\n",
    ),
    (
        ListenFault::Lock,
        "ftrighub: cannot listen: SOCKET.lock isn't an ordinary file of this user\n",
    ),
    (
        ListenFault::Names,
        "ftrighub: cannot listen: SOCKET.a to SOCKET.z are taken\n",
    ),
    (
        ListenFault::ReadOnly,
        "ftrighub: cannot listen: read-only file system\n",
    ),
    (
        ListenFault::Space,
        "ftrighub: cannot listen: no space left\n",
    ),
    (
        ListenFault::Memory,
        "ftrighub: cannot listen: out of memory\n",
    ),
];

/// A fault of the first socket, and the line of the same fault of the second one.
static OF_LOOKING: [(Fault, &str); 6] = [
    (
        Fault::Taken,
        "ftrighub: another server listens there (--look)\n",
    ),
    (Fault::Lost, "ftrighub: socket file lost (--look)\n"),
    (
        Fault::Listen(ListenFault::Denied),
        "ftrighub: cannot listen: permission denied (--look)\n",
    ),
    (
        Fault::Look(LookFault::Same),
        "ftrighub: the path is that of the first socket (--look)\n",
    ),
    (Fault::Accept, "ftrighub: cannot accept\n"),
    (Fault::Memory, "ftrighub: out of memory\n"),
];

/// What the system says of a file, and why a server can't listen then.
static KINDS: [(ErrorKind, ListenFault); 8] = [
    (ErrorKind::NotFound, ListenFault::NoFolder),
    (ErrorKind::NotADirectory, ListenFault::NotFolder),
    (ErrorKind::PermissionDenied, ListenFault::Denied),
    (ErrorKind::ReadOnlyFilesystem, ListenFault::ReadOnly),
    (ErrorKind::StorageFull, ListenFault::Space),
    (ErrorKind::QuotaExceeded, ListenFault::Space),
    (ErrorKind::OutOfMemory, ListenFault::Memory),
    (ErrorKind::AddrInUse, ListenFault::Untold),
];

static OF_RELAYING: [(RelayError, &str); 7] = [
    (RelayError::Input, "ftrighub: read failed\n"),
    (RelayError::Output, "ftrighub: write failed\n"),
    (RelayError::Send, "ftrighub: send failed\n"),
    (RelayError::Receive, "ftrighub: receive failed\n"),
    (RelayError::Ended, "ftrighub: connection ended\n"),
    (RelayError::Turns, "ftrighub: too many reads\n"),
    (RelayError::Memory, "ftrighub: out of memory\n"),
];

/// Whether a fault is told by this line, in one write.
fn is_told_as(alloc: Global, fault: Fault, line: &str) -> bool {
    let mut told: Vec<u8> = Vec::new(alloc);
    let is_line = fault.tell(alloc, &mut told).is_ok() && told.as_slice() == line.as_bytes();
    let mut counted = Narrow::new(1_000, 0);
    is_line && fault.tell(alloc, &mut counted).is_ok() && counted.writes == 1
}

#[test]
fn each_fault_has_its_line(rt: HostRuntime) {
    let alloc: Global = rt.alloc();
    for (fault, line) in &OWN {
        assert!(rt; is_told_as(alloc, *fault, line), "{line}");
    }
    for (fault, line) in &OF_RELAYING {
        assert!(rt; is_told_as(alloc, Fault::from(*fault), line), "{line}");
    }
    for (fault, line) in &OF_LISTENING {
        assert!(rt; is_told_as(alloc, Fault::from(*fault), line), "{line}");
    }
    for (fault, line) in &OF_LOOKING {
        assert!(rt; is_told_as(alloc, fault.at_look(), line), "{line}");
    }
    let turns = Fault::from(FrontError::Turns);
    assert!(rt; is_told_as(alloc, turns, "ftrighub: too many reads\n"));
    let memory = Fault::from(ServeError::Memory);
    assert!(rt; is_told_as(alloc, memory, "ftrighub: out of memory\n"));
}

#[test]
fn each_error_of_a_file_is_told_by_its_kind(rt: HostRuntime) {
    for (kind, fault) in &KINDS {
        assert_eq!(rt; ListenFault::from(io::Error::from(*kind)), *fault);
    }
}

/// What four sessions ended with, whether the gate failed, and the lines.
static REPORTS: [([Result<u64, FrontError>; 4], bool, &str); 4] = [
    ([Ok(4), Ok(0), Ok(1), Ok(2)], false, ""),
    (
        [Ok(4), Ok(0), Ok(1), Ok(2)],
        true,
        "ftrighub: cannot accept\n",
    ),
    (
        [
            Err(FrontError::Memory),
            Err(FrontError::Turns),
            Ok(3),
            Err(FrontError::Read),
        ],
        false,
        "ftrighub: session 1: out of memory\nftrighub: session 2: too many reads\nftrighub: session 4: read failed\n",
    ),
    (
        [Ok(0), Err(FrontError::Write), Ok(0), Ok(0)],
        true,
        "ftrighub: session 2: write failed\nftrighub: cannot accept\n",
    ),
];

/// Whether such a report is told by these lines.
fn is_reported_as(
    alloc: Global,
    results: [Result<u64, FrontError>; 4],
    gate_failed: bool,
    lines: &str,
) -> Result<bool, Fail> {
    let report = Report {
        results: Vec::from_array(alloc, results)?,
        gate_failed,
    };
    let mut told: Vec<u8> = Vec::new(alloc);
    tell_faults(alloc, &report, &mut told)?;
    Ok(told.as_slice() == lines.as_bytes() && report.is_clean() == lines.is_empty())
}

#[test]
fn faults_in_the_order_of_acceptance(rt: HostRuntime) -> Result<(), Fail> {
    for (results, gate_failed, lines) in &REPORTS {
        assert!(rt;
            is_reported_as(rt.alloc(), *results, *gate_failed, lines)?,
            "{lines}"
        );
    }
    Ok(())
}

// The first line can't be written. The others are.
#[test]
fn a_line_that_fails_hides_no_other(rt: HostRuntime) -> Result<(), Fail> {
    let results = [Err(FrontError::Read), Ok(1), Err(FrontError::Read)];
    let report = Report {
        results: Vec::from_array(rt.alloc(), results)?,
        gate_failed: true,
    };
    let mut told = Narrow::new(1_000, 1);
    assert!(rt; tell_faults(rt.alloc(), &report, &mut told).is_err());
    let lines = b"ftrighub: session 3: read failed\nftrighub: cannot accept\n";
    assert_eq!(rt; told.bytes_held(), lines.as_slice());
    Ok(())
}
