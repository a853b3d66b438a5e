//! What a hub says on standard error while it serves.
use hub_endings::{Fault, HubLine, Listening, LookListening, StopCause};
use std::alloc::Global;
use std::test::Fail;

static STOPPED: [(StopCause, &str); 6] = [
    (StopCause::Read, "could not read from its client"),
    (StopCause::Write, "its client left before it read its reply"),
    (StopCause::Turns, "too many reads"),
    (StopCause::Memory, "out of memory"),
    (StopCause::Silent, "no whole line came (--idle)"),
    (StopCause::Deaf, "its reply was not taken (--idle)"),
];

static OF_HUBS: [(HubLine, &str); 8] = [
    (
        HubLine::More { sessions: 1 },
        "ftrighub: 1 more sessions stopped\n",
    ),
    (
        HubLine::More {
            sessions: 18_446_744_073_709_551_615,
        },
        "ftrighub: 18446744073709551615 more sessions stopped\n",
    ),
    (
        HubLine::Wills { wills: 2 },
        "ftrighub: 2 wills not carried out\n",
    ),
    (
        HubLine::Full { sessions: 64 },
        "ftrighub: all 64 sessions are taken, and clients wait\n",
    ),
    (
        HubLine::LookFull,
        "ftrighub: no session is free for those who only look, and clients wait\n",
    ),
    (HubLine::Restored, "ftrighub: socket file restored\n"),
    (
        HubLine::LookRestored,
        "ftrighub: socket file restored (--look)\n",
    ),
    (HubLine::Failed(Fault::Accept), "ftrighub: cannot accept\n"),
];

/// The mode of a hub that listens, and its line.
static MODES: [(Option<u32>, &str); 3] = [
    (None, "ftrighub: 1.2.3 listens at a/hub (1024 sessions)\n"),
    (
        Some(0o600),
        "ftrighub: 1.2.3 listens at a/hub (mode 0600, 1024 sessions)\n",
    ),
    (
        Some(0o666),
        "ftrighub: 1.2.3 listens at a/hub (mode 0666, 1024 sessions)\n",
    ),
];

/// Whether a hub says this by this line.
fn is_said_as(alloc: Global, said: HubLine, line: &str) -> bool {
    let mut told: Vec<u8> = Vec::new(alloc);
    said.tell(alloc, &mut told).is_ok() && told.as_slice() == line.as_bytes()
}

/// Whether a hub says so of a session that stopped for this cause.
fn is_stopped_as(alloc: Global, cause: StopCause, text: &str) -> Result<bool, Fail> {
    let stopped = HubLine::Stopped {
        number: 12,
        seconds: 3_600,
        lines: 75,
        cause,
    };
    let line = format!(in alloc;
        "ftrighub: session 12 stopped after 3600 s (lines: 75): {text}\n"
    )?;
    Ok(is_said_as(alloc, stopped, line.as_str()))
}

#[test]
fn each_line_of_a_hub_has_its_text(rt: HostRuntime) -> Result<(), Fail> {
    let alloc: Global = rt.alloc();
    for (said, line) in &OF_HUBS {
        assert!(rt; is_said_as(alloc, *said, line), "{line}");
    }
    for (cause, text) in &STOPPED {
        assert!(rt; is_stopped_as(alloc, *cause, text)?, "{text}");
    }
    Ok(())
}

/// Whether a hub that listens so says it by this line.
fn listens_as(alloc: Global, listening: Listening<'_>, line: &str) -> bool {
    let mut told: Vec<u8> = Vec::new(alloc);
    listening.tell(alloc, &mut told).is_ok() && told.as_slice() == line.as_bytes()
}

#[test]
fn a_hub_says_that_it_listens(rt: HostRuntime) {
    for (mode, line) in &MODES {
        let listening = Listening {
            version: "1.2.3",
            socket: "a/hub",
            mode: *mode,
            sessions: 1_024,
            look: None,
        };
        assert!(rt; listens_as(rt.alloc(), listening, line), "{line}");
    }
}

#[test]
fn a_hub_says_that_it_listens_at_two_sockets(rt: HostRuntime) -> Result<(), Fail> {
    let look = Some(LookListening {
        socket: "b/look",
        mode: 0o622,
        sessions: 48,
    });
    for (mode, own) in &[(None, ""), (Some(0o660), "mode 0660, ")] {
        let listening = Listening {
            version: "1.2.3",
            socket: "a/hub",
            mode: *mode,
            sessions: 64,
            look,
        };
        let line = format!(in rt.alloc();
            "ftrighub: 1.2.3 listens at a/hub ({own}64 sessions), and at b/look for those who only look (mode 0622, at most 48 of these)\n"
        )?;
        assert!(rt; listens_as(rt.alloc(), listening, line.as_str()), "{own}");
    }
    Ok(())
}
