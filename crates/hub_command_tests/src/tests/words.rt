//! What the words of a command line ask for.
use crate::tests::plans::{PLANS, ROOT_PLANS};
use hub_arguments::{OwnSocket, WordsError, early_status, read_words};
use std::alloc::{AllocError, Global};
use std::process::Abort;
use std::test::Fail;

fn words_of(alloc: Global, line: &str) -> Result<Vec<String>, AllocError> {
    let mut words: Vec<String> = Vec::new(alloc);
    for word in line.split(' ') {
        words.push(String::from_str(alloc, word)?)?;
    }
    Ok(words)
}

/// These ask for help or for the version.
static HELP: &str = "
    ftrighub help
    ftrighub help script
    ftrighub help wait
    ftrighub help wait all
    ftrighub help help
    ftrighub --help
    ftrighub -h
    ftrighub --version
    ftrighub -V
    ftrighub script --help
    ftrighub serve --help
    ftrighub call --help
    ftrighub ask --help
    ftrighub wait --help
    ftrighub status --help
    ftrighub follow --help
    ftrighub make --help
    ftrighub tell --help
    ftrighub tell -h
    ftrighub hold --help
    ftrighub hold -h
";

/// These are refused.
static WRONG: &str = "
    ftrighub
    ftrighub stauts
    ftrighub help stauts
    ftrighub help --socket
    ftrighub --version now
    ftrighub --version --help
    ftrighub -V script
    ftrighub status --scoket s
    ftrighub script --version
    ftrighub script now
    ftrighub now
    ftrighub serve
    ftrighub serve s t
    ftrighub serve s --sessions
    ftrighub serve s --sessions 0
    ftrighub serve s --sessions 65
    ftrighub serve s --sessions many
    ftrighub serve --sessions 2
    ftrighub serve s --forever now
    ftrighub serve s --forever --sessions 0
    ftrighub serve s --forever --sessions 1025
    ftrighub serve s --forever --ready-fd
    ftrighub serve s --forever --ready-fd one
    ftrighub serve s --forever --ready-fd 65536
    ftrighub serve s --forever --mode 660
    ftrighub serve s --forever --mode 0888
    ftrighub serve s --forever --idle
    ftrighub serve s --forever --idle 0
    ftrighub serve s --forever --idle 1000001
    ftrighub serve s --forever --idle 5s
    ftrighub serve s --forever --setup
    ftrighub serve s --forever --setup a --setup b
    ftrighub serve s --setup a
    ftrighub serve s --idle 5
    ftrighub serve s --ready-fd 3
    ftrighub serve s --mode 0660
    ftrighub serve s --forever --look
    ftrighub serve s --forever --look l --look m
    ftrighub serve s --forever --look l --sessions 1
    ftrighub serve s --look l --look-mode 0666 --sessions 1 --forever
    ftrighub serve s --look l
    ftrighub serve s --look l --sessions 2
    ftrighub serve s --forever --look-mode 0666
    ftrighub serve s --forever --look l --look-mode
    ftrighub serve s --forever --look l --look-mode 666
    ftrighub serve s --forever --look l --look-mode 0644
    ftrighub serve s --look l --look-mode 0666
    ftrighub serve s --forever --names-per-session
    ftrighub serve s --forever --names-per-session 0
    ftrighub serve s --forever --names-per-session 257
    ftrighub serve s --forever --names-per-session all
    ftrighub serve s --names-per-session 2
    ftrighub serve --forever
    ftrighub script --forever
    ftrighub call
    ftrighub call s t
    ftrighub call s --sessions 2
    ftrighub ask
    ftrighub ask status db
    ftrighub ask --socket
    ftrighub ask --socket s
    ftrighub ask --socket s --socket s names 0
    ftrighub ask --other names 0
    ftrighub wait all up --for 5s db
    ftrighub wait --socket s
    ftrighub wait --socket s all
    ftrighub wait --socket s up
    ftrighub wait --socket s all up
    ftrighub wait --socket s any any up db
    ftrighub wait --socket s all up --for 5s
    ftrighub wait --socket s most up --for 5s db
    ftrighub wait --socket s all away --for 5s db
    ftrighub wait --socket s away db
    ftrighub wait --socket s all up --for 5s --for 6s db
    ftrighub wait --socket s up --timeout 5s --for 6s db
    ftrighub wait --socket s up db --timeout
    ftrighub wait --socket s up db --now=yes
    ftrighub wait --socket s up db --now --now
    ftrighub status
    ftrighub status db
    ftrighub status --socket
    ftrighub status --socket s --plain
    ftrighub follow --socket s
    ftrighub follow db
    ftrighub follow --socket s --pattern db
    ftrighub follow --socket s --once=yes db
    ftrighub follow --socket s --plain --json db
    ftrighub follow --socket s --timeout
    ftrighub tell
    ftrighub tell db ready
    ftrighub tell --socket s
    ftrighub tell --socket s db
    ftrighub tell --socket s db ready web
    ftrighub tell --socket s db away
    ftrighub tell --socket s db Ready
    ftrighub tell --socket s db finished
    ftrighub tell --socket s db ready --plain
    ftrighub hold
    ftrighub hold db
    ftrighub hold --socket s
    ftrighub hold --socket s db up
    ftrighub hold --socket s db ready
    ftrighub hold --socket s db none
    ftrighub hold --socket s db Down
    ftrighub hold --socket s db down web
    ftrighub hold --socket s db down --tell
    ftrighub hold --socket s db down --tell finished
    ftrighub hold --socket s db down --tell none
    ftrighub hold --socket s db --tell up --tell ready
    ftrighub hold --socket s db --plain
    ftrighub make
    ftrighub make db
    ftrighub make --socket s
    ftrighub make --socket s --plain
    ftrighub make --socket s db --plain --plain
    ftrighub make --socket s db --waiting
    ftrighub make --socket s db --waiting 0
    ftrighub make --socket s db --waiting 4097
    ftrighub make --socket s db --waiting many
    ftrighub make --socket s db --total 0
    ftrighub make --socket s db --total 1000000000001
    ftrighub make --socket s db --evict
    ftrighub make --socket s db --hold=yes
";

/// These are plans.
static RUN: &str = "
    ftrighub script
    ftrighub serve s
    ftrighub serve s --sessions 1
    ftrighub serve s --sessions 64
    ftrighub serve s --forever
    ftrighub serve s --sessions 1024 --forever
    ftrighub serve s --setup a --forever
    ftrighub serve s --forever --look l
    ftrighub serve s --forever --look l --look-mode 0600
    ftrighub serve --look l s --sessions 2 --forever
    ftrighub serve s --forever --names-per-session 1
    ftrighub serve s --forever --sessions 1 --names-per-session 256
    ftrighub call s
    ftrighub ask --socket s names 0
    ftrighub ask --socket s pub web --
    ftrighub ask --socket s status --help
    ftrighub wait --socket s all up db
    ftrighub wait --socket s up db
    ftrighub wait --socket s up db --now -q --timeout 5x
    ftrighub wait --socket s all up --for 5s db
    ftrighub wait --for 5s any restarted-ready db web log --socket s
    ftrighub status --socket s
    ftrighub status db web --socket s
    ftrighub follow --socket s db
    ftrighub follow db web --once --plain --socket s --pattern u
    ftrighub follow --json --once --socket s db
    ftrighub follow --timeout 5s db --socket s --retry
    ftrighub tell --socket s db ready
    ftrighub tell db off --socket s
    ftrighub hold --socket s db
    ftrighub hold db failed --tell ready --socket s
    ftrighub hold --tell off --socket s db off
    ftrighub make --socket s db
    ftrighub make db web --plain --no-readiness --hold --waiting 1 --total 1 --socket s
    ftrighub make db --waiting 4096 --total 1000000000000 --socket s
";

/// These are refused though a socket is known.
static WRONG_STILL: &str = "
    ftrighub serve
    ftrighub serve --sessions 2
    ftrighub serve --mode 0660
    ftrighub serve --look l
    ftrighub serve --forever --look l --sessions 1
    ftrighub serve --forever s t
    ftrighub call s t
    ftrighub ask
    ftrighub wait all up --for 5s
    ftrighub make
    ftrighub script s
";

fn expect_status(
    rt: &impl Abort,
    alloc: Global,
    lines: &str,
    known: Option<&OwnSocket>,
    status: Option<u8>,
) -> Result<(), AllocError> {
    for line in lines.trim().lines() {
        let words = words_of(alloc, line.trim())?;
        let found = early_status(alloc, words.as_slice(), known)?;
        assert_eq!(rt; found, status, "at {line}");
    }
    Ok(())
}

#[test]
fn early_statuses(rt: HostRuntime) -> Result<(), Fail> {
    expect_status(&rt, rt.alloc(), HELP, None, Some(0))?;
    expect_status(&rt, rt.alloc(), WRONG, None, Some(2))?;
    expect_status(
        &rt,
        rt.alloc(),
        WRONG_STILL,
        Some(&OwnSocket::OfRoot),
        Some(2),
    )?;
    expect_status(&rt, rt.alloc(), RUN, None, None)?;
    Ok(())
}

fn plan_of(alloc: Global, line: &str, known: Option<&OwnSocket>) -> Result<String, Fail> {
    let words = words_of(alloc, line)?;
    let plan = read_words(alloc, words.as_slice(), known)?;
    Ok(format!(in alloc; "{plan:?}")?)
}

fn named(alloc: Global, known: Option<&str>) -> Result<Option<OwnSocket>, AllocError> {
    match known {
        Some(path) => Ok(Some(OwnSocket::Named(String::from_str(alloc, path)?))),
        None => Ok(None),
    }
}

#[test]
fn plans(rt: HostRuntime) -> Result<(), Fail> {
    for (line, known, plan) in &PLANS {
        let known = named(rt.alloc(), *known)?;
        let found = plan_of(rt.alloc(), line, known.as_ref())?;
        assert_eq!(rt; found.as_str(), *plan, "at {line}");
    }
    for (line, plan) in &ROOT_PLANS {
        let found = plan_of(rt.alloc(), line, Some(&OwnSocket::OfRoot))?;
        assert_eq!(rt; found.as_str(), *plan, "of root, at {line}");
    }
    Ok(())
}

/// Each needs a socket, and names none.
static WITHOUT: [&str; 9] = [
    "ftrighub serve --forever",
    "ftrighub call",
    "ftrighub ask names 0",
    "ftrighub make db",
    "ftrighub tell db ready",
    "ftrighub hold db",
    "ftrighub wait all up --for 5s db",
    "ftrighub status",
    "ftrighub follow db",
];

#[test]
fn no_socket(rt: HostRuntime) -> Result<(), Fail> {
    for line in &WITHOUT {
        let words = words_of(rt.alloc(), line)?;
        let lacks = matches!(
            read_words(rt.alloc(), words.as_slice(), None),
            Err(WordsError::NoSocket)
        );
        assert!(rt; lacks, "at {line}");
    }
    Ok(())
}
