//! Runs the rows of examples in `data/` through the desks: the desk of one thread, with the whole input at once and
//! with one byte a read, and the desk of a session that is alone over a hub.
//!
//! A row is a file `NAME.row`, with the lines of an input and the reply that is expected for each. The program stops at the
//! first row whose output isn't byte for byte the same each time: it says which desk gave it, and in which line it differs. It
//! also stops if there is no row.
#![tactic(auto)]

use anyhow::{Result, anyhow};
use ftrighub::{Desk, Enter, Hub, LocalDesk, SharedDesk, Source, serve};
use hub_fakes::{Dripping, Yielding};
use std::alloc::{AllocError, AllocGlobal, Global};
use std::fs;
use std::process::ExitCode;
use std::rt::Runtime;
use std::sync::{Arc, Wait};

fn main(rt: HostRuntime) -> ExitCode {
    match run(&rt, rt.alloc()) {
        Ok(()) => ExitCode::SUCCESS,
        Err(fault) => {
            let _ = println!(rt; "{fault}");
            ExitCode::FAILURE
        }
    }
}

fn run(
    rt: &(impl Runtime + AllocGlobal + Wait + Enter + Clone + Drop),
    alloc: Global,
) -> Result<()> {
    let mut any = false;
    for entry in fs::read_dir(rt, ".")? {
        let entry = entry?;
        if let Some(name) = entry.file_name().strip_suffix(".row") {
            let text = fs::read(rt, entry.file_name())?;
            let row = Row::read(alloc, text.as_slice())?;
            row.holds(rt, alloc, name)?;
            any = true;
        }
    }
    if !any {
        return Err(anyhow!("no row is here"));
    }
    println!(rt; "each row holds")?;
    Ok(())
}

/// An input, and the output that is expected for it.
#[derive(Drop)]
struct Row {
    input: Vec<u8>,
    output: Vec<u8>,
}

impl Row {
    /// Reads a row. What is behind `> ` is a line of the input, what is behind `>- ` is one without an LF, and each other line
    /// is one of the output.
    fn read(alloc: Global, text: &[u8]) -> Result<Row> {
        let (mut input, mut output) = (Vec::new(alloc), Vec::new(alloc));
        for line in text.split_inclusive(|byte| *byte == b'\n') {
            if let Some(given) = line.strip_prefix(b"> ") {
                input.extend_from_slice(given)?;
            } else if let Some(given) = line.strip_prefix(b">- ") {
                input.extend_from_slice(given.strip_suffix(b"\n").unwrap_or(given))?;
            } else {
                output.extend_from_slice(line)?;
            }
        }
        Ok(Row { input, output })
    }

    /// Runs each desk, the first one with both forms of the input. An error says which desk gave another output, and in
    /// which line.
    fn holds(
        &self,
        rt: &(impl Runtime + AllocGlobal + Wait + Enter),
        alloc: Global,
        name: &str,
    ) -> Result<()> {
        let input = self.input.as_slice();
        let whole = self.differs_at(rt, alloc, &mut LocalDesk::new(alloc)?, &mut &*input)?;
        tell(name, "a local desk", whole)?;
        let dripping = self.differs_at(
            rt,
            alloc,
            &mut LocalDesk::new(alloc)?,
            &mut Dripping::new(input, 1, 0),
        )?;
        tell(name, "a local desk, one byte a read", dripping)?;
        let mut shared = alone(alloc)?;
        let line = self.differs_at(rt, alloc, &mut shared, &mut &*input);
        shared.release(rt);
        tell(name, "a shared desk", line?)
    }

    /// The first line of a desk's output that is another one than expected, counted from 1; none if there is none.
    fn differs_at<H: Wait + Enter, D: Desk, R: Source>(
        &self,
        rt: &H,
        alloc: Global,
        desk: &mut D,
        reader: &mut R,
    ) -> Result<Option<u64>> {
        let mut written: Vec<u8> = Vec::new(alloc);
        serve(rt, alloc, desk, reader, &mut written)?;
        Ok(first_line_unlike(written.as_slice(), self.output.as_slice()))
    }
}

/// The number of the first line in which the texts differ.
fn first_line_unlike(found: &[u8], wanted: &[u8]) -> Option<u64> {
    let mut line: u64 = 1;
    for (byte, other) in found.iter().zip(wanted.iter()) {
        if *byte != *other {
            return Some(line);
        }
        if *byte == b'\n' {
            line = line.wrapping_add(1);
        }
    }
    if found.len() == wanted.len() {
        None
    } else {
        Some(line)
    }
}

/// An error if there is such a line.
fn tell(row: &str, desk: &str, line: Option<u64>) -> Result<()> {
    match line {
        Some(line) => Err(anyhow!("row {row}, {desk}: another output in line {line}")),
        None => Ok(()),
    }
}

/// The desk of a session that is alone over a new hub.
fn alone(alloc: Global) -> Result<SharedDesk<Yielding>, AllocError> {
    let hub = Arc::new(alloc, Hub::new(alloc)?)?;
    SharedDesk::new(alloc, hub, Yielding)
}
