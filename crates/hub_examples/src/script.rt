// crates.txt: YOURS: hub_script hub_io
use hub_io::FrontError;
use hub_script::{Enter, script};
use std::alloc::Global;
use std::io::{Stdin, Stdout};
use std::sync::Wait;

/// Answers the lines of standard input until it ends. `main` calls it with `&mut rt.stdin()` and `&mut rt.stdout()`.
pub fn answer_lines<H: Wait + Enter>(
    rt: &H,
    alloc: Global,
    input: &mut Stdin,
    output: &mut Stdout,
) -> Result<(), FrontError> {
    let _lines = script(rt, alloc, input, output)?;
    Ok(())
}
