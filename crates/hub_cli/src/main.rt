//! The program `ftrighub`: runs the words of the command line with the real streams, and ends with the status.
#![tactic(auto)]

use hub_dialing::Dialer;
use hub_endings::{Notes, end_status, tell_end};
use hub_running::run;
use std::alloc::Global;
use std::io;
use std::process::ExitCode;

fn main(rt: HostRuntime) -> ExitCode {
    let alloc: Global = rt.alloc();
    let mut dialer = Dialer::new(rt);
    let mut faults = Notes::new(rt.stderr());
    let ended = run(
        &rt,
        alloc,
        &mut dialer,
        &mut rt.stdin(),
        &mut rt.stdout(),
        &mut faults,
    );
    let _: io::Result<()> = tell_end(alloc, &ended, &mut faults);
    ExitCode::from(end_status(&ended))
}
