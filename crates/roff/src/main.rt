//! The program `roff`.
#![tactic(auto)]

use roff_tools::{StdWrite, main_with};
use std::process::ExitCode;

fn main(rt: HostRuntime) -> ExitCode {
    let (stdout, stderr) = (StdWrite::new(rt.stdout()), StdWrite::new(rt.stderr()));
    main_with(&rt, stdout, stderr).exit
}
