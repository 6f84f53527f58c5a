//! `nandctl`: commands on raw images of one NAND die.
#![tactic(auto)]

use std::process::ExitCode;
use system_program::run_over;

fn main(rt: HostRuntime) -> ExitCode {
    run_over(&rt, &mut rt.stdin(), &mut rt.stdout(), &mut rt.stderr())
}
