//! The debugger over the system's files and streams.
#![tactic(auto)]

use rept_app::run;
use std::process::ExitCode;

fn main(rt: HostRuntime) -> ExitCode {
    run(&rt)
}
