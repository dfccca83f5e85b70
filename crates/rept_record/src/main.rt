//! Writes the trace of a log of executed addresses: `rept_record EXE < LOG > TRACE`.
#![tactic(auto)]

use rept_simlog::record_input;
use std::process::ExitCode;

fn main(rt: HostRuntime) -> ExitCode {
    record_input(&rt)
}
