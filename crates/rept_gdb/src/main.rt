//! A crash for a debugger, as the remote end of `target remote |`:
//! `rept_gdb EXE CORE TRACE [FROM]`.
#![tactic(auto)]

use rept_debug::run;
use std::process::ExitCode;

fn main(rt: HostRuntime) -> ExitCode {
    run(rt)
}
