//! What comes of crashes through the calls that the programs make: of whole and of damaged files,
//! of real crashes, of each line of a session, of packets that gdb sent, of each refusal, and of
//! each call of a port that fails. The cases are the lines of `stdin`; `stdout` has the words of
//! each, its status and what was written.
#![tactic(auto)]

mod crash;
mod dialog;
mod fails;
mod large;
mod order;
mod process;

use crash::Crash;
use rept_ports::DiskFileStore;
use std::alloc::AllocError;
use std::io;

/// What comes of the files and the input, where the line asks for it.
fn answer<R: AllocGlobal + std::fs::Files>(
    rt: &R,
    crash: &Crash,
    line: &str,
) -> Result<Option<String>, AllocError> {
    let alloc = rt.alloc();
    let asked = line.split_whitespace().next().unwrap_or("");
    let words = line.strip_prefix(asked).unwrap_or("");
    let text = match asked {
        "run" => crash.run(alloc, words),
        "disk" => crash.told(alloc, words, &mut DiskFileStore::new(rt)),
        "gdb" => dialog::told(rt, crash, words),
        "large" => large::told(alloc, crash, words),
        "order" => order::told(alloc, crash, words),
        "process" => process::told(alloc, words),
        _ => return Ok(None),
    };
    Ok(Some(text?))
}

fn main(rt: HostRuntime) -> io::Result<()> {
    let mut crash = Crash::new(rt.alloc());
    for line in rt.lines(rt.alloc()) {
        let line = line?;
        let line = line.as_str();
        match answer(&rt, &crash, line)? {
            Some(text) => {
                let text = text.as_str().trim_end();
                println!(rt; "{line}: {text}")?;
                crash.end(rt.alloc());
            }
            None => crash.take(rt.alloc(), line)?,
        }
    }
    Ok(())
}
