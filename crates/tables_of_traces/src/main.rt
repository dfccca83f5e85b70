//! What tables that were worked out by hand say of packets and streams, of paths over small
//! programs, of runs of two threads, and of traces that are written: of steps, of stretches of
//! harts, of logs, and of made crashes and runs. The cases are the lines of `stdin`, and `stdout`
//! has each with its answer.
#![tactic(auto)]

mod files;
mod logs;
mod packets;
mod paths;
mod rows;
mod runs;
mod seen;
mod stretches;

ghost use Rattle.std.specs.Prelude.{◌<◌, ◌^◌, length};

use files::Files;
use std::alloc::{AllocError, Global};
use std::io;
use stretches::Stretches;
use test_kit::lines::bytes::changed;
use test_kit::{Numbers, Table, tell};

/// The tables of traces, with the files and the stretches of steps that some of their lines make.
#[derive(Drop)]
struct Traces {
    files: Files,
    stretches: Stretches,
}

impl Traces {
    /// Makes the woven trace of so many harts, or tells the fault.
    fn weave(&mut self, alloc: Global, count: u32) -> Result<String, AllocError> {
        match self.stretches.woven(alloc, count)? {
            Err(fault) => format!(in alloc; "{fault:?}: {fault}"),
            Ok(trace) => {
                self.files.begin(trace.bytes())?;
                String::from_str(alloc, "woven")
            }
        }
    }
}

impl Table for Traces {
    fn answer(&mut self, alloc: Global, asked: &str, n: &Numbers) -> Result<String, AllocError> {
        if self.files.make(alloc, asked, n)? || self.stretches.make(asked, n)? {
            return self.files.lengths(alloc);
        }
        match asked {
            "packets" | "stream" | "survey" | "last" | "run" | "opened" => {
                let trace = changed(alloc, self.files.trace(), n)?;
                told(alloc, asked, &self.files, trace.as_slice(), n)
            }
            "crash" | "play" => {
                self.files = files::made(alloc, asked, n)?;
                self.files.sizes(alloc)
            }
            "weave" => self.weave(alloc, n.word(0)),
            "encode" => self.stretches.encoded(alloc),
            _ => told(alloc, asked, &self.files, self.files.trace(), n),
        }
    }
}

/// The answer to a question of a trace or a log, and of the files beside it.
fn told(
    alloc: Global,
    asked: &str,
    files: &Files,
    trace: &[u8],
    n: &Numbers,
) -> Result<String, AllocError> {
    if trace.len() >= 0x1_0000_0000 {
        return String::from_str(alloc, "too long");
    }
    match asked {
        "packets" => packets::of_trace(alloc, trace),
        "stream" => packets::of_stream(alloc, trace, n.known(0)),
        "survey" => runs::survey(alloc, trace, n.word(0)),
        "last" => runs::last(alloc, trace, n.word(0)),
        "run" => runs::run(alloc, files, trace, n.known(0)),
        "opened" => runs::opened(alloc, files, trace),
        "path" | "walk" => paths::answer(alloc, asked, files, trace, n),
        _ => others(alloc, asked, files, trace, n),
    }
}

fn others(
    alloc: Global,
    asked: &str,
    files: &Files,
    log: &[u8],
    n: &Numbers,
) -> Result<String, AllocError>
    requires { length log.now < 2 ^ 32 }
{
    match asked {
        "record" => logs::record_one(alloc, files.exe(), log),
        "harts" => logs::record_several(alloc, files.exe(), log),
        "recorded" => logs::recorded(alloc, files.exe(), log, n),
        "show" => format!(in alloc; "{log:?}"),
        "between" => stretches::between(alloc, n),
        "rows" => runs::pushed(alloc, n),
        _ => seen::answer(alloc, asked, files, n),
    }
}

fn main(rt: HostRuntime) -> io::Result<()> {
    let files = Files::new(rt.alloc());
    let stretches = Stretches::new(rt.alloc());
    tell(&rt, &mut Traces { files, stretches })
}
