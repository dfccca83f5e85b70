//! What other tools and tables that were worked out by hand say of words, halves, steps,
//! instructions and calls, of accesses, sets of values and rules, and of stores of facts and of
//! rows that write: the cases are the lines of `stdin`, and `stdout` has each with its answer.
#![tactic(auto)]

mod accesses;
mod bits;
mod calls;
mod files;
mod instructions;
mod moves;
mod paths;
mod reasons;
mod rows;
mod rules;
mod runs;
mod sample;
mod shown;
mod stores;
mod words;

use files::{Files, reads};
use rept_ports::{StdSink, StdSource, write_all};
use rows::Rows;
use std::alloc::{AllocError, Global};
use std::{fs, io, rt};
use stores::Stores;
use test_kit::{Numbers, Table, tell};

/// The tables of files, of the machine, of sets and of rules, with what some of their cases change.
#[derive(Drop)]
struct Tables<'r, R> {
    files: Files<'r, R>,
    stores: Stores,
    rows: Rows,
}

impl<'r, R: rt::Files> Table for Tables<'r, R> {
    fn answer(&mut self, alloc: Global, asked: &str, n: &Numbers) -> Result<String, AllocError> {
        if is_of_files(asked) {
            self.files.answer(alloc, asked, n)
        } else if asked.starts_with("store-") {
            self.stores.answer(alloc, asked, n)
        } else if asked.starts_with("rows-") {
            self.rows.answer(alloc, asked, n)
        } else if asked.starts_with("set-") {
            bits::answer(alloc, asked, n)
        } else {
            answer(alloc, asked, n)
        }
    }
}

/// Whether a case is one of files and ports.
fn is_of_files(asked: &str) -> bool {
    matches!(
        asked,
        "again"
            | "byte"
            | "bytes"
            | "code"
            | "core"
            | "crash"
            | "crashed"
            | "disk"
            | "dump"
            | "dumps"
            | "entry"
            | "exe"
            | "exec"
            | "file"
            | "half-of-code"
            | "kept"
            | "lines"
            | "load"
            | "mapped"
            | "maps"
            | "names"
            | "notes"
            | "pipe"
            | "put"
            | "read"
            | "segment"
            | "shared"
            | "shelf"
            | "shelve"
            | "sink"
            | "source"
            | "status"
            | "symbol"
            | "whole"
            | "words"
            | "write"
            | "written"
            | "zeros"
    )
}

/// The answer of the machine, of calls and of accesses.
fn answer(alloc: Global, asked: &str, n: &Numbers) -> Result<String, AllocError> {
    match asked {
        "word" => words::word(alloc, n.word(0), n.word(1)),
        "half" => words::half(alloc, n.word(0)),
        "kind" => instructions::registers(alloc, n.word(0)),
        "turn" => instructions::way(alloc, n),
        "edges" => runs::edges(alloc, n),
        "run" => runs::run(alloc, n),
        "call" => calls::changed(alloc, n),
        "havoc" => calls::reached(alloc, n),
        _ => others(alloc, asked, n),
    }
}

fn others(alloc: Global, asked: &str, n: &Numbers) -> Result<String, AllocError> {
    match asked {
        "access" => accesses::reached(alloc, n),
        "parts" => accesses::parts(alloc, accesses::part(n, 0), n.word(2)),
        "path" => paths::answer(alloc, n),
        "reason" => reasons::answer(alloc, n),
        "room" => stores::room(alloc, n),
        _ => moves::answer(alloc, asked, n),
    }
}

/// The real files are in the folder that the program runs in. Standard output is written to before
/// the table, and standard input read after it.
fn main(rt: HostRuntime) -> io::Result<()> {
    let written = write_all(&mut StdSink::new(io::writer(&rt)), b"written\n");
    rt.println(format!(in rt.alloc(); "standard output: {written:?}")?)?;
    let exe = fs::read(&rt, "crash")?;
    let core = fs::read(&rt, "core")?;
    let files = Files::new(rt.alloc(), &rt, exe, core)?;
    let stores = Stores::new(rt.alloc())?;
    let rows = Rows::new(rt.alloc(), 0)?;
    tell(
        &rt,
        &mut Tables {
            files,
            stores,
            rows,
        },
    )?;
    let read = reads(&mut StdSource::new(rt.reader()));
    rt.println(format!(in rt.alloc(); "standard input: {read:?}")?)
}
