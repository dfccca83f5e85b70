//! What was worked out by hand of runs of several threads: which are sound, which moments are next
//! to one another, over which of them a byte is carried, which rows may act between them, and how
//! far a byte's value goes at once. The cases are the lines of `stdin`, and `stdout` has each with
//! its answer.
#![tactic(auto)]

mod analyses;
mod made;
mod moments;
mod reaching;
mod rows;

use analyses::Analyses;
use made::Made;
use rept_moments::has_room;
use rept_steps::{Run, is_sound};
use rept_timeline::{RunPaths, is_small};
use std::alloc::{AllocError, Global};
use std::io;
use test_kit::{Numbers, Table, tell};

/// The tables of runs, with the run that some of their lines make.
#[derive(Drop)]
struct Runs {
    made: Made,
}

impl Table for Runs {
    fn answer(&mut self, alloc: Global, asked: &str, n: &Numbers) -> Result<String, AllocError> {
        if self.made.make(asked, n)? {
            return format!(in alloc; "{} threads", self.made.threads());
        }
        let run = self.made.run(alloc)?;
        match asked {
            "sound" => format!(in alloc; "{}", is_sound(&run)),
            _ => answer(alloc, &run, asked, n),
        }
    }
}

/// An answer on a sound run.
fn answer(alloc: Global, run: &Run, asked: &str, n: &Numbers) -> Result<String, AllocError> {
    if !is_sound(run) || !is_small(run) {
        return String::from_str(alloc, "not sound");
    }
    let paths = RunPaths::new(alloc, run)?;
    match asked {
        "end" => format!(in alloc; "{} {}", has_room(run), paths.ways().course().end()),
        "next" => moments::next(alloc, paths.ways(), n.word(0), n.word(1)),
        "carried" => moments::carried(alloc, paths.ways(), n),
        "falling" => rows::acting(alloc, &paths, n),
        "open" => rows::open(alloc, &paths, n.word(0), n.word(1)),
        "close" => rows::close(alloc, &paths, n.word(0), n.word(1)),
        "strip" => rows::strip(alloc, &paths, n.word(0)),
        "around" => rows::around(alloc, &paths, n.word(0)),
        _ => reaching::reaching(alloc, &paths, asked, n),
    }
}

/// All tables of this program: the first word of a line says which one answers it.
#[derive(Drop)]
struct Both {
    own: Runs,
    analyses: Analyses,
}

impl Table for Both {
    fn answer(&mut self, alloc: Global, asked: &str, n: &Numbers) -> Result<String, AllocError> {
        match asked {
            "byte"
            | "conflict"
            | "consistent"
            | "counts"
            | "first"
            | "last"
            | "path"
            | "range"
            | "reg"
            | "steps"
            | "why-byte"
            | "why-reg"
            | "writer" => { self.analyses.answer(alloc, asked, n) }
            _ => self.own.answer(alloc, asked, n),
        }
    }
}

fn main(rt: HostRuntime) -> io::Result<()> {
    let analyses = analyses::begin(rt.alloc())?;
    let made = Made::new(rt.alloc());
    tell(
        &rt,
        &mut Both {
            own: Runs { made },
            analyses,
        },
    )
}
