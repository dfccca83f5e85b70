//! What is concluded of small runs and why, over bytes in a list, bytes in spans and a list that
//! refuses every other fact: the cases are the lines of `stdin`, and `stdout` has each with its
//! answer.

ghost use Rattle.rept_steps.specs.Course.{IsSoundCourse};
ghost use Rattle.rept_steps.specs.Runs.{course_of};

mod asked;
mod files;
mod refusing;

use asked::{Asked, over_dump};
use files::Files;
use refusing::Refusing;
use rept_dump::Dump;
use rept_elf::{Image, Want};
use rept_steps::Run;
use rept_versions::{PlainFacts, SpanFacts};
use std::alloc::{AllocError, Global};
use test_kit::{Numbers, Table, tell};

/// A run: its steps and the registers at its end.
#[derive(Drop)]
pub struct Analyses {
    files: Files,
}

impl Table for Analyses {
    fn answer(&mut self, alloc: Global, asked: &str, n: &Numbers) -> Result<String, AllocError> {
        match asked {
            "path" => self.files = Files::new(alloc)?,
            "steps" => self.files.append(n)?,
            "last" => self.files.set(n),
            _ => return self.told(alloc, Asked { word: asked, n }),
        }
        format!(in alloc; "{} steps", self.files.count())
    }
}

impl Analyses {
    /// What is answered over the dump in which the run ends.
    fn told(&self, alloc: Global, asked: Asked<'_>) -> Result<String, AllocError> {
        let Some(steps) = self.files.steps(alloc) else {
            return String::from_str(alloc, "no path");
        };
        let exe = self.files.exe(alloc)?;
        let core = self.files.core(alloc, &steps)?;
        let run = Run::one(alloc, steps, 0)?;
        let exe = Image::read(exe.as_slice(), Want::Exec);
        let core = Image::read(core.as_slice(), Want::Core);
        match (exe, core) {
            (Ok(exe), Ok(core)) => match Dump::read(exe, core) {
                Ok(dump) => alike(alloc, &run, &dump, asked),
                Err(_) => String::from_str(alloc, "no dump"),
            },
            _ => String::from_str(alloc, "no files"),
        }
    }
}

/// What each kind of store answers: one answer where all say the same.
fn alike(alloc: Global, run: &Run, dump: &Dump<'_>, asked: Asked<'_>) -> Result<String, AllocError>
    requires { IsSoundCourse (course_of run.now) }
{
    let plain = over_dump::<PlainFacts>(alloc, run, dump, asked)?;
    let spans = over_dump::<SpanFacts>(alloc, run, dump, asked)?;
    let refusing = over_dump::<Refusing>(alloc, run, dump, asked)?;
    if plain == spans && plain == refusing {
        return Ok(plain);
    }
    format!(in alloc; "{plain}, in spans {spans}, in a list that refuses {refusing}")
}

/// The tables before their first line.
pub fn begin(alloc: Global) -> Result<Analyses, AllocError> {
    let files = Files::new(alloc)?;
    Ok(Analyses { files })
}
