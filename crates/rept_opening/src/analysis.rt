//! From a run and its dump to what an analysis found, or the refusal of a conflict.

ghost use Rattle.std.specs.Prelude.{ℕ, List, IfOk, IfErr};
ghost use Rattle.rept_steps.specs.Runs.{course_of};
ghost use Rattle.rept_moments.specs.Courses.{IsCourseOf};
ghost use Rattle.rept_found.specs.Crash.{crash_of, means};
ghost use Rattle.rept_amo.specs.Atomic.{atomic_rules};
ghost use Rattle.rept_opening.specs.Reading.{AreNotesOf};
ghost use Rattle.rept_opening.specs.Report.{AreEndsOf, HasNoReport, IsFoundOf};
ghost use Rattle.rept_opening.specs.Opened.{crash_run};
ghost use Rattle.rept_opening.specs.TraceRun.{FitsDump};

use crate::refusal::Refusal;
use rept_amo::Atomic;
use rept_dump::Dump;
use rept_facts::Stop;
use rept_found::{AnalysedCrash, name_conflict, prepare, reports_are_true, search};
use rept_reason::RowRules;
use rept_span::Transfer;
use rept_steps::Run;
use rept_timeline::{RunPaths, ThreadEnds};
use rept_word::OutOfMemory;
use std::alloc::Global;

/// What an analysis of a run rests on; it borrows the run.
#[derive(Drop)]
pub struct Basis<'a> {
    /// how each thread ended
    pub ends: ThreadEnds<'a>,
    /// the rows of all threads, and the moments of their memory
    pub paths: RunPaths<'a>,
}

/// What an analysis of a run that ends in a dump rests on. Its only refusal is of memory.
pub fn basis_of<'a>(
    alloc: Global,
    run: &'a Run,
    dump: &'a Dump<'a>,
) -> Result<Basis<'a>, OutOfMemory>
    requires fits { FitsDump dump.now run.now }
    ensures course { IfOk result (λ basis. IsCourseOf (course_of run.now) basis.paths.ways) }
    ensures ended { IfOk result (λ basis. AreEndsOf dump.now run.now basis.ends) }
{
    let ends = match ThreadEnds::new(alloc, run, dump) {
        Ok(ends) => ends,
        Err(error) => return Err(error),
    };
    match RunPaths::new(alloc, run) {
        Ok(paths) => Ok(Basis { ends, paths }),
        Err(error) => Err(error),
    }
}

/// Learns all that follows of a run that ends in a dump, with values followed as sets of `W`. The
/// refusals are a conflict that the closure has, with no execution that ends in the dump, and want
/// of memory.
pub fn analyse<'a, W: Transfer>(
    alloc: Global,
    run: &Run,
    basis: &'a Basis<'a>,
    dump: &'a Dump<'a>,
) -> Result<AnalysedCrash<'a, W, Atomic>, Refusal>
    requires fits { FitsDump dump.now run.now }
    requires course { IsCourseOf (course_of run.now) basis.now.paths.ways }
    requires ended { AreEndsOf dump.now run.now basis.now.ends }
    ensures found { (notes : List (List ℕ)) → AreNotesOf dump.now notes → IfOk result (IsFoundOf (crash_run (means W.sets W.moves atomic_rules) (crash_of dump.now notes) run.now)) }
    ensures refused { (notes : List (List ℕ)) → AreNotesOf dump.now notes → IfErr result (HasNoReport (crash_run (means W.sets W.moves atomic_rules) (crash_of dump.now notes) run.now)) }
{
    reports_are_true::<W, Atomic>();
    let Ok(prepared) = prepare::<W, Atomic>(alloc, &basis.paths, &basis.ends, dump, Atomic::new())
    else {
        return Err(Refusal::OutOfMemory);
    };
    match search(prepared) {
        Ok(found) => Ok(found),
        Err(Stop::Conflict(kind)) => {
            let conflict = name_conflict(basis.paths.ways().course(), kind);
            Err(Refusal::Inconsistent(conflict))
        }
        Err(Stop::OutOfMemory) => Err(Refusal::OutOfMemory),
    }
}
