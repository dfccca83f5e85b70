//! From a run that is one path to what is asked of its report and of what is inferred beyond it.

ghost use Rattle.std.specs.Prelude.{◌≡◌, ℕ, List, Some, IfOk, IfErr};
ghost use Rattle.std.specs.Option.{option_map};
ghost use Rattle.rept_elf.specs.Image.{file_of, segments_of};
ghost use Rattle.rept_dump.specs.Dump.{core_of, exe_of};
ghost use Rattle.rept_ports.specs.Port.{move};
ghost use Rattle.rept_steps.specs.Runs.{course_of};
ghost use Rattle.rept_moments.specs.Courses.{IsCourseOf};
ghost use Rattle.rept_streams.specs.Runs.Kind.{path_rows};
ghost use Rattle.rept_known.specs.Both.{both_sets};
ghost use Rattle.rept_known.specs.BothMoves.{both_moves};
ghost use Rattle.rept_found.specs.Crash.{crash_of, means, means_beyond};
ghost use Rattle.rept_amo.specs.Atomic.{atomic_rules};
ghost use Rattle.rept_narrow.specs.Admitted.{IsAdmitted};
ghost use Rattle.rept_infer.specs.Holding.{Holds};
ghost use Rattle.rept_infer.specs.Path.{path_reader, told_in};
ghost use Rattle.rept_found.specs.Inferred.Narrowed.{beyond_of, narrowed};
ghost use Rattle.rept_findings.specs.Shown.{session_told};
ghost use Rattle.rept_machine.specs.State.{State};
ghost use Rattle.rept_opening.specs.Beyond.{begun_file, executable_of, story_of};
ghost use Rattle.rept_opening.specs.Opened.{crash_run};
ghost use Rattle.rept_opening.specs.Reading.{AreNotesOf};
ghost use Rattle.rept_opening.specs.Report.{AreEndsOf, HasNoReport, IsAsked, IsFoundOf};
ghost use Rattle.rept_opening.specs.Taken.{taken_by};
ghost use Rattle.rept_opening.specs.TraceRun.{FitsDump};

use crate::analysis::{Basis, analyse, basis_of};
use crate::answering::{Asking, Circumstances, open_by};
use crate::areas::process_told;
use crate::dumping::CrashImages;
use crate::premises::{CrashPremises, begun_program};
use crate::refusal::Refusal;
use crate::taken::premises_taken;
use rept_amo::Atomic;
use rept_dump::Dump;
use rept_findings::Findings;
use rept_found::{AnalysedCrash, InferredCrash, Reported, reports_are_true};
use rept_infer::{InferStop, infer};
use rept_known::Both;
use rept_moments::one_path;
use rept_narrow::{InferPath, KnownPath, PathPremises};
use rept_ports::{Sink, Source};
use rept_span::Transfer;
use rept_steps::{Run, Steps};
use std::alloc::Global;

/// Analyses a run, infers more beyond its report where it is one path, and answers what is asked.
pub fn open_beyond<A: Asking, S: Source, K: Sink>(
    alloc: Global,
    run: &Run,
    dump: &Dump<'_>,
    images: CrashImages<'_>,
    asking: &mut A,
    input: &mut S,
    out: &mut K,
) -> Result<A::End, Refusal>
    requires fits { FitsDump dump.now run.now }
    requires core { segments_of images.core ≡ core_of dump.now }
    requires exe { option_map file_of images.executable ≡ executable_of (exe_of dump.now) }
    ensures asked { (notes : List (List ℕ)) → AreNotesOf dump.now notes → IfOk result (IsAsked (A.asks asking.old) (crash_run (means_beyond (means both_sets both_moves atomic_rules)) (crash_of dump.now notes) run.now) (move (S.port input.old) (S.port input.new)) (move (K.port out.old) (K.port out.new))) }
    ensures refused { (notes : List (List ℕ)) → AreNotesOf dump.now notes → IfErr result (HasNoReport (crash_run (means_beyond (means both_sets both_moves atomic_rules)) (crash_of dump.now notes) run.now)) }
    ensures unread { IfErr result (λ _. (input.new ≡ input.old) × (out.new ≡ out.old)) }
{
    let Some(steps) = one_path(run) else {
        return open_by::<Both, A, S, K>(alloc, run, dump, asking, input, out);
    };
    match basis_of(alloc, run, dump) {
        Ok(basis) => {
            let path = PathCrash {
                run,
                steps,
                basis: &basis,
                dump,
                images,
            };
            open_path::<A, S, K>(alloc, path, asking, input, out)
        }
        Err(_) => Err(Refusal::OutOfMemory),
    }
}

/// A run that is one path, its steps, what its analysis rests on, the dump in which it ends, and the
/// files of that.
#[derive(Clone, Copy)]
struct PathCrash<'a> {
    run: &'a Run,
    steps: &'a Steps,
    basis: &'a Basis<'a>,
    dump: &'a Dump<'a>,
    images: CrashImages<'a>,
}

/// Analyses the path, infers more beyond its report, and answers what is asked.
fn open_path<A: Asking, S: Source, K: Sink>(
    alloc: Global,
    path: PathCrash<'_>,
    asking: &mut A,
    input: &mut S,
    out: &mut K,
) -> Result<A::End, Refusal>
    requires fits { FitsDump path.dump.now path.run.now }
    requires course { IsCourseOf (course_of path.run.now) path.basis.now.paths.ways }
    requires ended { AreEndsOf path.dump.now path.run.now path.basis.now.ends }
    requires one { path_rows path.run.now ≡ Some path.steps.now }
    requires core { segments_of path.images.core ≡ core_of path.dump.now }
    requires exe { option_map file_of path.images.executable ≡ executable_of (exe_of path.dump.now) }
    ensures asked { (notes : List (List ℕ)) → AreNotesOf path.entry.dump.now notes → IfOk result (IsAsked (A.asks asking.old) (crash_run (means_beyond (means both_sets both_moves atomic_rules)) (crash_of path.entry.dump.now notes) path.entry.run.now) (move (S.port input.old) (S.port input.new)) (move (K.port out.old) (K.port out.new))) }
    ensures refused { (notes : List (List ℕ)) → AreNotesOf path.entry.dump.now notes → IfErr result (HasNoReport (crash_run (means_beyond (means both_sets both_moves atomic_rules)) (crash_of path.entry.dump.now notes) path.entry.run.now)) }
    ensures unread { IfErr result (λ _. (input.new ≡ input.old) × (out.new ≡ out.old)) }
{
    match analyse::<Both>(alloc, path.run, path.basis, path.dump) {
        Ok(known) => open_known::<A, S, K>(alloc, path, &known, asking, input, out),
        Err(refusal) => Err(refusal),
    }
}

/// Infers more beyond a report of the path, and answers what is asked.
fn open_known<A: Asking, S: Source, K: Sink>(
    alloc: Global,
    path: PathCrash<'_>,
    known: &AnalysedCrash<'_, Both, Atomic>,
    asking: &mut A,
    input: &mut S,
    out: &mut K,
) -> Result<A::End, Refusal>
    requires fits { FitsDump path.dump.now path.run.now }
    requires course { IsCourseOf (course_of path.run.now) path.basis.now.paths.ways }
    requires ended { AreEndsOf path.dump.now path.run.now path.basis.now.ends }
    requires one { path_rows path.run.now ≡ Some path.steps.now }
    requires core { segments_of path.images.core ≡ core_of path.dump.now }
    requires exe { option_map file_of path.images.executable ≡ executable_of (exe_of path.dump.now) }
    requires found { (notes : List (List ℕ)) → AreNotesOf path.dump.now notes → IsFoundOf (crash_run (means both_sets both_moves atomic_rules) (crash_of path.dump.now notes) path.run.now) known.now }
    ensures asked { (notes : List (List ℕ)) → AreNotesOf path.entry.dump.now notes → IfOk result (IsAsked (A.asks asking.old) (crash_run (means_beyond (means both_sets both_moves atomic_rules)) (crash_of path.entry.dump.now notes) path.entry.run.now) (move (S.port input.old) (S.port input.new)) (move (K.port out.old) (K.port out.new))) }
    ensures refused { (notes : List (List ℕ)) → AreNotesOf path.entry.dump.now notes → IfErr result (HasNoReport (crash_run (means_beyond (means both_sets both_moves atomic_rules)) (crash_of path.entry.dump.now notes) path.entry.run.now)) }
    ensures unread { IfErr result (λ _. (input.new ≡ input.old) × (out.new ≡ out.old)) }
{
    reports_are_true::<Both, Atomic>();
    let reported = Reported { found: known };
    let steps = path.steps.rows();
    let image_end = path.dump.image_end();
    let status = path.dump.status();
    let premises = CrashPremises {
        dump: path.dump,
        core: path.images.core,
        process: process_told(&path.images.core, image_end, (status.pid, status.regs[2])),
        begun: begun_program(path.images.executable, path.run.skipped, steps),
    };
    let taken = premises_taken(premises.begun, steps);
    let rows = InferPath {
        rows: steps,
        image_end,
    };
    match infer(alloc, rows, &reported, &premises) {
        Ok(inferred) => {
            let told = InferredCrash::new(known, inferred, taken);
            Ok(ask_beyond(alloc, path, told, asking, input, out))
        }
        Err(InferStop::Contradiction(empty)) => Err(Refusal::Refuted {
            point: empty.point,
            reg: empty.reg,
        }),
        Err(InferStop::OutOfMemory) => Err(Refusal::OutOfMemory),
    }
}

/// Answers what is asked of the report of the path and of what was inferred beyond it.
fn ask_beyond<W: Transfer, A: Asking, P: KnownPath, Q: PathPremises, S: Source, K: Sink>(
    alloc: Global,
    path: PathCrash<'_>,
    told: InferredCrash<'_, AnalysedCrash<'_, W, Atomic>, P, Q>,
    asking: &mut A,
    input: &mut S,
    out: &mut K,
) -> A::End
    requires one { path_rows path.run.now ≡ Some path.steps.now }
    requires found { (notes : List (List ℕ)) → AreNotesOf path.dump.now notes → IsFoundOf (crash_run (means W.sets W.moves atomic_rules) (crash_of path.dump.now notes) path.run.now) told.found.now }
    requires holds { (notes : List (List ℕ)) → AreNotesOf path.dump.now notes → (states : ℕ → State) → IsAdmitted (story_of (crash_of path.dump.now notes) path.run.now.skipped path.steps.now) states → Holds (story_of (crash_of path.dump.now notes) path.run.now.skipped path.steps.now) (told_in (path_reader P.set P.byte Q.premises) told.inferred) states }
    requires taken { told.taken ≡ taken_by (begun_file (executable_of (exe_of path.dump.now)) path.run.now.skipped path.steps.now) path.steps.now }
    ensures { (notes : List (List ℕ)) → AreNotesOf path.entry.dump.now notes → IsAsked (A.asks asking.old) (crash_run (means_beyond (means W.sets W.moves atomic_rules)) (crash_of path.entry.dump.now notes) path.entry.run.now) (move (S.port input.old) (S.port input.new)) (move (K.port out.old) (K.port out.new)) result }
{
    let circumstances = Circumstances {
        skipped: path.run.skipped,
        signal: path.dump.status().signal,
    };
    ask_narrowed(alloc, told, circumstances, asking, input, out)
}

/// Answers by findings with what was inferred beyond them.
fn ask_narrowed<A: Asking, F: Findings, P: KnownPath, Q: PathPremises, S: Source, K: Sink>(
    alloc: Global,
    told: InferredCrash<'_, F, P, Q>,
    circumstances: Circumstances,
    asking: &mut A,
    input: &mut S,
    out: &mut K,
) -> A::End
    ensures { A.asks asking.old (session_told (narrowed (beyond_of (told_in (path_reader P.set P.byte Q.premises) told.entry.inferred) told.entry.taken) (F.shown told.entry.found.now)) circumstances.skipped (F.reasons told.entry.found.now)) circumstances.signal (move (S.port input.old) (S.port input.new)) (move (K.port out.old) (K.port out.new)) result }
{
    asking.ask(alloc, &told, circumstances, input, out)
}
