//! From a run and its dump to what is asked of its report.

ghost use Rattle.std.specs.Prelude.{◌≡◌, ℕ, List, IfOk, IfErr};
ghost use Rattle.std.specs.Option.{option_map};
ghost use Rattle.rept_elf.specs.Image.{file_of, segments_of};
ghost use Rattle.rept_dump.specs.Dump.{core_of, exe_of};
ghost use Rattle.rept_ports.specs.Port.{Port, PortMove, move};
ghost use Rattle.rept_steps.specs.Runs.{course_of};
ghost use Rattle.rept_moments.specs.Courses.{IsCourseOf};
ghost use Rattle.rept_findings.specs.Shown.{SessionTold, session_told};
ghost use Rattle.rept_found.specs.Crash.{crash_of, means};
ghost use Rattle.rept_amo.specs.Atomic.{atomic_rules};
ghost use Rattle.rept_opening.specs.Beyond.{executable_of};
ghost use Rattle.rept_opening.specs.Domains.{means_of};
ghost use Rattle.rept_opening.specs.Opened.{crash_run};
ghost use Rattle.rept_opening.specs.Reading.{AreNotesOf};
ghost use Rattle.rept_opening.specs.Report.{AreEndsOf, HasNoReport, IsAsked};
ghost use Rattle.rept_opening.specs.TraceRun.{FitsDump};

use crate::analysis::{Basis, analyse, basis_of};
use crate::beyond::open_beyond;
use crate::dumping::CrashImages;
use crate::refusal::Refusal;
use crate::words::Domain;
use rept_dump::Dump;
use rept_findings::Findings;
use rept_known::Both;
use rept_partial::Range;
use rept_ports::{Sink, Source};
use rept_span::Transfer;
use rept_steps::Run;
use std::alloc::Global;

/// What is told of a crash beside its report.
#[derive(Clone, Copy)]
pub struct Circumstances {
    /// how many packets the run was read without
    pub skipped: u32,
    /// the signal that ended the process, by the number that Linux gives to it
    pub signal: u16,
}

/// What is asked of a report: the lines of a session, or the packets of a debugger. `asks` relates
/// what a session tells of a report, the signal, and what was done to both ports, to an end.
pub trait Asking {
    /// How the questions ended that arrived on an input and were answered on an output.
    type End;

    ghost asks: { Self → SessionTold → ℕ → PortMove Port → PortMove Port → Self.End → Type 0 };

    /// Answers what arrives on the input, by what was found.
    fn ask<F: Findings, S: Source, K: Sink>(
        &mut self,
        alloc: Global,
        findings: &F,
        circumstances: Circumstances,
        input: &mut S,
        out: &mut K,
    ) -> Self::End
        ensures { asks self.old (session_told (F.shown findings.now) circumstances.skipped (F.reasons findings.now)) circumstances.signal (move (S.port input.old) (S.port input.new)) (move (K.port out.old) (K.port out.new)) result };
}

/// Analyses a run that ends in a dump, with values followed in a domain, and answers what is asked
/// of its report, and of what is inferred beyond it where that is the domain and the run is one
/// path. `images` are the files of the dump. The refusals are a conflict of the closure, where no
/// execution ends in the dump, one of what is inferred, where no admitted execution does, and want
/// of memory. Nothing was asked then.
pub fn open_report<A: Asking, S: Source, K: Sink>(
    alloc: Global,
    domain: Domain,
    run: &Run,
    dump: &Dump<'_>,
    images: CrashImages<'_>,
    asking: &mut A,
    input: &mut S,
    out: &mut K,
) -> Result<A::End, Refusal>
    requires fits { FitsDump dump.now run.now }
    requires core { segments_of images.core ≡ core_of dump.now }
    requires exe { option_map file_of images.executable ≡ executable_of (exe_of dump.now) }
    ensures asked { (notes : List (List ℕ)) → AreNotesOf dump.now notes → IfOk result (IsAsked (A.asks asking.old) (crash_run (means_of domain) (crash_of dump.now notes) run.now) (move (S.port input.old) (S.port input.new)) (move (K.port out.old) (K.port out.new))) }
    ensures refused { (notes : List (List ℕ)) → AreNotesOf dump.now notes → IfErr result (HasNoReport (crash_run (means_of domain) (crash_of dump.now notes) run.now)) }
    ensures unread { IfErr result (λ _. (input.new ≡ input.old) × (out.new ≡ out.old)) }
{
    match domain {
        Domain::Ranges => open_by::<Range, A, S, K>(alloc, run, dump, asking, input, out),
        Domain::KnownBits => open_by::<Both, A, S, K>(alloc, run, dump, asking, input, out),
        Domain::Inferred => open_beyond::<A, S, K>(alloc, run, dump, images, asking, input, out),
    }
}

/// Analyses the run with values followed as sets of `W`, and answers what is asked.
pub fn open_by<W: Transfer, A: Asking, S: Source, K: Sink>(
    alloc: Global,
    run: &Run,
    dump: &Dump<'_>,
    asking: &mut A,
    input: &mut S,
    out: &mut K,
) -> Result<A::End, Refusal>
    requires fits { FitsDump dump.now run.now }
    ensures asked { (notes : List (List ℕ)) → AreNotesOf dump.now notes → IfOk result (IsAsked (A.asks asking.old) (crash_run (means W.sets W.moves atomic_rules) (crash_of dump.now notes) run.now) (move (S.port input.old) (S.port input.new)) (move (K.port out.old) (K.port out.new))) }
    ensures refused { (notes : List (List ℕ)) → AreNotesOf dump.now notes → IfErr result (HasNoReport (crash_run (means W.sets W.moves atomic_rules) (crash_of dump.now notes) run.now)) }
    ensures unread { IfErr result (λ _. (input.new ≡ input.old) × (out.new ≡ out.old)) }
{
    match basis_of(alloc, run, dump) {
        Ok(basis) => open_over::<W, A, S, K>(alloc, run, &basis, dump, asking, input, out),
        Err(_) => Err(Refusal::OutOfMemory),
    }
}

/// Analyses the run over what the analysis rests on, and answers what is asked.
fn open_over<W: Transfer, A: Asking, S: Source, K: Sink>(
    alloc: Global,
    run: &Run,
    basis: &Basis<'_>,
    dump: &Dump<'_>,
    asking: &mut A,
    input: &mut S,
    out: &mut K,
) -> Result<A::End, Refusal>
    requires fits { FitsDump dump.now run.now }
    requires course { IsCourseOf (course_of run.now) basis.now.paths.ways }
    requires ended { AreEndsOf dump.now run.now basis.now.ends }
    ensures asked { (notes : List (List ℕ)) → AreNotesOf dump.now notes → IfOk result (IsAsked (A.asks asking.old) (crash_run (means W.sets W.moves atomic_rules) (crash_of dump.now notes) run.now) (move (S.port input.old) (S.port input.new)) (move (K.port out.old) (K.port out.new))) }
    ensures refused { (notes : List (List ℕ)) → AreNotesOf dump.now notes → IfErr result (HasNoReport (crash_run (means W.sets W.moves atomic_rules) (crash_of dump.now notes) run.now)) }
    ensures unread { IfErr result (λ _. (input.new ≡ input.old) × (out.new ≡ out.old)) }
{
    match analyse::<W>(alloc, run, basis, dump) {
        Ok(found) => {
            let circumstances = Circumstances {
                skipped: run.skipped,
                signal: dump.status().signal,
            };
            Ok(ask_found(alloc, found, circumstances, asking, input, out))
        }
        Err(refusal) => Err(refusal),
    }
}

/// Answers by findings that are let go when all is answered.
fn ask_found<A: Asking, F: Findings + Drop, S: Source, K: Sink>(
    alloc: Global,
    findings: F,
    circumstances: Circumstances,
    asking: &mut A,
    input: &mut S,
    out: &mut K,
) -> A::End
    ensures { A.asks asking.old (session_told (F.shown findings) circumstances.skipped (F.reasons findings)) circumstances.signal (move (S.port input.old) (S.port input.new)) (move (K.port out.old) (K.port out.new)) result }
{
    asking.ask(alloc, &findings, circumstances, input, out)
}
