//! From a run and its dump to the session, or the line of a conflict.

ghost use Rattle.std.specs.Prelude.{◌≡◌, ◌⊎◌, ℕ, List, IfSome};
ghost use Rattle.std.specs.Option.{option_map};
ghost use Rattle.rept_elf.specs.Image.{file_of, segments_of};
ghost use Rattle.rept_dump.specs.Dump.{core_of, exe_of};
ghost use Rattle.rept_ports.specs.Port.{move};
ghost use Rattle.rept_found.specs.Crash.{crash_of};
ghost use Rattle.rept_opening.specs.Delivered.{Delivers};
ghost use Rattle.rept_opening.specs.Beyond.{executable_of};
ghost use Rattle.rept_opening.specs.Domains.{means_of};
ghost use Rattle.rept_opening.specs.Reading.{AreNotesOf};
ghost use Rattle.rept_app.specs.Study.{Studies, IsStudied, StudyHolds};
ghost use Rattle.rept_opening.specs.Opened.{crash_run};
ghost use Rattle.rept_opening.specs.TraceRun.{FitsDump};
ghost use Rattle.rept_opening.specs.True.{IsExcluded};

use crate::hold::LineSession;
use rept_dump::Dump;
use rept_opening::{CrashImages, Domain, ExitStatus, open_report, tell};
use rept_ports::{Sink, Source};
use rept_steps::Run;
use std::alloc::Global;

/// Analyses a run that ends in a dump, with values followed in a domain, and answers the input, or
/// tells a conflict.
pub fn study<S: Source, K: Sink>(
    alloc: Global,
    domain: Domain,
    run: &Run,
    dump: &Dump<'_>,
    images: CrashImages<'_>,
    input: &mut S,
    out: &mut K,
) -> ExitStatus
    requires fits { FitsDump dump.now run.now }
    requires core { segments_of images.core ≡ core_of dump.now }
    requires exe { option_map file_of images.executable ≡ executable_of (exe_of dump.now) }
    ensures text { (notes : List (List ℕ)) → AreNotesOf dump.now notes → IfSome (S.port input.old).bytes (λ bytes. Delivers (Studies (crash_run (means_of domain) (crash_of dump.now notes) run.now) (record { input = bytes; left = (S.port input.new).bytes })) (move (K.port out.old) (K.port out.new)) result) }
    ensures causes { (notes : List (List ℕ)) → AreNotesOf dump.now notes → IsStudied (crash_run (means_of domain) (crash_of dump.now notes) run.now) (move (S.port input.old) (S.port input.new)) (move (K.port out.old) (K.port out.new)) result }
    ensures stays { (notes : List (List ℕ)) → AreNotesOf dump.now notes → (input.new ≡ input.old) ⊎ StudyHolds (crash_run (means_of domain) (crash_of dump.now notes) run.now) result }
    ensures impossible { (notes : List (List ℕ)) → AreNotesOf dump.now notes → result ≡ ExitStatus.Inconsistent → IsExcluded (crash_run (means_of domain) (crash_of dump.now notes) run.now) }
{
    let mut session = LineSession {};
    match open_report::<LineSession, S, K>(
        alloc,
        domain,
        run,
        dump,
        images,
        &mut session,
        input,
        out,
    ) {
        Ok(status) => status,
        Err(refusal) => tell(alloc, out, &refusal),
    }
}
