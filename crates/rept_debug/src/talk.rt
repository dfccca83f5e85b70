//! From a trace to the end of the dialog over its report.

ghost use Rattle.std.specs.Prelude.{◌≡◌, ◌<◌, ◌^◌, ℕ, List, length, IfOk, IfErr};
ghost use Rattle.rept_streams.specs.Runs.Kind.{is_several};
ghost use Rattle.rept_elf.specs.Image.{segments_of};
ghost use Rattle.rept_dump.specs.Dump.{core_of, exe_of};
ghost use Rattle.rept_ports.specs.Port.{move};
ghost use Rattle.rept_found.specs.Crash.{crash_of};
ghost use Rattle.rept_opening.specs.Reading.{AreNotesOf, HasNotes};
ghost use Rattle.rept_opening.specs.Opened.{crash_trace};
ghost use Rattle.rept_debug.specs.Debugged.{IsHeldTrace, IsRefusedTrace, MayGreet, Notices, streams};
ghost use Rattle.rept_stub.specs.CrashFiles.{program_of};
ghost use Rattle.rept_debug.specs.Debugged.{HoldsDialog};

use crate::begin::begin_analysis;
use crate::dialog::{Greeting, SessionEnd, go_on, greet};
use crate::files::images_of;
use crate::notice::noticed;
use rept_dump::Dump;
use rept_findings::Findings;
use rept_opening::{Asking, Circumstances, OpenOptions, Refusal, open_report};
use rept_ports::{Sink, Source};
use rept_stub::{ProcessFiles, Setting};
use std::alloc::Global;

/// A dialog that was held.
#[derive(Clone, Copy)]
pub struct GdbSession {
    /// the number of the packet from which the run was rebuilt
    pub from: u32,
    /// how it ended
    pub end: SessionEnd,
}

/// Answers a debugger up to its first packet that needs a report; then rebuilds the run of a trace
/// over the dump in which it ends, and goes on over its report. `files` are those of the dump.
/// A trace of several streams wants the registers of each thread. At a refusal what was answered
/// before it stands.
pub fn debug_trace<S: Source, K: Sink, E: Sink>(
    alloc: Global,
    trace: &[u8],
    dump: &Dump<'_>,
    files: ProcessFiles<'_>,
    manner: OpenOptions,
    input: &mut S,
    out: &mut K,
    errors: &mut E,
) -> Result<GdbSession, Refusal>
    requires small { length trace.now < 2 ^ 32 }
    requires noted { HasNotes (is_several trace.now) dump.now }
    requires core { segments_of files.core ≡ core_of dump.now }
    requires exe { program_of files.program ≡ exe_of dump.now }
    ensures held { (notes : List (List ℕ)) → AreNotesOf dump.now notes → IfOk result (IsHeldTrace (crash_trace (crash_of dump.now notes) trace.now manner) files.entry (streams (move (S.port input.old) (S.port input.new)) (move (K.port out.old) (K.port out.new)) (move (E.port errors.old) (E.port errors.new)))) }
    ensures refused { (notes : List (List ℕ)) → AreNotesOf dump.now notes → IfErr result (IsRefusedTrace (crash_trace (crash_of dump.now notes) trace.now manner)) }
    ensures greeted { IfErr result (λ _. MayGreet (move (S.port input.old) (S.port input.new)) (move (K.port out.old) (K.port out.new))) }
    ensures noticed { IfErr result (λ _. Notices (move (E.port errors.old) (E.port errors.new))) }
{
    let greeting = greet(alloc, input, out);
    let mut dialog = OpenDialog { greeting, files };
    let begun = match begin_analysis(alloc, trace, dump, manner) {
        Ok(begun) => begun,
        Err(fault) => return Err(Refusal::Path(fault)),
    };
    match noticed(alloc, errors, manner.from, begun.from) {
        Ok(()) => {}
        Err(_) => return Err(Refusal::OutOfMemory),
    }
    match open_report::<OpenDialog<'_>, S, K>(
        alloc,
        manner.domain,
        &begun.run,
        dump,
        images_of(&files),
        &mut dialog,
        input,
        out,
    ) {
        Ok(end) => Ok(GdbSession {
            from: begun.from,
            end,
        }),
        Err(refusal) => Err(refusal),
    }
}

/// A dialog that began before the report, and the files of the crash.
#[derive(Drop)]
pub struct OpenDialog<'a> {
    /// what was answered before
    pub greeting: Greeting,
    /// what the files hold
    pub files: ProcessFiles<'a>,
}

impl<'a> Asking for OpenDialog<'a> {
    type End = SessionEnd;

    ghost asks = { HoldsDialog };

    fn ask<F: Findings, S: Source, K: Sink>(
        &mut self,
        alloc: Global,
        findings: &F,
        circumstances: Circumstances,
        input: &mut S,
        out: &mut K,
    ) -> SessionEnd {
        let setting = Setting {
            skipped: circumstances.skipped,
            signal: circumstances.signal,
            files: self.files,
        };
        go_on(alloc, findings, setting, &mut self.greeting, input, out)
    }
}
