//! Holding a session over what an analysis found.

ghost use Rattle.std.specs.Prelude.{IfSome};
ghost use Rattle.rept_ports.specs.Port.{move};
ghost use Rattle.rept_findings.specs.Shown.{session_told};
ghost use Rattle.rept_opening.specs.Delivered.{Delivers};
ghost use Rattle.rept_app.specs.Ends.{IsCaused};
ghost use Rattle.rept_app.specs.Held.{HoldsSession, IsHeldSession};

use rept_findings::Findings;
use rept_opening::{Asking, Circumstances, ExitStatus, deliver};
use rept_ports::{Sink, Source};
use rept_session::{Served, serve};
use std::alloc::Global;

/// Answers the lines of the input by what was found, and tells what ended the session. `skipped` is
/// the count of packets that the path was read without.
pub fn hold<F: Findings, S: Source, K: Sink>(
    alloc: Global,
    findings: &F,
    skipped: u32,
    input: &mut S,
    out: &mut K,
) -> ExitStatus
    ensures text { IfSome (S.port input.old).bytes (λ bytes. Delivers (IsHeldSession (session_told (F.shown findings.now) skipped (F.reasons findings.now)) (record { input = bytes; left = (S.port input.new).bytes })) (move (K.port out.old) (K.port out.new)) result) }
    ensures causes { IsCaused (move (S.port input.old) (S.port input.new)) (move (K.port out.old) (K.port out.new)) result }
{
    match serve(alloc, findings, skipped, input, out) {
        Served::Ended => ExitStatus::Ok,
        Served::ReadFault => deliver(out, b"input-fault\n", ExitStatus::InputFault),
        Served::TooMuchInput => deliver(out, b"too-much-input\n", ExitStatus::TooMuchInput),
        Served::OutputFault => ExitStatus::OutputFault,
        Served::OutOfMemory => deliver(out, b"out-of-memory\n", ExitStatus::OutOfMemory),
    }
}

/// A session over the report of a crash, which ends with a status.
#[derive(Clone, Copy)]
pub struct LineSession {}

impl Asking for LineSession {
    type End = ExitStatus;

    ghost asks = { λ _. HoldsSession };

    fn ask<F: Findings, S: Source, K: Sink>(
        &mut self,
        alloc: Global,
        findings: &F,
        circumstances: Circumstances,
        input: &mut S,
        out: &mut K,
    ) -> ExitStatus {
        hold(alloc, findings, circumstances.skipped, input, out)
    }
}
