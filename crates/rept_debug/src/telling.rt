//! Writing why no dialog is held.

ghost use Rattle.rept_ports.specs.Port.{move};
ghost use Rattle.rept_opening.specs.Delivered.{Delivers};
ghost use Rattle.rept_debug.specs.Process.{TellsNoTalk, TellsRefusal};

use crate::no_talk::GdbError;
use rept_opening::{ExitStatus, Refusal, deliver, tell, tell_failed};
use rept_ports::Sink;
use std::alloc::Global;

/// Writes the line of a session's refusal, which of words is this program's own.
fn tell_refusal<E: Sink>(alloc: Global, errors: &mut E, refusal: &Refusal) -> ExitStatus
    ensures { Delivers (TellsRefusal refusal.now) (move (E.port errors.old) (E.port errors.new)) result }
{
    match refusal {
        Refusal::Usage => deliver(
            errors,
            b"usage: rept_gdb [open|bits|infer] EXE CORE TRACE [FROM] | rept_gdb maps CORE TRACE [FROM]\n",
            ExitStatus::Usage,
        ),
        _ => tell(alloc, errors, refusal),
    }
}

/// Writes why no dialog is held. Where it can't be written, nothing is made of that.
pub fn tell_no_talk<E: Sink>(alloc: Global, errors: &mut E, why: &GdbError)
    ensures { (told : ExitStatus) × Delivers (TellsNoTalk why.now) (move (E.port errors.old) (E.port errors.new)) told }
{
    let _ = match why {
        GdbError::Refused(refusal) => tell_refusal(alloc, errors, refusal),
        GdbError::LoadFault(name) => tell_failed(alloc, errors, name.as_str()),
    };
}
