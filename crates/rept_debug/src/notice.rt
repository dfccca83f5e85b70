//! The line that tells from which packet a run was rebuilt.

ghost use Rattle.std.specs.Prelude.{◌≡◌, OnErr, OnOk, IfOk};
ghost use Rattle.rept_ports.specs.Port.{move};
ghost use Rattle.rept_debug.specs.Debugged.{IsNoticed, IsWritten, notice_line};

use rept_ports::{Sink, write_all};
use rept_word::{OutOfMemory, Text};
use std::alloc::Global;

/// The line.
fn line(alloc: Global, from: u32) -> Result<Text, OutOfMemory>
    ensures { IfOk result (λ text. text ≡ notice_line from) }
{
    let mut text = Text::new(alloc);
    text.push(b"the path begins at packet ")?;
    text.push_decimal(from)?;
    text.push(b"\n")?;
    Ok(text)
}

/// Writes that line. Where it can't be written, nothing is made of that. The only refusal is out of
/// memory, and nothing is written then.
fn notice<E: Sink>(alloc: Global, errors: &mut E, from: u32) -> Result<(), OutOfMemory>
    ensures written { OnOk result (IsWritten from (move (E.port errors.old) (E.port errors.new))) }
    ensures unwritten { OnErr result (errors.new ≡ errors.old) }
{
    let text = line(alloc, from)?;
    let _ = write_all(errors, text.bytes());
    Ok(())
}

/// Writes the line that names the packet at which the run begins, unless it was asked for.
pub fn noticed<E: Sink>(
    alloc: Global,
    errors: &mut E,
    asked: u32,
    from: u32,
) -> Result<(), OutOfMemory>
    ensures noticed { OnOk result (IsNoticed asked from (move (E.port errors.old) (E.port errors.new))) }
    ensures unwritten { OnErr result (errors.new ≡ errors.old) }
{
    if from == asked {
        return Ok(());
    }
    notice(alloc, errors, from)
}
