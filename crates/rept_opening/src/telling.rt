//! Writing the line of a refusal.

ghost use Rattle.std.specs.Prelude.{◌≡◌, IfOk};
ghost use Rattle.rept_ports.specs.Port.{move};
ghost use Rattle.rept_opening.specs.Delivered.{Delivers, SaysOrNoMemory, SaysRefusal, TellsName};
ghost use Rattle.rept_opening.specs.Mapped.{name_line};

use crate::refusal::Refusal;
use crate::status::ExitStatus;
use rept_findings::push_visible;
use rept_ports::{Sink, write_all};
use rept_word::{OutOfMemory, Text};
use std::alloc::Global;

/// Writes the line of a refusal and answers its status; where memory runs out, the line and status
/// of that; where the output fails, its status.
pub fn tell<K: Sink>(alloc: Global, out: &mut K, refusal: &Refusal) -> ExitStatus
    ensures { Delivers (SaysOrNoMemory refusal.now) (move (K.port out.old) (K.port out.new)) result }
{
    match refusal.line(alloc) {
        Ok(line) => deliver(out, line.bytes(), refusal.status()),
        Err(_) => tell_no_memory(out),
    }
}

/// Writes the line of running out of memory, which takes none, and answers its status, or that the
/// output failed: for callers that have no memory to read the words.
pub fn tell_no_memory<K: Sink>(out: &mut K) -> ExitStatus
    ensures { Delivers (SaysRefusal Refusal.OutOfMemory) (move (K.port out.old) (K.port out.new)) result }
{
    deliver(out, b"out-of-memory\n", ExitStatus::OutOfMemory)
}

/// Writes a text, and answers the status, or that the output failed.
pub fn deliver<K: Sink>(out: &mut K, text: &[u8], status: ExitStatus) -> ExitStatus
    ensures { Delivers (λ whole end. (whole ≡ text.now) × (end ≡ status)) (move (K.port out.old) (K.port out.new)) result }
{
    match write_all(out, text) {
        Ok(()) => status,
        Err(_) => ExitStatus::OutputFault,
    }
}

/// The line of a load of a name that failed: `load-fault NAME`, with `?` for what is no visible
/// character.
fn failed_line(alloc: Global, name: &str) -> Result<Text, OutOfMemory>
    ensures { IfOk result (λ text. text ≡ name_line name.now) }
{
    let mut text = Text::new(alloc);
    text.push(b"load-fault ")?;
    push_visible(&mut text, name.as_bytes())?;
    text.push(b"\n")?;
    Ok(text)
}

/// Writes that the load of the mapped file of this name failed, and answers the status of that;
/// where memory runs out, the line and status of that; where the output fails, its status.
pub fn tell_failed<K: Sink>(alloc: Global, out: &mut K, name: &str) -> ExitStatus
    ensures { Delivers (TellsName name.now) (move (K.port out.old) (K.port out.new)) result }
{
    match failed_line(alloc, name) {
        Ok(line) => deliver(out, line.bytes(), ExitStatus::LoadFault),
        Err(_) => tell_no_memory(out),
    }
}
