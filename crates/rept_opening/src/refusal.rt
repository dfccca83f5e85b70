//! What ends a call, with its line.

ghost use Rattle.std.specs.Prelude.{◌≡◌, ◌++◌, IfOk, OnOk, codes};
ghost use Rattle.std.specs.Fmt.{decimal};
ghost use Rattle.rept_findings.specs.Texts.{place_text};
ghost use Rattle.rept_opening.specs.Lines.{line_of, words_of, status_of, status_of_path, file_word, elf_fault_text, core_fault_text, map_fault_text, contradiction_text, conflict_text, two_values_text, cell_text, value_text_in};

use crate::path_line::push_path_fault;
use crate::status::ExitStatus;
use crate::texts::push_numbered;
use rept_dump::CoreFault;
use rept_elf::ElfFault;
use rept_findings::{Place, push_place, push_thread_named};
use rept_found::Contradiction;
use rept_isa::Reg;
use rept_maps::MapFault;
use rept_path::PathFault;
use rept_reason::Cell;
use rept_report::ConflictKind;
use rept_word::{OutOfMemory, Text};
use std::alloc::Global;

/// One of the three files of a crash.
#[derive(Clone, Copy)]
pub enum FileKind {
    Exe,
    Core,
    Trace,
}

/// What ends a call, or its session.
#[derive(Clone, Copy)]
pub enum Refusal {
    Usage,
    LoadFault(FileKind),
    NoFile(FileKind),
    TooLarge(FileKind),
    /// The executable is no image that is read.
    Executable(ElfFault),
    /// The core file is no image that is read.
    CoreImage(ElfFault),
    /// The core file's notes don't give the registers of its threads.
    Core(CoreFault),
    /// The core file's list of mapped files is refused.
    Maps(MapFault),
    /// The trace is refused, or tells no run.
    Path(PathFault),
    Inconsistent(Contradiction),
    /// By what was inferred beyond the report, no value is left for a register at a point.
    Refuted { point: u32, reg: Reg },
    InputFault,
    OutOfMemory,
    TooMuchInput,
}

impl Refusal {
    /// The status that goes with it.
    pub fn status(&self) -> ExitStatus
        ensures { result ≡ status_of self.now }
    {
        match self {
            Refusal::Usage => ExitStatus::Usage,
            Refusal::LoadFault(_) => ExitStatus::LoadFault,
            Refusal::NoFile(_) => ExitStatus::NoFile,
            Refusal::TooLarge(_) => ExitStatus::TooLarge,
            Refusal::Executable(_) => ExitStatus::Executable,
            Refusal::CoreImage(_) | Refusal::Core(_) | Refusal::Maps(_) => ExitStatus::Core,
            Refusal::Path(fault) => path_status(fault),
            Refusal::Inconsistent(_) | Refusal::Refuted { .. } => ExitStatus::Inconsistent,
            Refusal::InputFault => ExitStatus::InputFault,
            Refusal::OutOfMemory => ExitStatus::OutOfMemory,
            Refusal::TooMuchInput => ExitStatus::TooMuchInput,
        }
    }

    /// The line that is written before the status. The only refusal is out of memory.
    pub fn line(&self, alloc: Global) -> Result<Text, OutOfMemory>
        ensures { IfOk result (λ text. text ≡ line_of self.now) }
    {
        let mut text = Text::new(alloc);
        push_words(&mut text, self)?;
        text.push(b"\n")?;
        Ok(text)
    }
}

/// The words of the line, without its end.
fn push_words(text: &mut Text, refusal: &Refusal) -> Result<(), OutOfMemory>
    ensures { OnOk result (text.new ≡ text.old ++ words_of refusal.now) }
{
    match refusal {
        Refusal::Usage => text.push(
            b"usage: rept open|bits|infer EXE CORE TRACE [FROM] | rept self SEED STEPS | rept maps CORE TRACE [FROM] | rept infer maps CORE TRACE [FROM]",
        ),
        Refusal::LoadFault(file) => push_file(text, b"load-fault ", *file),
        Refusal::NoFile(file) => push_file(text, b"no-file ", *file),
        Refusal::TooLarge(file) => push_file(text, b"too-large ", *file),
        Refusal::Executable(fault) => push_elf_fault(text, b"executable ", fault),
        Refusal::CoreImage(fault) => push_elf_fault(text, b"core-image ", fault),
        Refusal::Core(fault) => push_core_fault(text, fault),
        Refusal::Maps(fault) => push_map_fault(text, fault),
        Refusal::Path(fault) => push_path_fault(text, fault),
        Refusal::Inconsistent(conflict) => push_contradiction(text, conflict),
        Refusal::Refuted { point, reg } => push_refuted(text, *point, *reg),
        Refusal::InputFault => text.push(b"input-fault"),
        Refusal::OutOfMemory => text.push(b"out-of-memory"),
        Refusal::TooMuchInput => text.push(b"too-much-input"),
    }
}

/// That a trace tells no run has a status of its own, running out of memory while it is rebuilt has
/// not.
fn path_status(fault: &PathFault) -> ExitStatus
    ensures { result ≡ status_of_path fault.now }
{
    match fault {
        PathFault::OutOfMemory => ExitStatus::OutOfMemory,
        _ => ExitStatus::Trace,
    }
}

/// The line's word and that of the file.
fn push_file(text: &mut Text, word: &[u8], file: FileKind) -> Result<(), OutOfMemory>
    ensures { OnOk result (text.new ≡ text.old ++ (word.now ++ file_word file)) }
{
    text.push(word)?;
    text.push(match file {
        FileKind::Exe => b"exe",
        FileKind::Core => b"core",
        FileKind::Trace => b"trace",
    })
}

/// The line's word, and the number of a fault of an image with its argument.
fn push_elf_fault(text: &mut Text, word: &[u8], fault: &ElfFault) -> Result<(), OutOfMemory>
    ensures { OnOk result (text.new ≡ text.old ++ (word.now ++ elf_fault_text fault.now)) }
{
    text.push(word)?;
    match fault {
        ElfFault::NotElf => text.push(b"1"),
        ElfFault::NotClass32 => text.push(b"2"),
        ElfFault::NotLittle => text.push(b"3"),
        ElfFault::NotRiscv => text.push(b"4"),
        ElfFault::WrongType(kind) => push_numbered(text, b"5 ", u64::from(*kind)),
        ElfFault::HeaderPastEnd => text.push(b"6"),
        ElfFault::EntrySize(size) => push_numbered(text, b"7 ", u64::from(*size)),
        ElfFault::TooMany(count) => push_numbered(text, b"8 ", u64::from(*count)),
        ElfFault::SegmentPastEnd(index) => push_numbered(text, b"9 ", u64::from(*index)),
        ElfFault::SegmentSize(index) => push_numbered(text, b"10 ", u64::from(*index)),
        ElfFault::AddressWrap(index) => push_numbered(text, b"11 ", u64::from(*index)),
    }
}

/// `core`, and the number of a fault of the notes with its argument.
fn push_core_fault(text: &mut Text, fault: &CoreFault) -> Result<(), OutOfMemory>
    ensures { OnOk result (text.new ≡ text.old ++ core_fault_text fault.now) }
{
    match fault {
        CoreFault::NoStatus => text.push(b"core 1"),
        CoreFault::ShortStatus(size) => push_numbered(text, b"core 2 ", *size),
        CoreFault::NotePastEnd(offset) => push_numbered(text, b"core 3 ", *offset),
        CoreFault::SeveralThreads(count) => push_numbered(text, b"core 4 ", *count),
        CoreFault::SameThread(pid) => push_numbered(text, b"core 5 ", u64::from(*pid)),
        CoreFault::TooManyThreads(count) => push_numbered(text, b"core 6 ", *count),
    }
}

/// `core`, and the number of a fault of the list of mapped files with its argument.
fn push_map_fault(text: &mut Text, fault: &MapFault) -> Result<(), OutOfMemory>
    ensures { OnOk result (text.new ≡ text.old ++ map_fault_text fault.now) }
{
    match fault {
        MapFault::NotePastEnd(offset) => push_numbered(text, b"core 3 ", *offset),
        MapFault::NoMap => text.push(b"core 7"),
        MapFault::BadMap(offset) => push_numbered(text, b"core 8 ", *offset),
        MapFault::TooManyMaps(count) => push_numbered(text, b"core 9 ", u64::from(*count)),
    }
}

/// A point and a register for which no value is left.
fn push_refuted(text: &mut Text, point: u32, reg: Reg) -> Result<(), OutOfMemory>
    ensures { OnOk result (text.new ≡ text.old ++ (codes "inconsistent infer " ++ decimal point ++ codes " x" ++ decimal reg)) }
{
    push_numbered(text, b"inconsistent infer ", u64::from(point))?;
    push_numbered(text, b" x", u64::from(reg.number()))?;
    Ok(())
}

/// A conflict with its place, and in a run of several threads ` of` and the thread.
fn push_contradiction(text: &mut Text, conflict: &Contradiction) -> Result<(), OutOfMemory>
    ensures { OnOk result (text.new ≡ text.old ++ contradiction_text conflict.now) }
{
    push_conflict(text, conflict.at.place, &conflict.kind)?;
    push_thread_named(text, conflict.threads, conflict.at.thread)?;
    Ok(())
}

fn push_conflict(text: &mut Text, place: Place, kind: &ConflictKind) -> Result<(), OutOfMemory>
    ensures { OnOk result (text.new ≡ text.old ++ conflict_text place kind.now) }
{
    match kind {
        ConflictKind::TwoValues { cell, v, w, .. } => push_two_values(text, place, cell, *v, *w),
        ConflictKind::EmptyRange { reg, .. } => push_empty_range(text, place, *reg),
        ConflictKind::WrongTurn { .. } => push_wrong_turn(text, place),
    }
}

fn push_empty_range(text: &mut Text, place: Place, reg: Reg) -> Result<(), OutOfMemory>
    ensures { OnOk result (text.new ≡ text.old ++ (codes "inconsistent empty-range " ++ place_text place ++ codes " x" ++ decimal reg)) }
{
    text.push(b"inconsistent empty-range ")?;
    push_place(text, place)?;
    push_numbered(text, b" x", u64::from(reg.number()))?;
    Ok(())
}

fn push_wrong_turn(text: &mut Text, place: Place) -> Result<(), OutOfMemory>
    ensures { OnOk result (text.new ≡ text.old ++ (codes "inconsistent wrong-turn " ++ place_text place)) }
{
    text.push(b"inconsistent wrong-turn ")?;
    push_place(text, place)?;
    Ok(())
}

fn push_two_values(
    text: &mut Text,
    place: Place,
    cell: &Cell,
    v: u32,
    w: u32,
) -> Result<(), OutOfMemory>
    ensures { OnOk result (text.new ≡ text.old ++ two_values_text place cell.now v w) }
{
    text.push(b"inconsistent two-values ")?;
    push_place(text, place)?;
    text.push(b" ")?;
    push_cell(text, cell)?;
    text.push(b" ")?;
    push_value(text, cell, v)?;
    text.push(b" ")?;
    push_value(text, cell, w)?;
    Ok(())
}

/// A register as `x5`, a byte as its address.
fn push_cell(text: &mut Text, cell: &Cell) -> Result<(), OutOfMemory>
    ensures { OnOk result (text.new ≡ text.old ++ cell_text cell.now) }
{
    match cell {
        Cell::Register(r) => {
            text.push(b"x")?;
            text.push_decimal(u32::from(r.number()))
        }
        Cell::Byte(address) => text.push_word(*address),
    }
}

/// A register's value as a word, a byte's as two digits.
fn push_value(text: &mut Text, cell: &Cell, value: u32) -> Result<(), OutOfMemory>
    ensures { OnOk result (text.new ≡ text.old ++ value_text_in cell.now value) }
{
    match cell {
        Cell::Register(_) => text.push_word(value),
        Cell::Byte(_) => text.push_byte((value % 256) as u8),
    }
}
