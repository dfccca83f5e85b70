//! The code of a program, as a session tells it at each moment.

ghost use Rattle.std.specs.Prelude.{◌≡◌, ◌<◌, ◌^◌};
ghost use Rattle.std.specs.List.{list_any};
ghost use Rattle.rept_dump.specs.Dump.{exe_of};
ghost use Rattle.rept_dump.specs.Program.{contents};
ghost use Rattle.rept_steps.specs.Course.{Course};
ghost use Rattle.rept_steps.specs.Runs.{course_of};
ghost use Rattle.rept_found.specs.ProgramCode.{byte_of_half, code_byte, is_code, is_executed, size_of, takes};

use rept_dump::Dump;
use rept_isa::StepRow;
use rept_steps::Run;

/// The byte of code at an address, of an executable segment of the files: where a step of the run
/// was executed, and in the functions that the files name. None elsewhere.
pub fn code_byte(run: &Run, dump: &Dump<'_>, address: u32) -> Option<u8>
    ensures { result ≡ code_byte (course_of run.now) (contents (exe_of dump.now)) address }
{
    match dump.half_of_code(address - address % 2) {
        Some(half) => {
            if is_code(run, dump, address) {
                Some(byte_of_half(address, half))
            } else {
                None
            }
        }
        None => None,
    }
}

/// The byte at an address of the half that has it.
fn byte_of_half(address: u32, half: u16) -> u8
    ensures { result ≡ byte_of_half address half }
{
    if address % 2 == 0 {
        (half % 256) as u8
    } else {
        (half / 256) as u8
    }
}

/// Whether the program has code at an address.
fn is_code(run: &Run, dump: &Dump<'_>, address: u32) -> bool
    ensures { result ≡ is_code (course_of run.now) (contents (exe_of dump.now)) address }
{
    dump.symbol(address).is_some() || is_executed(run, address)
}

/// Whether a step of some thread was executed at an address.
fn is_executed(run: &Run, address: u32) -> bool
    ensures { result ≡ is_executed (course_of run.now) address }
{
    run.threads
        .all()
        .iter()
        .any(|thread| has_step(thread.steps.rows(), address))
}

/// Whether one of these steps was executed at an address.
fn has_step(rows: &[StepRow], address: u32) -> bool
    ensures { result ≡ list_any (takes address) rows.now }
{
    rows.iter().any(|row| takes(row, address))
}

/// Whether one of the bytes of an executed instruction has an address.
fn takes(row: &StepRow, address: u32) -> bool
    ensures { result ≡ takes address row.now }
{
    row.at <= address && address - row.at < size_of(row)
}

/// How many bytes an executed instruction takes.
fn size_of(row: &StepRow) -> u32
    ensures { result ≡ size_of row.now }
{
    if row.short { 2 } else { 4 }
}
