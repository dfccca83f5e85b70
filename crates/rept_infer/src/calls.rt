//! From which row on pages keep their protection.

ghost use Rattle.std.specs.Prelude.{◌≡◌, ◌+◌, ◌<◌, ℕ, length, true, Some, slice_get};
ghost use Rattle.rept_isa.specs.declared.instr.Instr.TheVariants.{Ecall};
ghost use Rattle.rept_machine.specs.State.{State};
ghost use Rattle.rept_narrow.specs.Admitted.{Story, IsSettled, changes_pages, leaves_pages};
ghost use Rattle.rept_narrow.specs.Rules.{HasSets};

use rept_isa::{Instr, StepRow, register};
use rept_machine::call_of;
use rept_narrow::Table;
use rept_partial::Partial;

/// The number of mmap2, whose flags are in x13.
const MMAP: u32 = 222;

/// Whether a call of this number, with these flags, may take pages away or protect them.
fn changes_pages(number: u32, flags: u32) -> bool
    ensures { result ≡ changes_pages number flags }
{
    number == 215 || number == 216 || number == 226 || (number == MMAP && !(flags & 16 == 0))
}

/// Whether a call of this number, with these flags, is listed and leaves each page's protection as
/// it is.
fn leaves_pages(number: u32, flags: u32) -> bool
    ensures { result ≡ leaves_pages number flags }
{
    call_of(number).is_some() && !changes_pages(number, flags)
}

/// Whether the call of a row is known to leave each page's protection as it is.
fn call_leaves_pages(table: &Table, index: u32) -> bool
    requires inside { index + 1 < table.now.points }
    ensures { result ≡ true → (story : Story) (run : ℕ → State) → index < length story.rows → HasSets story table.now run → leaves_pages ((run index).register 17) ((run index).register 13) ≡ true }
{
    // for the proof alone
    let _points = table.points();
    match table.at(index, register(17)).as_exact() {
        None => false,
        Some(MMAP) => match table.at(index, register(13)).as_exact() {
            None => false,
            Some(flags) => leaves_pages(MMAP, flags),
        },
        Some(number) => leaves_pages(number, 0),
    }
}

/// Whether a row is known to leave each page's protection as it is.
fn row_leaves_pages(table: &Table, index: u32, row: &StepRow) -> bool
    requires inside { index + 1 < table.now.points }
    ensures { result ≡ true → (story : Story) (run : ℕ → State) → index < length story.rows → HasSets story table.now run → row.now.instr ≡ Ecall → leaves_pages ((run index).register 17) ((run index).register 13) ≡ true }
{
    match row.instr {
        Instr::Ecall => call_leaves_pages(table, index),
        _ => true,
    }
}

/// The row from which on each call is known to leave each page's protection as it is.
pub fn settled_from(table: &Table, rows: &[StepRow]) -> u32
    requires points { table.now.points ≡ length rows.now + 1 }
    ensures settled { (story : Story) (run : ℕ → State) → story.rows ≡ rows.now → HasSets story table.now run → IsSettled story run result }
{
    let last = table.points() - 1;
    for back in 0..last {
        let index = last - 1 - back;
        if !row_leaves_pages(table, index, &rows[index as usize]) {
            return index + 1;
        }
    }
    0
}
