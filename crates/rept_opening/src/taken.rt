//! Which premises are taken.

ghost use Rattle.std.specs.Prelude.{◌≡◌, is_some};
ghost use Rattle.std.specs.List.{list_any};
ghost use Rattle.std.specs.Option.{option_map};
ghost use Rattle.rept_elf.specs.Image.{file_of};
ghost use Rattle.rept_opening.specs.Taken.{calls_kernel, taken_by};

use rept_elf::Image;
use rept_findings::PremisesTaken;
use rept_isa::{StepRow, is_call};

/// Whether a step is a call.
fn calls_kernel(row: &StepRow) -> bool
    ensures { result ≡ calls_kernel row.now }
{
    is_call(&row.instr)
}

/// Whether one of the steps is a call.
fn has_call(rows: &[StepRow]) -> bool
    ensures { result ≡ list_any calls_kernel rows.now }
{
    rows.iter().any(|row| calls_kernel(row))
}

/// Whether the path begins with an executable.
fn is_begun(begun: Option<Image<'_>>) -> bool
    ensures { result ≡ is_some (option_map file_of begun.entry) }
{
    match begun {
        Some(_) => true,
        None => false,
    }
}

/// Which premises are taken of a path of these steps, by the executable with which it begins, if it
/// does.
pub fn premises_taken(begun: Option<Image<'_>>, rows: &[StepRow]) -> PremisesTaken
    ensures { result ≡ taken_by (option_map file_of begun.entry) rows.now }
{
    let calls = has_call(rows);
    PremisesTaken {
        read_only: true,
        answers: calls,
        first_memory: is_begun(begun),
        fresh_pages: calls,
    }
}
