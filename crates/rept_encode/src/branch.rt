//! Which steps are branches, and which way they went.

ghost use Rattle.std.specs.Prelude.{◌≡◌};
ghost use Rattle.rept_encode.specs.Bits.{passed, branch_row, start_bit};

use rept_isa::StepRow;
use rept_isa::number::plus;
use rept_path::flow::{Flow, flow_of};

/// Whether the row is that of a branch.
pub fn is_branch(row: &StepRow) -> bool
    ensures { result ≡ branch_row row.now }
{
    matches!(flow_of(&row.instr), Flow::Branch(_))
}

/// Whether the row is that of a branch that went on to the instruction after it.
pub fn is_passed(row: &StepRow) -> bool
    ensures { result ≡ passed row.now }
{
    match flow_of(&row.instr) {
        Flow::Branch(imm) => row.next != plus(row.at, imm),
        _ => false,
    }
}

/// The branch bit of a start packet at the row: false only where a branch stands there that was
/// taken.
pub fn start_bit(row: &StepRow) -> bool
    ensures { result ≡ start_bit row.now }
{
    !is_branch(row) || is_passed(row)
}
