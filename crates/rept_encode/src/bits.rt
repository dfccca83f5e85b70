//! Branch bits that wait to be sent.

ghost use Rattle.std.specs.Prelude.{◌≡◌, ◌+◌, ◌^◌, ◌<◌, ◌≤◌, ◌++◌, [], if◌then◌else◌};
ghost use Rattle.rept_encode.specs.Bits.{bit_list, count};
ghost use Rattle.rept_encode.specs.State.{AreBits, waiting_bits};

use crate::branch::{is_branch, is_passed};
use rept_isa::StepRow;

/// Branch bits that wait to be sent: the low `count` bits of the map, the oldest the lowest.
#[derive(Clone, Copy)]
pub struct PendingBranches {
    pub count: u8,
    pub map: u32,
}

/// No bits.
pub fn no_bits() -> PendingBranches
    ensures count { result.count ≡ 0 }
    ensures map { result.map ≡ 0 }
{
    PendingBranches { count: 0, map: 0 }
}

/// What the bit of this number is worth in a map.
fn worth(number: u8, set: bool) -> u32
    requires { number ≤ 30 }
    ensures { result ≡ (if set then 2 ^ number else 0) }
{
    if set { 1 << u32::from(number) } else { 0 }
}

/// The bits, and then that of the row if it is a branch.
pub fn with_row(bits: PendingBranches, row: &StepRow) -> PendingBranches
    requires { AreBits bits 30 }
    ensures list { waiting_bits result ≡ waiting_bits bits ++ bit_list row.now }
    ensures few { AreBits result 31 }
    ensures count { result.count ≡ bits.count + count row.now }
{
    if !is_branch(row) {
        return bits;
    }
    let worth = worth(bits.count, is_passed(row));
    PendingBranches {
        count: bits.count + 1,
        map: bits.map + worth,
    }
}
