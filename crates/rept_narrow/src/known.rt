//! What is known of a path before, and what is taken for granted of it.

ghost use Rattle.std.specs.Prelude.{◌≡◌, ℕ, Option};
ghost use Rattle.rept_known.specs.declared.both.Both.{Both};
ghost use Rattle.rept_narrow.specs.Admitted.{Premises};

use rept_isa::{Reg, StepRow};
use rept_known::Both;

/// What is known of a path before: a set for each register at each point, and some bytes at points.
/// Points go from 0 before the first row to the number of rows after the last one.
pub trait KnownPath {
    ghost set: { Self → ℕ → ℕ → Both };

    ghost byte: { Self → ℕ → ℕ → Option ℕ };

    /// The set of a register at a point.
    fn set(&self, point: u32, register: Reg) -> Both
        ensures { result ≡ set self.now point register };

    /// The byte at a point and an address, if it is known.
    fn byte(&self, point: u32, address: u32) -> Option<u8>
        ensures { result ≡ byte self.now point address };
}

/// What the files tell of the premises of an admitted execution.
pub trait PathPremises {
    ghost premises: { Self → Premises };

    /// Whether the byte at an address is mapped without leave to write.
    fn is_read_only(&self, address: u32) -> bool
        ensures { result ≡ (premises self.now).is_read_only address };

    /// The byte at an address at the first point, where the path begins with the program's first
    /// instruction.
    fn first_byte(&self, address: u32) -> Option<u8>
        ensures { result ≡ (premises self.now).first_byte address };

    /// The number of the process, where it has one thread.
    fn process(&self) -> Option<u32>
        ensures { result ≡ (premises self.now).process };

    /// The lowest address of the area that has the stack, if it is known.
    fn stack_from(&self) -> Option<u32>
        ensures { result ≡ (premises self.now).stack_from };

    /// Where the stack's area begins, if the path begins with the program's first instruction: from
    /// there up to the stack pointer bytes are 0 at the first point.
    fn clear_from(&self) -> Option<u32>
        ensures { result ≡ (premises self.now).clear_from };
}

/// The rows of a path, and the address at which the program's own memory ends and the heap begins.
#[derive(Clone, Copy)]
pub struct InferPath<'a> {
    /// the rows
    pub rows: &'a [StepRow],
    /// the address after the last byte of the program's own memory
    pub image_end: u64,
}
