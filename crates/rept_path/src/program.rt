//! The program whose path is walked.

ghost use Rattle.std.specs.Prelude.{◌≡◌};
ghost use Rattle.rept_path.specs.Code.{short_by};

use rept_dump::Dump;
use rept_isa::from_address;
use rept_isa::number::following;

/// A dump, and whether code may be compressed.
#[derive(Clone, Copy)]
pub struct Program<'a> {
    pub dump: Dump<'a>,
    pub halves: bool,
}

/// The half, where it is one of a compressed instruction.
pub fn short_by(half: Option<u16>) -> Option<u16>
    ensures { result ≡ short_by half }
{
    match half {
        Some(half) if half % 4 != 3 => Some(half),
        _ => None,
    }
}

impl<'a> Program<'a> {
    ghost use Rattle.std.specs.Prelude.{◌≡◌, ◌<◌};
    ghost use Rattle.rept_path.specs.Code.{short_half, is_short, alignment, after_instruction};
    ghost use Rattle.rept_path.specs.Program.{code_of};

    /// The program of a dump, whose code may be compressed or not.
    pub fn new(dump: &Dump<'a>, halves: bool) -> Program<'a>
        ensures { result ≡ record { dump = dump.now; halves = halves } }
    {
        Program {
            dump: *dump,
            halves,
        }
    }

    /// This program, finding code near this address without a search among all segments.
    pub fn near(&self, a: u32) -> Program<'a>
        ensures code { code_of result ≡ code_of self.now }
    {
        let near = self.dump.near_code(a);
        if self.halves {
            return Program::new(&near.near_half(a), true);
        }
        Program::new(&near, false)
    }

    /// The half at an address, where it is one of a compressed instruction.
    pub fn short_half(&self, a: u32) -> Option<u16>
        ensures { result ≡ short_half (code_of self.now) a }
    {
        if !self.halves {
            return None;
        }
        short_by(self.dump.half_of_code(a))
    }

    /// Whether the instruction at an address takes two bytes.
    #[tactic(auto, unfolding(crate::specs::Code::is_short))]
    pub fn is_short(&self, a: u32) -> bool
        ensures { result ≡ is_short (code_of self.now) a }
    {
        self.short_half(a).is_some()
    }

    /// The address of the instruction that follows the one at an address.
    #[tactic(auto, unfolding(crate::specs::Code::after_instruction))]
    pub fn after_instruction(&self, a: u32) -> u32
        ensures { result ≡ after_instruction (code_of self.now) a }
    {
        following(from_address(a, self.is_short(a)))
    }

    /// What positions are multiples of.
    pub fn alignment(&self) -> u32
        ensures value { result ≡ alignment (code_of self.now) }
        ensures some { 0 < result }
    {
        if self.halves { 2 } else { 4 }
    }
}
