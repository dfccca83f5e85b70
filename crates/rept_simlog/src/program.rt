//! The code that was executed.

ghost use Rattle.std.specs.Prelude.{◌≡◌};
ghost use Rattle.rept_simlog.specs.Program.{is_compressed};

use rept_dump::Code;
use rept_elf::Image;
use rept_encode::Site;
use rept_isa::Instr;
use rept_path::program::short_by;
use rept_path::{PathFault, by_half, by_word};

/// The code of an executable, and whether it may be compressed.
#[derive(Clone, Copy)]
pub struct LoggedProgram<'a> {
    pub code: Code<'a>,
    pub halves: bool,
}

/// Whether code of the file may be compressed: bit 0 of the field `e_flags`, `EF_RISCV_RVC`.
fn is_compressed(file: &[u8]) -> bool
    ensures { result ≡ is_compressed file.now }
{
    match file.get(36) {
        Some(flags) => flags % 2 == 1,
        None => false,
    }
}

impl<'a> LoggedProgram<'a> {
    ghost use Rattle.std.specs.Prelude.{◌≡◌, ◌<◌, Ok, Err, IfOk, IfErr};
    ghost use Rattle.rept_elf.specs.Image.{file_of};
    ghost use Rattle.rept_path.specs.Code.{short_half, is_short, alignment, look};
    ghost use Rattle.rept_simlog.specs.Program.{program_of, built, site_of};

    /// The code of this executable.
    pub fn new(image: &Image<'a>) -> LoggedProgram<'a>
        ensures { program_of result ≡ built (file_of image.now) }
    {
        LoggedProgram {
            code: Code::new(*image),
            halves: is_compressed(image.file()),
        }
    }

    /// This code, found near this address without a search among all segments.
    pub fn near(&self, a: u32) -> LoggedProgram<'a>
        ensures { program_of result ≡ program_of self.now }
    {
        let code = self.code.near(a);
        if self.halves {
            return LoggedProgram {
                code: code.near_half(a),
                halves: true,
            };
        }
        LoggedProgram {
            code,
            halves: false,
        }
    }

    /// The half at an address, where it is one of a compressed instruction.
    fn short_half(&self, a: u32) -> Option<u16>
        ensures { result ≡ short_half (program_of self.now) a }
    {
        if !self.halves {
            return None;
        }
        short_by(self.code.half_at(a))
    }

    /// Whether the instruction at an address takes two bytes.
    #[tactic(auto, unfolding(rept_path::specs::Code::is_short))]
    fn is_short(&self, a: u32) -> bool
        ensures { result ≡ is_short (program_of self.now) a }
    {
        self.short_half(a).is_some()
    }

    /// What addresses of instructions are multiples of.
    fn alignment(&self) -> u32
        ensures value { result ≡ alignment (program_of self.now) }
        ensures some { 0 < result }
    {
        if self.halves { 2 } else { 4 }
    }

    /// The instruction at an address, or why none can have run there.
    #[tactic(auto, unfolding(rept_path::specs::Code::look))]
    fn look(&self, a: u32) -> Result<Instr, PathFault>
        ensures { result ≡ look (program_of self.now) a }
    {
        if a % self.alignment() != 0 {
            return Err(PathFault::Unaligned(a));
        }
        match self.short_half(a) {
            Some(half) => by_half(a, half),
            None => by_word(a, self.code.word_at(a)),
        }
    }

    /// The instruction at an address, with its length, or why none can have run there.
    pub fn site_at(&self, a: u32) -> Result<Site, PathFault>
        ensures is { IfOk result (λ site. site ≡ site_of (program_of self.now) a site.instr) }
        ensures ok { IfOk result (λ site. look (program_of self.now) a ≡ Ok site.instr) }
        ensures err { IfErr result (λ fault. look (program_of self.now) a ≡ Err fault) }
    {
        let short = self.is_short(a);
        match self.look(a) {
            Ok(instr) => Ok(Site {
                at: a,
                instr,
                short,
            }),
            Err(fault) => Err(fault),
        }
    }
}
