//! An executable, in which code and constants of a program are looked up.

ghost use Rattle.std.specs.Prelude.{◌≡◌, ◌≤◌, ◌<◌, ◌&&◌, Some, None, map, slice_index, IfOk, if◌then◌else◌};
ghost use Rattle.std.specs.Option.{option_map};
ghost use Rattle.rept_elf.specs.Image.{file_of, segment_of};
ghost use Rattle.rept_elf.specs.Symbols.{symbol_of};
ghost use Rattle.rept_dump.specs.Code.{code_of, parts_of};
ghost use Rattle.rept_dump.specs.Memory.{allows, holds, bytes_from};
ghost use Rattle.rept_dump.specs.Stretch.{AnswersAlike, sought_kept};

use crate::code::Code;
use crate::search::{Allowed, held_bytes};
use crate::stretch::{NOWHERE, SegmentStretch, stretch_near};
use rept_elf::{Image, Segment, Symbol};
use std::alloc::{AllocError, Global};

/// An executable, the end of its image, and where bytes of it that can't be written were looked for
/// last.
#[derive(Clone, Copy)]
pub struct Executable<'a> {
    code: Code<'a>,
    end: u64,
    kept: SegmentStretch<'a>,
    ghost ends: { end ≡ (code_of code).end },
    ghost answers: { AnswersAlike (sought_kept (parts_of code)) kept },
}

/// The byte at an address, if this segment has it.
pub fn byte_in(segment: &Segment<'_>, allowed: Allowed, a: u32) -> Option<u8>
    ensures { result ≡ (if allows allowed (segment_of segment.now) && holds a 1 (segment_of segment.now) then Some (slice_index (bytes_from a (segment_of segment.now)) 0) else None) }
{
    let bytes = held_bytes(segment, allowed, a, 1)?;
    Some(bytes[0])
}

impl<'a> Executable<'a> {
    ghost use Rattle.rept_dump.specs.Files.{held_in, program_in};
    ghost use Rattle.rept_dump.specs.Program.{address_named};
    ghost use Rattle.rept_dump.specs.Program.Program.{OneFile};

    /// The executable of this image.
    pub fn new(exe: Image<'a>) -> Executable<'a>
        ensures { program_in result ≡ OneFile (file_of exe.entry) }
    {
        Executable {
            end: exe.image_end(),
            code: Code::new(exe),
            kept: NOWHERE,
        }
    }

    /// The word of code at an address.
    pub fn word(&self, a: u32) -> Option<u32>
        ensures { result ≡ (held_in self.now).word a }
    {
        self.code.word_at(a)
    }

    /// The half of code at an address.
    pub fn half(&self, a: u32) -> Option<u16>
        ensures { result ≡ (held_in self.now).half a }
    {
        self.code.half_at(a)
    }

    /// The byte at an address, where the program could not write it.
    pub fn kept(&self, a: u32) -> Option<u8>
        ensures { result ≡ (held_in self.now).kept a }
    {
        match self.stretch(a).segment {
            Some(segment) => byte_in(&segment, Allowed::ReadOnly, a),
            None => None,
        }
    }

    /// The function that has an address.
    pub fn symbol(&self, a: u32) -> Option<Symbol<'a>>
        ensures { option_map symbol_of result ≡ (held_in self.now).symbol a }
    {
        self.code.symbol(a)
    }

    /// The functions that have these addresses.
    pub fn symbols(
        &self,
        alloc: Global,
        addresses: &[u32],
    ) -> Result<Vec<Option<Symbol<'a>>>, AllocError>
        ensures { IfOk result (λ found. map (option_map symbol_of) found.items ≡ map (held_in self.now).symbol addresses.now) }
    {
        self.code.symbols(alloc, addresses)
    }

    /// The address that the executable gives to a name.
    pub fn address_named(&self, name: &[u8]) -> Option<u32>
        ensures { result ≡ address_named (program_in self.now) name.now }
    {
        self.code.image().address_named(name)
    }

    /// The end of the image.
    pub fn end(&self) -> u64
        ensures { result ≡ (held_in self.now).end }
    {
        self.end
    }

    /// This executable, finding words of code near this address without a search.
    pub fn near_code(&self, a: u32) -> Executable<'a>
        ensures { program_in result ≡ program_in self.now }
    {
        let mut executable = *self;
        executable.code = self.code.near(a);
        executable
    }

    /// This executable, finding halves of code near this address without a search.
    pub fn near_half(&self, a: u32) -> Executable<'a>
        ensures { program_in result ≡ program_in self.now }
    {
        let mut executable = *self;
        executable.code = self.code.near_half(a);
        executable
    }

    /// This executable, finding bytes that can't be written near this address without a search.
    pub fn near_byte(&self, a: u32) -> Executable<'a>
        ensures { program_in result ≡ program_in self.now }
    {
        let mut executable = *self;
        executable.kept = self.stretch(a);
        executable
    }

    /// The stretch of an address among bytes that can't be written.
    fn stretch(&self, a: u32) -> SegmentStretch<'a>
        ensures within { (result.from ≤ a) × (a < result.to) }
        ensures alike { AnswersAlike (sought_kept (parts_of self.now.code)) result }
    {
        stretch_near(self.kept, &self.code.image(), Allowed::ReadOnly, a, 1)
    }
}
