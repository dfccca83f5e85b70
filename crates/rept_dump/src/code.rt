//! The code of an executable, looked up by address.

ghost use Rattle.std.specs.Prelude.{◌≡◌, ◌≤◌, ◌<◌, ◌&&◌, Some, None, map, IfOk, if◌then◌else◌};
ghost use Rattle.std.specs.Option.{option_map};
ghost use Rattle.rept_elf.specs.Header.{half_at, word_at};
ghost use Rattle.rept_elf.specs.Symbols.{symbol_of};
ghost use Rattle.rept_elf.specs.Image.{file_of, segments_of, segment_of};
ghost use Rattle.rept_dump.specs.Memory.{of_executable, allows, holds, bytes_from};
ghost use Rattle.rept_dump.specs.Stretch.{AnswersAlike, sought_code, sought_half};

use crate::search::{Allowed, held_bytes};
use crate::stretch::{NOWHERE, SegmentStretch, stretch_near};
use rept_elf::{Image, Segment, Symbol, half, word};
use std::alloc::{AllocError, Global};

/// The word of code at an address, if this segment has all of it.
fn word_in(segment: &Segment<'_>, a: u32) -> Option<u32>
    ensures { result ≡ (if allows Allowed.Executable (segment_of segment.now) && holds a 4 (segment_of segment.now) then Some (word_at (bytes_from a (segment_of segment.now)) 0) else None) }
{
    let bytes = held_bytes(segment, Allowed::Executable, a, 4)?;
    Some(word(bytes, 0))
}

/// The half of code at an address, if this segment has both bytes.
fn half_in(segment: &Segment<'_>, a: u32) -> Option<u16>
    ensures { result ≡ (if allows Allowed.Executable (segment_of segment.now) && holds a 2 (segment_of segment.now) then Some (half_at (bytes_from a (segment_of segment.now)) 0) else None) }
{
    let bytes = held_bytes(segment, Allowed::Executable, a, 2)?;
    Some(half(bytes, 0))
}

/// The code of an executable, and where words and halves of it were looked for last.
#[derive(Clone, Copy)]
pub struct Code<'a> {
    exe: Image<'a>,
    last: SegmentStretch<'a>,
    last_half: SegmentStretch<'a>,
    ghost answers: { AnswersAlike (sought_code (segments_of exe)) last },
    ghost half_answers: { AnswersAlike (sought_half (segments_of exe)) last_half },
}

impl<'a> Code<'a> {
    ghost use Rattle.rept_dump.specs.Code.{code_of, parts_of};

    /// The executable.
    pub fn image(&self) -> Image<'a>
        ensures { file_of result ≡ file_of self.now.exe }
    {
        self.exe
    }

    /// The code of this executable.
    pub fn new(exe: Image<'a>) -> Code<'a>
        ensures code { code_of result ≡ of_executable (file_of exe.entry) }
        ensures file { file_of result.exe ≡ file_of exe.entry }
    {
        Code {
            exe,
            last: NOWHERE,
            last_half: NOWHERE,
        }
    }

    /// The word of code at this address: the four bytes in the first `PT_LOAD` segment with `PF_X`
    /// whose bytes in the file have all four. None exactly where there is none.
    pub fn word_at(&self, a: u32) -> Option<u32>
        ensures { result ≡ (code_of self.now).word a }
    {
        match self.stretch(a).segment {
            Some(segment) => word_in(&segment, a),
            None => None,
        }
    }

    /// The half of code at this address: the two bytes in the first `PT_LOAD` segment with `PF_X`
    /// whose bytes in the file have both. None exactly where there is none.
    pub fn half_at(&self, a: u32) -> Option<u16>
        ensures { result ≡ (code_of self.now).half a }
    {
        match self.half_stretch(a).segment {
            Some(segment) => half_in(&segment, a),
            None => None,
        }
    }

    /// The function that has this address, as `Image::symbol` answers it.
    pub fn symbol(&self, a: u32) -> Option<Symbol<'a>>
        ensures { option_map symbol_of result ≡ (code_of self.now).symbol a }
    {
        self.exe.symbol(a)
    }

    /// The functions that have these addresses, as `Image::symbols` answers them.
    pub fn symbols(
        &self,
        alloc: Global,
        addresses: &[u32],
    ) -> Result<Vec<Option<Symbol<'a>>>, AllocError>
        ensures { IfOk result (λ found. map (option_map symbol_of) found.items ≡ map (code_of self.now).symbol addresses.now) }
    {
        self.exe.symbols(alloc, addresses)
    }

    /// This code, finding words near this address without a search among all segments.
    pub fn near(&self, a: u32) -> Code<'a>
        ensures { file_of result.exe ≡ file_of self.now.exe }
    {
        let mut code = *self;
        code.last = self.stretch(a);
        code
    }

    /// This code, finding halves near this address without a search among all segments.
    pub fn near_half(&self, a: u32) -> Code<'a>
        ensures { file_of result.exe ≡ file_of self.now.exe }
    {
        let mut code = *self;
        code.last_half = self.half_stretch(a);
        code
    }

    /// The stretch of code of an address: the last one where it has the address.
    fn stretch(&self, a: u32) -> SegmentStretch<'a>
        ensures within { (result.from ≤ a) × (a < result.to) }
        ensures alike { AnswersAlike (sought_code (parts_of self.now)) result }
    {
        stretch_near(self.last, &self.exe, Allowed::Executable, a, 4)
    }

    /// The stretch of an address of a half: the last one where it has the address.
    fn half_stretch(&self, a: u32) -> SegmentStretch<'a>
        ensures within { (result.from ≤ a) × (a < result.to) }
        ensures alike { AnswersAlike (sought_half (parts_of self.now)) result }
    {
        stretch_near(self.last_half, &self.exe, Allowed::Executable, a, 2)
    }
}
