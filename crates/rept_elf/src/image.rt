//! A file whose checks passed, and its segments.

ghost use Rattle.std.specs.Prelude.{◌≡◌, ◌<◌, ◌≤◌, length, map, slice_get, Some, IfOk};
ghost use Rattle.std.specs.Result.{result_err};
ghost use Rattle.rept_elf.specs.Checks.{checks, first_failure};
ghost use Rattle.rept_elf.specs.Header.{HasTable};
ghost use Rattle.rept_elf.specs.Segments.{greatest_end};

use crate::checks::{check_header, check_segments};
use crate::entries::{entry, entry_count};
use crate::fault::{ElfFault, Want};
use crate::naming::find_symbols;
use crate::segment::{PT_LOAD, Segment};
use crate::symbol::{Symbol, find_address, find_symbol};
use std::alloc::{AllocError, Global};

/// An executable or a core file whose header and segments passed the checks. It borrows the file's
/// bytes.
#[derive(Clone, Copy)]
pub struct Image<'a> {
    bytes: &'a [u8],
    ghost has_table: { HasTable bytes.now },
}

impl<'a> Image<'a> {
    ghost use Rattle.rept_elf.specs.Image.{file_of, segments_of, segment_of};
    ghost use Rattle.rept_elf.specs.Segments.{part_of};
    ghost use Rattle.rept_elf.specs.Symbols.{address_named, symbol_at, symbol_of};
    ghost use Rattle.std.specs.Option.{option_map};

    /// The file of these bytes, as a file of the wanted kind. A fault comes exactly where it is
    /// that of the first check that the file fails.
    pub fn read(bytes: &'a [u8], want: Want) -> Result<Image<'a>, ElfFault>
        ensures fault { result_err result ≡ first_failure (checks want bytes.now) }
        ensures image { IfOk result (λ image. file_of image ≡ bytes.now) }
    {
        check_header(bytes, want)?;
        check_segments(bytes, want)?;
        Ok(Image { bytes })
    }

    /// The bytes of the file.
    pub fn file(&self) -> &'a [u8]
        ensures { result.now ≡ file_of self.now }
    {
        self.bytes
    }

    /// The count of the file's bytes.
    pub fn file_size(&self) -> usize
        ensures { result ≡ length (file_of self.now) }
    {
        self.bytes.len()
    }

    /// The count of segments, at most 4,096.
    pub fn count(&self) -> u32
        ensures count { result ≡ length (segments_of self.now) }
        ensures few { result ≤ 4096 }
    {
        entry_count(self.bytes)
    }

    /// The segment of this index, in table order.
    pub fn segment(&self, i: u32) -> Segment<'a>
        requires { i < length (segments_of self.now) }
        ensures segment { slice_get (segments_of self.now) i ≡ Some (segment_of result) }
        ensures within { length result.body.now ≤ result.filesz }
        ensures part { result.body.now ≡ part_of (file_of self.now) result.offset result.filesz }
    {
        entry(self.bytes, i)
    }

    /// The end of the image: the greatest `vaddr + memsz` of a `PT_LOAD` segment, 0 without one.
    pub fn image_end(&self) -> u64
        ensures { result ≡ greatest_end (segments_of self.now) }
    {
        let mut end: u64 = 0;
        for i in 0..self.count() {
            let segment = self.segment(i);
            if segment.kind == PT_LOAD {
                end = end.max(u64::from(segment.vaddr) + u64::from(segment.memsz));
            }
        }
        end
    }

    /// The symbol of the function that has this address, as the file gives it: the first symbol of
    /// the first symbol table that is a function's and begins at or before the address, and ends
    /// after it; a function of size 0 has one address. None exactly where there is no such symbol,
    /// or where the section headers, the symbol table, the table of its names or the symbol's name
    /// up to its zero byte isn't whole in the file.
    pub fn symbol(&self, vaddr: u32) -> Option<Symbol<'a>>
        ensures { option_map symbol_of result ≡ symbol_at (file_of self.now) vaddr }
    {
        find_symbol(self.bytes, vaddr)
    }

    /// The symbols of the functions that have these addresses, one after the other, each as
    /// `symbol` answers it. The symbol table is gone over once. The only refusal is of memory.
    pub fn symbols(
        &self,
        alloc: Global,
        vaddrs: &[u32],
    ) -> Result<Vec<Option<Symbol<'a>>>, AllocError>
        ensures { IfOk result (λ found. map (option_map symbol_of) found.items ≡ map (symbol_at (file_of self.now)) vaddrs.now) }
    {
        find_symbols(alloc, self.bytes, vaddrs)
    }

    /// The address that the file gives to a name: `st_value` of the first symbol of the first
    /// symbol table that has this name, is a function's, an object's or of no kind, and is defined.
    /// None exactly where there is no such symbol, or where the section headers, the symbol table
    /// or the table of its names isn't whole in the file.
    pub fn address_named(&self, name: &[u8]) -> Option<u32>
        ensures { result ≡ address_named (file_of self.now) name.now }
    {
        find_address(self.bytes, name)
    }
}
