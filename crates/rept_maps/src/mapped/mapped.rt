//! Mapped images, looked up by address.

ghost use Rattle.std.specs.Prelude.{◌≡◌, ◌≤◌, ◌<◌, ◌+◌, ◌^◌, length, map, slice_get, IfOk, IfSome, Some, not};
ghost use Rattle.std.specs.Option.{option_map, option_and_then};
ghost use Rattle.rept_elf.specs.Header.{half_at, word_at};
ghost use Rattle.rept_elf.specs.Segments.{is_executable, is_writable};
ghost use Rattle.rept_elf.specs.Symbols.{symbol_of};
ghost use Rattle.rept_maps.specs.FileMap.{map_count};
ghost use Rattle.rept_maps.specs.Views.{desc_of};
ghost use Rattle.rept_maps.specs.Mapped.Mapped.{addresses, bytes_there, mapped_byte, mapped_half, mapped_symbol, mapped_word, mappings, moved, only_with, own_address, spot_at};
ghost use Rattle.rept_maps.specs.Mapped.Naming.{found_of, in_the_end, named_at, so_far, with_file};
ghost use Rattle.rept_maps.specs.Mapped.Views.{asked_of, mapping_of, spot_of};

use crate::mapped::find::{
    BytesInFile, Mapping, NumberBounds, bytes_at, has_all, has_some, spot_of_mapping,
};
use crate::mapped::naming::{FunctionSearch, Home, ask, found_of, has_home};
use crate::{Images, Maps};
use rept_elf::{PF_W, PF_X, Symbol, half, word};
use std::alloc::{AllocError, Global};

/// The files that a process had mapped, with their images by place.
#[derive(Clone, Copy)]
pub struct Mapped<'a> {
    maps: Maps<'a>,
    images: &'a Images<'a>,
    ghost places: { length images.now ≡ map_count (desc_of maps) },
}

impl<'a> Mapped<'a> {
    ghost use Rattle.rept_maps.specs.Mapped.Mappings.{mappings_of};

    /// The mapped files of a core file's list, where place i has the image of the file of entry i,
    /// if that is there.
    pub fn new(maps: Maps<'a>, images: &'a Images<'a>) -> Mapped<'a>
        requires { length images.now ≡ map_count (desc_of maps) }
        ensures { mappings_of result ≡ mappings (desc_of maps.entry) images.now }
    {
        Mapped { maps, images }
    }

    /// The word of code at this address: four bytes of one entry and of one segment of its file,
    /// which has `PF_X`. The first entry that has one of the addresses counts, and of its file the
    /// first `PT_LOAD` segment that has one of the bytes. None exactly where there is none.
    pub fn word(&self, a: u32) -> Option<u32>
        ensures { result ≡ mapped_word (mappings_of self.now) a }
    {
        let spot = self.spot(4, a)?;
        if spot.segment.flags & PF_X == 0 {
            return None;
        }
        Some(word(bytes_at(&spot), 0))
    }

    /// The half of code at this address: two such bytes. None exactly where there is none.
    pub fn half(&self, a: u32) -> Option<u16>
        ensures { result ≡ mapped_half (mappings_of self.now) a }
    {
        let spot = self.spot(2, a)?;
        if spot.segment.flags & PF_X == 0 {
            return None;
        }
        Some(half(bytes_at(&spot), 0))
    }

    /// The byte at this address, which the program could not write: its segment lacks `PF_W`,
    /// whatever the core file says of it. None exactly where there is none.
    pub fn byte(&self, a: u32) -> Option<u8>
        ensures { result ≡ mapped_byte (mappings_of self.now) a }
    {
        let spot = self.spot(1, a)?;
        if spot.segment.flags & PF_W != 0 {
            return None;
        }
        Some(bytes_at(&spot)[0])
    }

    /// The function that has this address, as the file of the address names it, and the address in
    /// memory at which it begins. None exactly where the address has no segment, or its file names
    /// none.
    pub fn symbol(&self, a: u32) -> Option<Symbol<'a>>
        ensures { option_map symbol_of result ≡ mapped_symbol (mappings_of self.now) a }
    {
        let spot = self.spot(1, a)?;
        let own = own_address(&spot);
        let symbol = spot.image.symbol(own)?;
        Some(Symbol {
            name: symbol.name,
            value: symbol.value.wrapping_add(a.wrapping_sub(own)),
        })
    }

    /// The functions that have these addresses, one answer for each, as `symbol` gives it. The
    /// symbols of each mapping's file are gone over once at most. The only refusal is of memory.
    pub fn symbols(
        &self,
        alloc: Global,
        addresses: &[u32],
    ) -> Result<Vec<Option<Symbol<'a>>>, AllocError>
        ensures { IfOk result (λ found. map (option_map symbol_of) found.items ≡ map (mapped_symbol (mappings_of self.now)) addresses.now) }
    {
        let mut asked = self.homes(alloc, addresses)?;
        for i in 0..self.maps.count() {
            asked = self.asked_with(alloc, i, asked)?;
        }
        found_of(alloc, asked.as_slice())
    }

    /// The addresses with the mappings that have them, of which no function is found yet.
    fn homes(&self, alloc: Global, addresses: &[u32]) -> Result<Vec<FunctionSearch<'a>>, AllocError>
        ensures homes { IfOk result (λ asked. map (in_the_end (mappings_of self.now)) (map asked_of asked.items) ≡ map (mapped_symbol (mappings_of self.now)) addresses.now) }
        ensures found { IfOk result (λ asked. map found_of (map asked_of asked.items) ≡ map (so_far (mappings_of self.now) 0) (map asked_of asked.items)) }
    {
        let mut asked = Vec::new(alloc);
        for address in addresses {
            asked.push(FunctionSearch {
                home: self.home(*address),
                found: None,
            })?;
        }
        Ok(asked)
    }

    /// What is found with the file of one mapping more.
    fn asked_with(
        &self,
        alloc: Global,
        i: u32,
        asked: Vec<FunctionSearch<'a>>,
    ) -> Result<Vec<FunctionSearch<'a>>, AllocError>
        requires { i < map_count (desc_of self.now.maps) }
        ensures { IfOk result (λ more. map asked_of more.items ≡ map (with_file (mappings_of self.now) i) (map asked_of asked.entry.items)) }
    {
        if !has_home(asked.as_slice(), i) {
            return Ok(asked);
        }
        match self.images.image(i) {
            Some(image) => ask(alloc, &image, i, asked.as_slice()),
            None => Ok(asked),
        }
    }

    /// Where the function of an address is sought.
    fn home(&self, a: u32) -> Option<Home>
        ensures { mapped_symbol (mappings_of self.now) a ≡ option_and_then (named_at (mappings_of self.now)) result }
    {
        let mapping = self.mapping_with(1, a)?;
        let spot = spot_of_mapping(&mapping, 1, a)?;
        Some(Home {
            mapping: mapping.index,
            own: own_address(&spot),
            address: a,
        })
    }

    /// The mapping of this index.
    fn mapping(&self, i: u32) -> Mapping<'a>
        requires { i < map_count (desc_of self.now.maps) }
        ensures mapping { slice_get (mappings_of self.now) i ≡ Some (mapping_of result) }
        ensures small { result.offset + 2 ^ 32 < 2 ^ 64 }
        ensures index { result.index ≡ i }
    {
        let place = self.maps.place(i);
        Mapping {
            start: place.start,
            end: place.end,
            offset: place.offset,
            image: self.images.image(i),
            index: i,
        }
    }

    /// The mapping that has so many addresses from one on: the first that has some of them, where
    /// it has all.
    fn mapping_with(&self, count: u64, a: u32) -> Option<Mapping<'a>>
        requires { (0 < count) × (count ≤ 4) }
        ensures mapping { option_map mapping_of result ≡ only_with addresses count a (mappings_of self.now) }
        ensures within { IfSome result (λ m. (m.start ≤ a) × (a + count ≤ m.end)) }
        ensures small { IfSome result (λ m. m.offset + 2 ^ 32 < 2 ^ 64) }
        ensures index { IfSome result (λ m. slice_get (mappings_of self.now) m.index ≡ Some (mapping_of m)) }
    {
        let at = u64::from(a);
        for i in 0..self.maps.count() {
            let mapping = self.mapping(i);
            let bounds = addresses(&mapping);
            if has_some(bounds, count, at) {
                if has_all(bounds, count, at) {
                    return Some(mapping);
                }
                return None;
            }
        }
        None
    }

    /// Where so many bytes from an address on stand: in one segment of the file of one mapping.
    fn spot(&self, count: u64, a: u32) -> Option<BytesInFile<'a>>
        requires { (0 < count) × (count ≤ 4) }
        ensures spot { option_map spot_of result ≡ spot_at (mappings_of self.now) count a }
        ensures enough { IfSome result (λ p. p.place + count ≤ length p.segment.body.now) }
    {
        let mapping = self.mapping_with(count, a)?;
        spot_of_mapping(&mapping, count, a)
    }
}

/// The addresses of a mapping.
fn addresses(mapping: &Mapping<'_>) -> NumberBounds
    ensures value { result ≡ addresses (mapping_of mapping.now) }
    ensures first { result.from ≡ mapping.now.start }
    ensures last { result.to ≡ mapping.now.end }
{
    NumberBounds {
        from: u64::from(mapping.start),
        to: u64::from(mapping.end),
    }
}

/// The address that a file gives to a byte of it.
fn own_address(spot: &BytesInFile<'_>) -> u32
    ensures { result ≡ own_address (spot_of spot.now) }
{
    spot.segment.vaddr.wrapping_add(spot.place)
}
