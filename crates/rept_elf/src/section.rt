//! The section headers of a file.

ghost use Rattle.std.specs.Prelude.{◌≡◌, ◌<◌, ◌≤◌, ◌+◌, length, slice_get, Some};
ghost use Rattle.std.specs.List.{find};
ghost use Rattle.std.specs.Option.{option_map};
ghost use Rattle.rept_elf.specs.Header.{header_size};
ghost use Rattle.rept_elf.specs.SectionParts.{section_of};
ghost use Rattle.rept_elf.specs.Sections.{sections, contents as contents_of, is_symbol_table, section_from as section_of_header};

use crate::fields::{half, part, word};

/// `sh_type` of a symbol table.
const SHT_SYMTAB: u32 = 2;

/// The bytes of a section header.
const HEADER_SIZE: usize = 40;

/// A section: fields of its header.
#[derive(Clone, Copy)]
pub struct Section {
    /// `sh_type`.
    pub kind: u32,
    /// `sh_offset`: the offset of the section in the file.
    pub offset: u32,
    /// `sh_size`: its count of bytes.
    pub size: u32,
    /// `sh_link`: the index of another section; of a symbol table, that of its names.
    pub link: u32,
}

/// The count of sections, 0 where the file does not hold all their headers.
pub fn section_count(bytes: &[u8]) -> u32
    requires { header_size ≤ length bytes.now }
    ensures { result ≡ length (sections bytes.now) }
{
    let count = u32::from(half(bytes, 48));
    if word(bytes, 32) as usize + HEADER_SIZE * count as usize > bytes.len() {
        return 0;
    }
    count
}

/// The section whose header stands at an offset of the file.
fn section_from(bytes: &[u8], at: usize) -> Section
    requires { at + 40 ≤ length bytes.now }
    ensures { section_of result ≡ section_of_header bytes.now at }
{
    Section {
        kind: word(bytes, at + 4),
        offset: word(bytes, at + 16),
        size: word(bytes, at + 20),
        link: word(bytes, at + 24),
    }
}

/// The section of this index, in table order.
pub fn section_at(bytes: &[u8], index: u32) -> Section
    requires header { header_size ≤ length bytes.now }
    requires index { index < length (sections bytes.now) }
    ensures { slice_get (sections bytes.now) index ≡ Some (section_of result) }
{
    section_from(
        bytes,
        word(bytes, 32) as usize + HEADER_SIZE * index as usize,
    )
}

/// The first section that is a symbol table.
pub fn symbol_section(bytes: &[u8]) -> Option<Section>
    requires { header_size ≤ length bytes.now }
    ensures { option_map section_of result ≡ find is_symbol_table (sections bytes.now) }
{
    for index in 0..section_count(bytes) {
        let section = section_at(bytes, index);
        if section.kind == SHT_SYMTAB {
            return Some(section);
        }
    }
    None
}

/// The bytes of a section, where the file holds them.
pub fn contents<'a>(bytes: &'a [u8], section: &Section) -> Option<&'a [u8]>
    ensures { option_map (λ b. b.now) result ≡ contents_of bytes.now (section_of section.now) }
{
    if section.offset as usize + section.size as usize > bytes.len() {
        return None;
    }
    Some(part(bytes, section.offset as usize, section.size as usize))
}
