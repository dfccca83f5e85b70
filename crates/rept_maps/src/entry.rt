//! Entries of a file note, and the names after them.

ghost use Rattle.std.specs.Prelude.{◌≡◌, ◌≤◌, ◌<◌, ◌+◌, ◌*◌, ◌^◌, [], ◌∷◌, length, IsTrue, MatchBool, MatchOption, slice_index_or};
ghost use Rattle.std.specs.Str.{is_utf8};
ghost use Rattle.rept_maps.specs.FileMap.{IsEntry, IsFileMap, parts, names, map_count, entry_offset, entry_named, page_size};
ghost use Rattle.rept_elf.specs.Header.{word_at};

use rept_elf::{after, first_zero, word};
use std::str;

/// The bytes of a count and a page size.
const HEADER_SIZE: usize = 8;

/// The bytes of an entry without its name.
const ENTRY_SIZE: usize = 12;

/// A mapped part of a file.
#[derive(Clone, Copy, Debug)]
pub struct Entry<'a> {
    /// Its first address.
    pub start: u32,
    /// The address after its last one; `start` where it has none.
    pub end: u32,
    /// Its offset in the file, in bytes.
    pub offset: u64,
    /// The name of the file, as the process had it: a stranger's word, which may be of any
    /// characters but the zero byte.
    pub name: &'a str,
}

/// The first part of some bytes that a zero byte ends, and what stands after it.
#[derive(Clone, Copy)]
pub struct Named<'a> {
    /// The bytes before the zero byte.
    pub name: &'a [u8],
    /// The bytes after it.
    pub after: &'a [u8],
}

/// The part of the bytes that the first zero byte ends.
pub fn first_name(bytes: &[u8]) -> Option<Named<'_>>
    ensures { MatchOption result (length (parts bytes.now) ≡ 1) (λ n. parts bytes.now ≡ n.name.now ∷ parts n.after.now) }
{
    let end = first_zero(bytes)?;
    Some(Named {
        name: &bytes[..end],
        after: after(bytes, end + 1),
    })
}

/// Whether the bytes are text.
fn is_text(bytes: &[u8]) -> bool
    ensures { result ≡ is_utf8 bytes.now }
{
    match str::from_utf8(bytes) {
        Ok(_) => true,
        Err(_) => false,
    }
}

/// The text of bytes that are text.
pub fn text_of(bytes: &[u8]) -> &str
    requires { IsTrue (is_utf8 bytes.now) }
    ensures { result.now ≡ bytes.now }
{
    match str::from_utf8(bytes) {
        Ok(text) => text,
        Err(_) => "",
    }
}

/// Whether the entry of this index, with this name, ends at or after its start, and its name is
/// text.
fn is_entry(desc: &[u8], i: u32, name: &[u8]) -> bool
    requires { entry_offset i + 12 ≤ length desc.now }
    ensures { MatchBool result (IsEntry (entry_named desc.now i name.now)) (IsEntry (entry_named desc.now i name.now) → ⊥) }
{
    let at = HEADER_SIZE + ENTRY_SIZE * i as usize;
    if word(desc, at) > word(desc, at + 4) {
        return false;
    }
    is_text(name)
}

/// Whether each entry is one, and has its name.
fn are_entries(desc: &[u8]) -> bool
    requires header { 8 ≤ length desc.now }
    requires entries { entry_offset (map_count desc.now) ≤ length desc.now }
    ensures { MatchBool result (IsFileMap desc.now) (IsFileMap desc.now → ⊥) }
{
    let count = word(desc, 0);
    let mut rest = after(desc, HEADER_SIZE + ENTRY_SIZE * count as usize);
    for i in 0..count {
        let Some(named) = first_name(rest) else {
            return false;
        };
        if is_entry(desc, i, named.name) {
            rest = named.after;
        } else {
            return false;
        }
    }
    true
}

/// Whether the descriptor of a file note holds all entries and names, each is ordered and each name
/// text.
pub fn is_map(desc: &[u8]) -> bool
    ensures { MatchBool result (IsFileMap desc.now) (IsFileMap desc.now → ⊥) }
{
    if desc.len() < HEADER_SIZE {
        return false;
    }
    let entries = ENTRY_SIZE * word(desc, 0) as usize;
    if HEADER_SIZE + entries > desc.len() {
        return false;
    }
    are_entries(desc)
}

/// The name of this index.
pub fn name_at(desc: &[u8], i: u32) -> &str
    requires map { IsFileMap desc.now }
    requires index { i < map_count desc.now }
    ensures { result.now ≡ slice_index_or (names desc.now) i [] }
{
    let count = word(desc, 0);
    let mut rest = after(desc, HEADER_SIZE + ENTRY_SIZE * count as usize);
    for k in 0..count {
        let Some(named) = first_name(rest) else {
            return "";
        };
        if k == i {
            return text_of(named.name);
        }
        rest = named.after;
    }
    ""
}

/// The addresses of an entry, and its offset.
#[derive(Clone, Copy)]
pub struct MappedRange {
    /// Its first address.
    pub start: u32,
    /// The address after its last one.
    pub end: u32,
    /// Its offset in the file, in bytes.
    pub offset: u64,
}

/// The product of two words, which leaves room for a word more.
fn product(a: u32, b: u32) -> u64
    ensures value { result ≡ a * b }
    ensures small { result + 2 ^ 32 < 2 ^ 64 }
{
    u64::from(a) * u64::from(b)
}

/// The addresses and the offset of the entry of this index.
pub fn place_at(desc: &[u8], i: u32) -> MappedRange
    requires { entry_offset i + 12 ≤ length desc.now }
    ensures start { result.start ≡ word_at desc.now (entry_offset i) }
    ensures end { result.end ≡ word_at desc.now (entry_offset i + 4) }
    ensures offset { result.offset ≡ word_at desc.now (entry_offset i + 8) * page_size desc.now }
    ensures small { result.offset + 2 ^ 32 < 2 ^ 64 }
{
    let at = HEADER_SIZE + ENTRY_SIZE * i as usize;
    MappedRange {
        start: word(desc, at),
        end: word(desc, at + 4),
        offset: product(word(desc, at + 8), word(desc, 4)),
    }
}
