//! The program headers of a file.

ghost use Rattle.std.specs.Prelude.{◌≡◌, ◌<◌, ◌≤◌, length};
ghost use Rattle.rept_elf.specs.Header.{HasTable, entry_offset, e_phnum};
ghost use Rattle.rept_elf.specs.Segments.{segment_from};
ghost use Rattle.rept_elf.specs.Image.{segment_of};

use crate::fields::{half, part, word};
use crate::segment::Segment;

/// The count of program headers.
pub fn entry_count(bytes: &[u8]) -> u32
    requires { HasTable bytes.now }
    ensures { result ≡ e_phnum bytes.now }
{
    u32::from(half(bytes, 44))
}

/// The segment of the program header of this index.
pub fn entry(bytes: &[u8], index: u32) -> Segment<'_>
    requires table { HasTable bytes.now }
    requires index { index < e_phnum bytes.now }
    ensures segment { segment_of result ≡ segment_from bytes.now (entry_offset bytes.now index) }
    ensures within { length result.body.now ≤ result.filesz }
{
    let at = word(bytes, 28) as usize + 32 * index as usize;
    let offset = word(bytes, at + 4);
    let filesz = word(bytes, at + 16);
    Segment {
        kind: word(bytes, at),
        offset,
        vaddr: word(bytes, at + 8),
        memsz: word(bytes, at + 20),
        filesz,
        flags: word(bytes, at + 24),
        body: part(bytes, offset as usize, filesz as usize),
    }
}
