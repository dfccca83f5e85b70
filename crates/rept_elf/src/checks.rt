//! The checks of a file, in their order.

ghost use Rattle.std.specs.Prelude.{◌≡◌, length, OnOk};
ghost use Rattle.std.specs.Result.{result_err};
ghost use Rattle.rept_elf.specs.Checks.{header_checks, segment_checks, table_checks, first_failure, is_wanted as is_wanted_type};
ghost use Rattle.rept_elf.specs.Header.{HasTable};
ghost use Rattle.rept_elf.specs.Segments.{segments};
ghost use Rattle.rept_elf.specs.Image.{segment_of};

use crate::entries::{entry, entry_count};
use crate::fault::{ElfFault, Want};
use crate::fields::{half, word};
use crate::segment::{PT_LOAD, Segment};

/// The bytes of a header.
const HEADER_SIZE: usize = 52;

/// The bytes `7f 45 4c 46`, as a little-endian word.
const MAGIC: u32 = 0x464c_457f;

const ELFCLASS32: u8 = 1;

const ELFDATA2LSB: u8 = 1;

const EM_RISCV: u16 = 243;

const ET_EXEC: u16 = 2;

const ET_DYN: u16 = 3;

const ET_CORE: u16 = 4;

/// The bytes of a program header.
const ENTRY_SIZE: u16 = 32;

/// The most program headers that are read.
const MOST_ENTRIES: u16 = 4096;

/// Whether the header passes, up to where the program header table stands.
pub fn check_header(bytes: &[u8], want: Want) -> Result<(), ElfFault>
    ensures fault { result_err result ≡ first_failure (header_checks want bytes.now) }
    ensures table { OnOk result (HasTable bytes.now) }
{
    if bytes.len() < HEADER_SIZE || word(bytes, 0) != MAGIC {
        return Err(ElfFault::NotElf);
    }
    if bytes[4] != ELFCLASS32 {
        return Err(ElfFault::NotClass32);
    }
    if bytes[5] != ELFDATA2LSB {
        return Err(ElfFault::NotLittle);
    }
    if half(bytes, 18) != EM_RISCV {
        return Err(ElfFault::NotRiscv);
    }
    let kind = half(bytes, 16);
    if !is_wanted(kind, want) {
        return Err(ElfFault::WrongType(kind));
    }
    let size = half(bytes, 42);
    if size != ENTRY_SIZE {
        return Err(ElfFault::EntrySize(size));
    }
    let count = half(bytes, 44);
    if count > MOST_ENTRIES {
        return Err(ElfFault::TooMany(count));
    }
    let table = word(bytes, 28) as usize;
    if table + 32 * count as usize > bytes.len() {
        return Err(ElfFault::HeaderPastEnd);
    }
    Ok(())
}

/// Whether this is an `e_type` of a wanted file.
fn is_wanted(kind: u16, want: Want) -> bool
    ensures { result ≡ is_wanted_type want kind }
{
    match want {
        Want::Exec => kind == ET_EXEC,
        Want::Core => kind == ET_CORE,
        Want::Shared => kind == ET_EXEC || kind == ET_DYN,
    }
}

/// Whether each segment passes, in table order.
pub fn check_segments(bytes: &[u8], want: Want) -> Result<(), ElfFault>
    requires { HasTable bytes.now }
    ensures { result_err result ≡ first_failure (table_checks want (length bytes.now) 0 (segments bytes.now)) }
{
    for index in 0..entry_count(bytes) {
        let segment = entry(bytes, index);
        check_segment(&segment, index, want, bytes.len())?;
    }
    Ok(())
}

/// Whether a segment of a file of this size passes.
fn check_segment(segment: &Segment<'_>, index: u32, want: Want, size: usize) -> Result<(), ElfFault>
    ensures { result_err result ≡ first_failure (segment_checks want size index (segment_of segment.now)) }
{
    if segment.kind != PT_LOAD {
        return Ok(());
    }
    if segment.filesz > segment.memsz {
        return Err(ElfFault::SegmentSize(index));
    }
    if u64::from(segment.vaddr) + u64::from(segment.memsz) > 1 << 32 {
        return Err(ElfFault::AddressWrap(index));
    }
    let end = u64::from(segment.offset) + u64::from(segment.filesz);
    if want != Want::Core && end > size as u64 {
        return Err(ElfFault::SegmentPastEnd(index));
    }
    Ok(())
}
