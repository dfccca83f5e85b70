//! The kind of file that is wanted, and why one is refused.

use thiserror::Error;

/// What kind of file is wanted.
#[derive(Clone, Copy, Debug, PartialEq, Eq)]
pub enum Want {
    /// An executable (`ET_EXEC`).
    Exec,
    /// A core file (`ET_CORE`).
    Core,
    /// A file whose parts a program maps: an executable (`ET_EXEC`), or a shared object or
    /// position-independent executable (`ET_DYN`).
    Shared,
}

/// The first check that a file fails. The checks are made in the order of this list, the last three
/// of them for each `PT_LOAD` segment in table order, before the next segment.
#[derive(Clone, Copy, Debug, PartialEq, Eq, Error)]
pub enum ElfFault {
    /// The file has fewer than the 52 bytes of a header, or begins with other bytes than
    /// `7f 45 4c 46`.
    #[error("no ELF file")]
    NotElf,
    /// `EI_CLASS` is not `ELFCLASS32`.
    #[error("not of 32 bits")]
    NotClass32,
    /// `EI_DATA` is not `ELFDATA2LSB`.
    #[error("not little-endian")]
    NotLittle,
    /// `e_machine` is not `EM_RISCV`.
    #[error("not for RISC-V")]
    NotRiscv,
    /// `e_type` is not the wanted one. It is given.
    #[error("a file of type {0}")]
    WrongType(u16),
    /// `e_phentsize` is not 32. It is given.
    #[error("program headers of {0} bytes")]
    EntrySize(u16),
    /// `e_phnum` is over 4,096. It is given.
    #[error("{0} program headers")]
    TooMany(u16),
    /// The program header table ends past the file.
    #[error("program headers past the end of the file")]
    HeaderPastEnd,
    /// `p_filesz` is over `p_memsz`. The segment's index is given.
    #[error("segment {0} is larger in the file than in memory")]
    SegmentSize(u32),
    /// `p_vaddr + p_memsz` is over 2^32. The segment's index is given.
    #[error("segment {0} ends past the last address")]
    AddressWrap(u32),
    /// The file is no core file, and the segment ends past it. The segment's index is given.
    #[error("segment {0} ends past the end of the file")]
    SegmentPastEnd(u32),
}
