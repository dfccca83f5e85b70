//! A segment of a file, and the bits of its flags.

/// `p_type` of a segment that is part of memory.
pub const PT_LOAD: u32 = 1;

/// `p_type` of a segment that holds notes.
pub const PT_NOTE: u32 = 4;

/// The bit of `p_flags` that lets a segment be executed.
pub const PF_X: u32 = 1;

/// The bit of `p_flags` that lets a segment be written.
pub const PF_W: u32 = 2;

/// A segment: the fields of its program header, and the bytes that the file has of it.
#[derive(Clone, Copy, Debug)]
pub struct Segment<'a> {
    /// `p_type`, as `PT_LOAD` or `PT_NOTE`.
    pub kind: u32,
    /// `p_offset`: the offset of the segment in the file.
    pub offset: u32,
    /// `p_vaddr`: the address of its first byte.
    pub vaddr: u32,
    /// `p_memsz`: its count of bytes in memory.
    pub memsz: u32,
    /// `p_filesz`: its count of bytes in the file.
    pub filesz: u32,
    /// `p_flags`, with `PF_X` and `PF_W` among its bits.
    pub flags: u32,
    /// Its first `filesz` bytes, as far as the file has them.
    pub body: &'a [u8],
}
