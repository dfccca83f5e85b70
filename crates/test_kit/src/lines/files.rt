//! Executables and core files of a few words, by the ELF specification.

use crate::lines::bytes::append_zeros;
use std::alloc::{AllocError, Global};

/// Appends words.
fn append(file: &mut Vec<u8>, words: &[u32]) -> Result<(), AllocError> {
    for word in words {
        file.extend_from_slice(&word.to_le_bytes())?;
    }
    Ok(())
}

/// An executable of one code segment at an address.
pub fn executable(alloc: Global, base: u32, code: &[u32]) -> Result<Vec<u8>, AllocError> {
    let Ok(count) = u32::try_from(code.len()) else {
        return Err(AllocError);
    };
    let size = count.wrapping_mul(4);
    let head = [
        0x464c_457f,
        0x1_0101,
        0,
        0,
        0xf3_0002,
        1,
        0x1_0000,
        0x34,
        0,
        0,
        0x20_0034,
        1,
        0,
        1,
        0x54,
        base,
        base,
        size,
        size,
        5,
        4,
    ];
    let mut file = Vec::new(alloc);
    append(&mut file, &head)?;
    append(&mut file, code)?;
    Ok(file)
}

/// What a status note says: the signal, the process, the program counter, and x5, x6 and x7; all
/// other registers are 0.
type Status = (u32, u32, u32, [u32; 3]);

fn append_status(file: &mut Vec<u8>, status: Status) -> Result<(), AllocError> {
    let (signal, process, pc, [x5, x6, x7]) = status;
    append(file, &[5, 0xcc, 1, 0x4552_4f43, 0])?;
    append(file, &[0, 0, 0, signal, 0, 0, process])?;
    append_zeros(file, 44)?;
    append(file, &[pc, 0, 0, 0, 0, x5, x6, x7])?;
    append_zeros(file, 100)
}

/// The headers of a core file of segments, of which the first one is of notes of this size.
fn core_of_notes(
    alloc: Global,
    segments: u32,
    start: u32,
    size: u32,
) -> Result<Vec<u8>, AllocError> {
    let head = [
        0x464c_457f,
        0x1_0101,
        0,
        0,
        0xf3_0004,
        1,
        0,
        0x34,
        0,
        0,
        0x20_0034,
        segments,
        0,
        4,
        start,
        0,
        0,
        size,
        0,
        0,
        0,
    ];
    let mut file = Vec::new(alloc);
    append(&mut file, &head)?;
    Ok(file)
}

/// A core file of one status note: the program counter, and x5, x6 and x7; all other registers are
/// 0.
pub fn core_file(alloc: Global, pc: u32, registers: [u32; 3]) -> Result<Vec<u8>, AllocError> {
    let mut file = core_of_notes(alloc, 1, 0x54, 224)?;
    append_status(&mut file, (11, 1, pc, registers))?;
    Ok(file)
}

/// A core file of a status note for each thread: of each its process and its program counter; all
/// other registers are 0.
pub fn core_of_threads(alloc: Global, threads: &[(u32, u32)]) -> Result<Vec<u8>, AllocError> {
    let Ok(count) = u32::try_from(threads.len()) else {
        return Err(AllocError);
    };
    let mut file = core_of_notes(alloc, 1, 0x54, count.wrapping_mul(224))?;
    for (process, pc) in threads {
        append_status(&mut file, (0, *process, *pc, [0, 0, 0]))?;
    }
    Ok(file)
}

/// A core file of one status note and one segment of four bytes at an address.
pub fn core_with_word(
    alloc: Global,
    pc: u32,
    registers: [u32; 3],
    base: u32,
    word: u32,
) -> Result<Vec<u8>, AllocError> {
    let mut file = core_of_notes(alloc, 2, 0x74, 224)?;
    append(&mut file, &[1, 0x154, base, base, 4, 4, 6, 4])?;
    append_status(&mut file, (11, 1, pc, registers))?;
    append(&mut file, &[word])?;
    Ok(file)
}
