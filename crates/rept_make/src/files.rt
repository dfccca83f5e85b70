//! The executable and the core file of a made crash.

ghost use Rattle.std.specs.Prelude.{◌≡◌, ◌≤◌, ◌^◌, ◌++◌, OnOk, IfOk};
ghost use Rattle.rept_make.specs.Files.{bytes_of_words, executable, core_header, note_start, core_file};

use rept_word::{OutOfMemory, Text};
use std::alloc::Global;

/// The header of an executable, and its only program header up to the size of the code.
const EXE_START: [u8; 68] = [
    0x7f, 0x45, 0x4c, 0x46, 1, 1, 1, 0, 0, 0, 0, 0, 0, 0, 0, 0, 2, 0, 0xf3, 0, 1, 0, 0, 0, 0, 0, 1,
    0, 0x34, 0, 0, 0, 0, 0, 0, 0, 0, 0, 0, 0, 0x34, 0, 0x20, 0, 1, 0, 0, 0, 0, 0, 0, 0, 1, 0, 0, 0,
    0x54, 0, 0, 0, 0, 0, 1, 0, 0, 0, 1, 0,
];

/// The header of a core file, and its two program headers up to the size of the notes.
const CORE_START: [u8; 68] = [
    0x7f, 0x45, 0x4c, 0x46, 1, 1, 1, 0, 0, 0, 0, 0, 0, 0, 0, 0, 4, 0, 0xf3, 0, 1, 0, 0, 0, 0, 0, 0,
    0, 0x34, 0, 0, 0, 0, 0, 0, 0, 0, 0, 0, 0, 0x34, 0, 0x20, 0, 2, 0, 0, 0, 0, 0, 0, 0, 4, 0, 0, 0,
    0x74, 0, 0, 0, 0, 0, 0, 0, 0, 0, 0, 0,
];

/// A register note up to its process.
const NOTE_START: [u8; 44] = [
    5, 0, 0, 0, 0xcc, 0, 0, 0, 1, 0, 0, 0, 0x43, 0x4f, 0x52, 0x45, 0, 0, 0, 0, 0, 0, 0, 0, 0, 0, 0,
    0, 0, 0, 0, 0, 0x0b, 0, 0, 0, 0, 0, 0, 0, 0, 0, 0, 0,
];

/// What stands between the process and the registers of a register note.
const NOTE_MIDDLE: [u8; 44] = [0; 44];

/// Adds words of 32 bits as bytes, the least byte of each first.
pub fn push_words(text: &mut Text, words: &[u32]) -> Result<(), OutOfMemory>
    ensures { OnOk result (text.new ≡ text.old ++ bytes_of_words words.now) }
{
    for word in words {
        text.push(&word.to_le_bytes())?;
    }
    Ok(())
}

/// The executable of these words of code, which are `size` bytes from 0x10000 on. Of the flags 4 is
/// to read, 2 to write and 1 to run.
pub fn executable(alloc: Global, size: u32, flags: u32, code: &[u32]) -> Result<Text, OutOfMemory>
    ensures { IfOk result (λ file. file ≡ executable size flags code.now) }
{
    let mut file = Text::new(alloc);
    file.push(&EXE_START)?;
    push_words(&mut file, &[size, size, flags, 4])?;
    push_words(&mut file, code)?;
    Ok(file)
}

/// Adds the header of a core file: notes of so many bytes, and after them data of `size` bytes,
/// which stand from 0x20000 on.
pub fn push_core_header(file: &mut Text, notes: u32, size: u32) -> Result<(), OutOfMemory>
    requires { notes ≤ 2 ^ 16 }
    ensures { OnOk result (file.new ≡ file.old ++ core_header notes size) }
{
    file.push(&CORE_START)?;
    push_words(
        file,
        &[notes, 0, 0, 0, 1, 116 + notes, 0x20000, 0, size, size, 6, 1],
    )?;
    Ok(())
}

/// Adds the register note of a process up to its registers: the program counter and x1 to x31,
/// after which a last word ends the note.
pub fn push_note_start(file: &mut Text, process: u8) -> Result<(), OutOfMemory>
    ensures { OnOk result (file.new ≡ file.old ++ note_start process) }
{
    file.push(&NOTE_START)?;
    file.push(&[process, 0, 0, 0])?;
    file.push(&NOTE_MIDDLE)?;
    Ok(())
}

/// The core file of a program counter with the registers x1 to x31, and of data.
pub fn core_file(alloc: Global, registers: &[u32], data_bytes: &[u8]) -> Result<Text, OutOfMemory>
    ensures { IfOk result (λ file. file ≡ core_file registers.now data_bytes.now) }
{
    let mut file = Text::new(alloc);
    push_core_header(&mut file, 224, 1024)?;
    push_note_start(&mut file, 1)?;
    push_words(&mut file, registers)?;
    file.push(&[0, 0, 0, 0])?;
    file.push(data_bytes)?;
    Ok(file)
}
