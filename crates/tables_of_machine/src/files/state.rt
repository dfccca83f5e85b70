//! Files that the lines of a table make, one after another.

use crate::files::ports::Ports;
use crate::files::{images, system};
use std::alloc::{AllocError, Global};
use std::{mem, rt};
use test_kit::lines::bytes::{append_zeros, changed};
use test_kit::{Numbers, Table};

/// A real executable and its core file, an executable, a file that is being made, and ports.
#[derive(Drop)]
pub struct Files<'r, R> {
    rt: &'r R,
    real: Vec<u8>,
    real_core: Vec<u8>,
    exe: Vec<u8>,
    file: Vec<u8>,
    ports: Ports,
}

impl<'r, R: rt::Files> Files<'r, R> {
    /// Beside the real files none is made yet.
    pub fn new(
        alloc: Global,
        rt: &'r R,
        real: Vec<u8>,
        real_core: Vec<u8>,
    ) -> Result<Files<'r, R>, AllocError> {
        let ports = Ports::new(alloc)?;
        Ok(Files {
            rt,
            real,
            real_core,
            exe: Vec::new(alloc),
            file: Vec::new(alloc),
            ports,
        })
    }

    /// Makes the file longer or puts it in the place of the executable, and answers whether it was
    /// asked to.
    fn make(&mut self, asked: &str, n: &Numbers) -> Result<bool, AllocError> {
        match asked {
            "exe" => mem::swap(&mut self.exe, &mut self.file),
            "notes" => append_notes(&mut self.file, n)?,
            "crash" => self.file.extend_from_slice(self.real.as_slice())?,
            "crashed" => self.file.extend_from_slice(self.real_core.as_slice())?,
            _ => return Ok(false),
        }
        Ok(true)
    }
}

impl<'r, R: rt::Files> Table for Files<'r, R> {
    fn answer(&mut self, alloc: Global, asked: &str, n: &Numbers) -> Result<String, AllocError> {
        if test_kit::lines::bytes::make(alloc, &mut self.file, asked, n)?
            || self.make(asked, n)?
            || self.ports.take(alloc, self.file.as_slice(), asked, n)?
        {
            return format!(in alloc; "{}", self.file.len());
        }
        match asked {
            "load" | "kept" | "write" | "whole" | "source" | "lines" => {
                self.ports.answer(alloc, self.file.as_slice(), asked, n)
            }
            "disk" | "pipe" | "read" | "written" => system::answer(alloc, self.rt, asked, n),
            _ => {
                let file = changed(alloc, self.file.as_slice(), n)?;
                let (exe, file) = (self.exe.as_slice(), file.as_slice());
                images::answer(alloc, asked, n.word(0), exe, file)
            }
        }
    }
}

/// Appends so many register notes, of processes from a number on, with descriptors of a size.
fn append_notes(file: &mut Vec<u8>, n: &Numbers) -> Result<(), AllocError> {
    let size = n.word(2);
    let mut process = n.word(1);
    for _ in 0..n.word(0) {
        append_note(file, size, process)?;
        process = process.wrapping_add(1);
    }
    Ok(())
}

/// Appends the register note of a process, with a descriptor of a size.
fn append_note(file: &mut Vec<u8>, size: u32, process: u32) -> Result<(), AllocError> {
    for word in [5, size, 1, 0x4552_4f43, 0, 0, 0, 0, 0, 0, 0, process] {
        file.extend_from_slice(&u32::to_le_bytes(word))?;
    }
    append_zeros(file, size.saturating_sub(28))
}
