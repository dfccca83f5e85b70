//! A path that lines make, and the files of a crash in which it ends.

ghost use Rattle.std.specs.Prelude.{◌≡◌, true};
ghost use Rattle.rept_steps.specs.Linked.{EndBefore};

use rept_isa::{Instr, StepRow, decode};
use rept_steps::Steps;
use std::alloc::{AllocError, Global};
use test_kit::Numbers;
use test_kit::lines::files::executable;

// The code of the executable, at 0x10000: 12 bytes that can't be written.
const CODE: [u32; 3] = [0x0070_0293, 0x0032_8313, 0x0062_83b3];

// The headers of a core file of a note segment, which stands at 116, and of eight bytes at 0x20000,
// which stand at 340; and the sizes, the type and the name of its note.
const CORE: [u8; 136] = *b"\x7fELF\x01\x01\x01\0\0\0\0\0\0\0\0\0\
    \x04\0\xf3\0\x01\0\0\0\0\0\0\0\x34\0\0\0\0\0\0\0\0\0\0\0\x34\0\x20\0\x02\0\0\0\0\0\0\0\
    \x04\0\0\0\x74\0\0\0\0\0\0\0\0\0\0\0\xe0\0\0\0\0\0\0\0\0\0\0\0\0\0\0\0\
    \x01\0\0\0\x54\x01\0\0\0\0\x02\0\0\0\x02\0\x08\0\0\0\x08\0\0\0\x06\0\0\0\0\0\0\0\
    \x05\0\0\0\xcc\0\0\0\x01\0\0\0CORE\0\0\0\0";

/// Steps by their address, their word and the next address, and the registers x0 to x31 at the end.
#[derive(Drop)]
pub struct Files {
    rows: Vec<(u32, u32, u32)>,
    last: Vec<u32>,
}

impl Files {
    /// No step, and all registers are 0.
    pub fn new(alloc: Global) -> Result<Files, AllocError> {
        Ok(Files {
            rows: Vec::new(alloc),
            last: Vec::from_slice(alloc, &[0; 32])?,
        })
    }

    /// Appends a step for each three numbers.
    pub fn append(&mut self, n: &Numbers) -> Result<(), AllocError> {
        for k in 0..6usize {
            if 3 * k + 2 < n.count() {
                self.rows
                    .push((n.word(3 * k), n.word(3 * k + 1), n.word(3 * k + 2)))?;
            }
        }
        Ok(())
    }

    /// Sets the register of each first of two numbers to the second.
    pub fn set(&mut self, n: &Numbers) {
        for k in 0..10usize {
            if 2 * k + 1 < n.count() {
                if let Some(value) = self.last.as_mut_slice().get_mut(n.word(2 * k) as usize) {
                    *value = n.word(2 * k + 1);
                }
            }
        }
    }

    pub fn count(&self) -> usize {
        self.rows.len()
    }

    /// The steps. None where one doesn't lead to the next, or where a word is no instruction.
    pub fn steps(&self, alloc: Global) -> Option<Steps> {
        let mut steps = Steps::new(alloc);
        let mut are_whole = true;
        for row in &self.rows {
            are_whole = push(&mut steps, *row) && are_whole;
        }
        if are_whole { Some(steps) } else { None }
    }

    /// The executable.
    pub fn exe(&self, alloc: Global) -> Result<Vec<u8>, AllocError> {
        executable(alloc, 0x10000, &CODE)
    }

    /// The core file at the end of steps: the program counter and the registers x1 to x31; the
    /// bytes at 0x20000 are 7, 0, 0, 0, 5, 6, 7, 8.
    pub fn core(&self, alloc: Global, steps: &Steps) -> Result<Vec<u8>, AllocError> {
        let mut file = Vec::from_slice(alloc, CORE.as_slice())?;
        file.extend_from_slice(&[0; 72])?;
        file.extend_from_slice(&end_of(steps).to_le_bytes())?;
        for value in self.last.iter().skip(1) {
            file.extend_from_slice(&value.to_le_bytes())?;
        }
        file.extend_from_slice(&[0, 0, 0, 0, 7, 0, 0, 0, 5, 6, 7, 8])?;
        Ok(file)
    }
}

/// Appends the step of an address, a word and a next address, and answers whether it is one and can
/// come next.
fn push(steps: &mut Steps, (at, word, next): (u32, u32, u32)) -> bool {
    let Some(instr) = decode(word) else {
        return false;
    };
    if !leads_to(steps, at) {
        return false;
    }
    let call = matches!(instr, Instr::Ecall);
    let row = StepRow {
        at,
        instr,
        next,
        call,
        short: false,
    };
    steps.push(row).is_ok()
}

/// The address after the last step, 0x10000 where there is none.
fn end_of(steps: &Steps) -> u32 {
    if steps.len() == 0 {
        0x10000
    } else {
        steps.end_pc()
    }
}

/// Whether steps lead to an address, as they do anywhere where there is none.
fn leads_to(steps: &Steps, at: u32) -> bool
    ensures { result ≡ true → EndBefore steps.now at }
{
    if steps.len() == 0 {
        return true;
    }
    steps.end_pc() == at
}
