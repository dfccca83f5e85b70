//! In which order lines are read and answers written.

use crate::crash::{Crash, word_list};
use rept_app::rept;
use rept_ports::{Failed, Sink, Source};
use std::alloc::{AllocError, Global};
use std::cell::Cell;

/// A source that gives one line a read, and notes its calls.
#[derive(Drop)]
struct LineByLine<'a> {
    text: &'a [u8],
    notes: &'a Cell<u64>,
    faults: u64,
}

impl<'a> Source for LineByLine<'a> {
    ghost use Rattle.std.specs.Prelude.{None};

    ghost port = { λ s. record { bytes = None; faults = s.faults } };

    fn read(&mut self, into: &mut [u8]) -> Result<usize, Failed> {
        self.notes
            .set(self.notes.get().wrapping_mul(10).wrapping_add(1));
        let found = self.text.iter().position(|b| *b == b'\n');
        let len = found.map_or(self.text.len(), |at| at + 1);
        if len > into.len() {
            self.faults = self.faults.saturating_add(1);
            return Err(Failed);
        }
        let (line, rest) = self.text.split_at(len);
        into[..len].copy_from_slice(line);
        self.text = rest;
        Ok(len)
    }
}

/// A sink that notes its calls.
#[derive(Drop)]
struct Noting<'a> {
    notes: &'a Cell<u64>,
}

impl<'a> Sink for Noting<'a> {
    ghost use Rattle.std.specs.Prelude.{None};

    ghost port = { λ _. record { bytes = None; faults = 0 } };

    fn write(&mut self, piece: &[u8]) -> Result<usize, Failed> {
        self.notes
            .set(self.notes.get().wrapping_mul(10).wrapping_add(2));
        Ok(piece.len())
    }
}

/// The number of the status, and the calls of the ports in their order: 1 is a read, and 2 a write.
pub fn told(alloc: Global, crash: &Crash, line: &str) -> Result<String, AllocError> {
    let words = word_list(alloc, line)?;
    let mut file_store = crash.file_store(alloc)?;
    let notes = Cell::new(0u64);
    let mut source = LineByLine {
        text: crash.input(),
        notes: &notes,
        faults: 0,
    };
    let mut sink = Noting { notes: &notes };
    let status = rept(
        alloc,
        words.as_slice(),
        &mut file_store,
        &mut source,
        &mut sink,
    );
    format!(in alloc; "{} {}", status.number(), notes.get())
}
