//! Inputs in memory.

ghost use Rattle.std.specs.Prelude.{◌≡◌, IfOk};

use crate::traits::{Failed, OutOfMemory, Source};
use std::alloc::Global;
use std::marker::Model;

/// Bytes in memory, which never fail. Contracts see the bytes that are left.
#[derive(Drop)]
pub struct InfallibleSource<'a> {
    rest: &'a [u8],
}

impl<'a> Model for InfallibleSource<'a> {
    ghost use Rattle.std.specs.Prelude.{List, ℕ};

    ghost Value = { List ℕ };

    ghost view = { λ s. s.rest.now };
}

impl<'a> InfallibleSource<'a> {
    /// All of these bytes are left.
    pub fn new(bytes: &'a [u8]) -> InfallibleSource<'a>
        ensures { result ≡ bytes.now }
    {
        InfallibleSource { rest: bytes }
    }
}

impl<'a> Source for InfallibleSource<'a> {
    ghost use Rattle.std.specs.Prelude.{Some};
    ghost use Rattle.std.specs.Io.{ReadsAtMost};
    ghost use Rattle.std.specs.Io.KnownBytes.{ReadConsumes};
    ghost use Rattle.rept_ports.specs.Causes.{HasCause};
    ghost use Rattle.rept_ports.specs.Memory.{CalmRead};

    ghost port = { λ s. record { bytes = Some s; faults = 0 } };

    /// Moves as many bytes as are left and fit. It never fails.
    fn read(&mut self, into: &mut [u8]) -> Result<usize, Failed>
        ensures bound { ReadsAtMost result into.new }
        ensures bytes { ReadConsumes (Some self.old) (Some self.new) result into.new }
        ensures cause { HasCause 0 0 result }
        ensures step { CalmRead self.old self.new into.old into.new result }
    {
        let count = self.rest.len().min(into.len());
        let (front, rest) = self.rest.split_at(count);
        into[..count].copy_from_slice(front);
        self.rest = rest;
        Ok(count)
    }
}

/// Bytes in memory. The reads whose numbers are listed fail; the first read has the number 1.
#[derive(Drop)]
pub struct MemSource<'a> {
    rest: &'a [u8],
    fails: Vec<u64>,
    calls: u64,
    faults: u64,
}

impl<'a> Model for MemSource<'a> {
    ghost use Rattle.rept_ports.specs.Memory.{SourceState};

    ghost Value = { SourceState };

    ghost view = { λ s. record { left = s.rest.now; fails = s.fails.items; calls = s.calls; faults = s.faults } };
}

impl<'a> MemSource<'a> {
    ghost use Rattle.rept_ports.specs.Memory.{new_source};

    /// All of these bytes are left, and the reads of these numbers are to fail. Its only refusal is
    /// of memory.
    pub fn new(alloc: Global, bytes: &'a [u8], fails: &[u64]) -> Result<MemSource<'a>, OutOfMemory>
        ensures { IfOk result (λ s. s ≡ new_source bytes.now fails.now) }
    {
        let fails = Vec::from_slice(alloc, fails)?;
        Ok(MemSource {
            rest: bytes,
            fails,
            calls: 0,
            faults: 0,
        })
    }
}

impl<'a> Source for MemSource<'a> {
    ghost use Rattle.std.specs.Prelude.{Some};
    ghost use Rattle.std.specs.Io.{ReadsAtMost};
    ghost use Rattle.std.specs.Io.KnownBytes.{ReadConsumes};
    ghost use Rattle.rept_ports.specs.Causes.{HasCause};
    ghost use Rattle.rept_ports.specs.Memory.{SourceStep};

    ghost port = { λ s. record { bytes = Some s.left; faults = s.faults } };

    /// Moves as many bytes as are left and fit. `Failed` comes exactly where the number of this
    /// read is listed.
    fn read(&mut self, into: &mut [u8]) -> Result<usize, Failed>
        ensures bound { ReadsAtMost result into.new }
        ensures bytes { ReadConsumes (Some self.old.left) (Some self.new.left) result into.new }
        ensures cause { HasCause self.old.faults self.new.faults result }
        ensures step { SourceStep self.old self.new into.old into.new result }
    {
        self.calls = self.calls.saturating_add(1);
        if self.fails.contains(&self.calls) {
            self.faults = self.faults.saturating_add(1);
            return Err(Failed);
        }
        let count = self.rest.len().min(into.len());
        let (front, rest) = self.rest.split_at(count);
        into[..count].copy_from_slice(front);
        self.rest = rest;
        Ok(count)
    }
}
