//! The ports over the system.

ghost use Rattle.std.specs.Prelude.{◌≡◌, ◌≤◌, length, IfOk};

use crate::traits::{Failed, FileStore, LoadFault, Sink, Source};
use std::alloc::Global;
use std::io::{ErrorKind, Read, Write};
use std::marker::Model;
use std::rt::Files;
use std::{fs, io};

/// Files of the system, which are not told. Contracts see how many loads were asked for, and how
/// many failed.
#[derive(Drop)]
pub struct DiskFileStore<R> {
    rt: R,
    loads: u64,
    faults: u64,
}

impl<R> Model for DiskFileStore<R> {
    ghost use Rattle.rept_ports.specs.Host.{DiskState};

    ghost Value = { DiskState };

    ghost view = { λ s. record { loads = s.loads; faults = s.faults } };
}

impl<R: Files> DiskFileStore<R> {
    /// The files that the runtime reaches. No load was asked for.
    pub fn new(rt: R) -> DiskFileStore<R>
        ensures { result ≡ record { loads = 0; faults = 0 } }
    {
        DiskFileStore {
            rt,
            loads: 0,
            faults: 0,
        }
    }
}

impl<R: Files> FileStore for DiskFileStore<R> {
    ghost use Rattle.std.specs.Prelude.{None, ◌≡◌, ◌≤◌, length, IfOk, IfErr, is_ok, if◌then◌else◌};
    ghost use Rattle.rept_ports.specs.Shelves.{Shelved, Loads, LoadFails};
    ghost use Rattle.rept_ports.specs.Causes.{next_count};

    ghost port = { λ s. record { files = None; loads = s.loads; faults = s.faults } };

    /// The bytes of the file at this path. Of a larger file `limit + 1` bytes are read, and it is
    /// `TooLarge`. A path that names nothing is `Missing`, and one that names a folder or cannot be
    /// read `Failed`. Each fault is counted.
    fn load(&mut self, alloc: Global, name: &str, limit: usize) -> Result<Vec<u8>, LoadFault>
        ensures within { IfOk result (λ v. length v.items ≤ limit) }
        ensures loads { Loads (record { files = None; loads = self.old.loads; faults = self.old.faults }) (record { files = None; loads = self.new.loads; faults = self.new.faults }) result }
        ensures err { IfErr result (LoadFails (record { files = None; loads = self.old.loads; faults = self.old.faults }) (record { files = None; loads = self.new.loads; faults = self.new.faults }) name.now limit) }
        ensures counts { self.new.faults ≡ (if is_ok result then self.old.faults else next_count self.old.faults) }
    {
        self.loads = self.loads.saturating_add(1);
        let loaded = read_at_most(&self.rt, alloc, name, limit);
        if loaded.is_err() {
            self.faults = self.faults.saturating_add(1);
        }
        loaded
    }

    /// The bytes of the regular file at this path. `Missing` is also the answer for a path that
    /// names a folder, a pipe, a device or a socket, or leads to one by links; it is looked at
    /// before it is opened.
    fn load_regular(
        &mut self,
        alloc: Global,
        name: &str,
        limit: usize,
    ) -> Result<Vec<u8>, LoadFault>
        ensures within { IfOk result (λ v. length v.items ≤ limit) }
        ensures loads { Loads (record { files = None; loads = self.old.loads; faults = self.old.faults }) (record { files = None; loads = self.new.loads; faults = self.new.faults }) result }
        ensures err { IfErr result (LoadFails (record { files = None; loads = self.old.loads; faults = self.old.faults }) (record { files = None; loads = self.new.loads; faults = self.new.faults }) name.now limit) }
        ensures counts { self.new.faults ≡ (if is_ok result then self.old.faults else next_count self.old.faults) }
    {
        self.loads = self.loads.saturating_add(1);
        let loaded = read_regular(&self.rt, alloc, name, limit);
        if loaded.is_err() {
            self.faults = self.faults.saturating_add(1);
        }
        loaded
    }
}

/// The bytes of a file of the system, of which at most one more than `limit` are read.
fn read_at_most<R: Files>(
    rt: &R,
    alloc: Global,
    name: &str,
    limit: usize,
) -> Result<Vec<u8>, LoadFault>
    ensures { IfOk result (λ v. length v.items ≤ limit) }
{
    let file = fs::open(rt, name).map_err(|e| fault_of(&e))?;
    let mut bytes = Vec::new(alloc);
    let most = (limit as u64).saturating_add(1);
    file.take(most)
        .read_to_end(&mut bytes)
        .map_err(|e| fault_of(&e))?;
    if bytes.len() > limit {
        return Err(LoadFault::TooLarge);
    }
    Ok(bytes)
}

/// The bytes of a regular file of the system, of which at most one more than `limit` are read.
fn read_regular<R: Files>(
    rt: &R,
    alloc: Global,
    name: &str,
    limit: usize,
) -> Result<Vec<u8>, LoadFault>
    ensures { IfOk result (λ v. length v.items ≤ limit) }
{
    let found = fs::metadata(rt, name).map_err(|e| fault_of(&e))?;
    if !found.is_file() {
        return Err(LoadFault::Missing);
    }
    read_at_most(rt, alloc, name, limit)
}

fn fault_of(error: &io::Error) -> LoadFault {
    match error.kind() {
        ErrorKind::NotFound => LoadFault::Missing,
        ErrorKind::OutOfMemory => LoadFault::OutOfMemory,
        _ => LoadFault::Failed,
    }
}

/// Standard input, or another reader. It tells nothing of what is left. Contracts see the reader
/// and how many reads failed.
#[derive(Drop)]
pub struct StdSource<R> {
    reader: R,
    faults: u64,
}

impl<R> Model for StdSource<R> {
    ghost use Rattle.rept_ports.specs.Host.{Counted};

    ghost Value = { Counted R };

    ghost view = { λ s. record { device = s.reader; faults = s.faults } };
}

impl<R: Read> StdSource<R> {
    /// The bytes of this reader. No read has failed.
    pub fn new(reader: R) -> StdSource<R>
        ensures { result ≡ record { device = reader; faults = 0 } }
    {
        StdSource { reader, faults: 0 }
    }
}

impl<R: Read> Source for StdSource<R> {
    ghost use Rattle.std.specs.Prelude.{None, ◌≡◌, is_ok, if◌then◌else◌};
    ghost use Rattle.std.specs.Io.{ReadsAtMost};
    ghost use Rattle.std.specs.Io.KnownBytes.{ReadConsumes};
    ghost use Rattle.rept_ports.specs.Causes.{HasCause, next_count};

    ghost port = { λ s. record { bytes = None; faults = s.faults } };

    /// Reads once from the reader. `Failed` comes where the reader failed, and is counted.
    fn read(&mut self, into: &mut [u8]) -> Result<usize, Failed>
        ensures bound { ReadsAtMost result into.new }
        ensures cause { HasCause self.old.faults self.new.faults result }
        ensures passes { ReadConsumes (R.remaining self.old.device) (R.remaining self.new.device) result into.new }
        ensures counts { self.new.faults ≡ (if is_ok result then self.old.faults else next_count self.old.faults) }
    {
        match self.reader.read(into) {
            Ok(count) => Ok(count),
            Err(_) => {
                self.faults = self.faults.saturating_add(1);
                Err(Failed)
            }
        }
    }
}

/// Standard output, or another writer. It tells nothing of what was written. Contracts see the
/// writer and how many writes failed.
#[derive(Drop)]
pub struct StdSink<W> {
    writer: W,
    faults: u64,
}

impl<W> Model for StdSink<W> {
    ghost use Rattle.rept_ports.specs.Host.{Counted};

    ghost Value = { Counted W };

    ghost view = { λ s. record { device = s.writer; faults = s.faults } };
}

impl<W: Write> StdSink<W> {
    /// What is written goes to this writer. No write has failed.
    pub fn new(writer: W) -> StdSink<W>
        ensures { result ≡ record { device = writer; faults = 0 } }
    {
        StdSink { writer, faults: 0 }
    }
}

impl<W: Write> Sink for StdSink<W> {
    ghost use Rattle.std.specs.Prelude.{None, ◌≡◌, ◌≤◌, ◌<◌, length, IfOk, is_ok, if◌then◌else◌};
    ghost use Rattle.std.specs.Io.KnownBytes.{WriteAppends};
    ghost use Rattle.rept_ports.specs.Causes.{HasCause, next_count};

    ghost port = { λ s. record { bytes = None; faults = s.faults } };

    /// Writes once to the writer. `Failed` comes where the writer failed or took nothing of a piece
    /// that is not empty, and is counted.
    fn write(&mut self, piece: &[u8]) -> Result<usize, Failed>
        ensures bound { IfOk result (λ n. n ≤ length piece.now) }
        ensures progress { IfOk result (λ n. 0 < length piece.now → 0 < n) }
        ensures cause { HasCause self.old.faults self.new.faults result }
        ensures passes { WriteAppends (W.contents self.old.device) (W.contents self.new.device) result piece.now }
        ensures counts { self.new.faults ≡ (if is_ok result then self.old.faults else next_count self.old.faults) }
    {
        match self.writer.write(piece) {
            Ok(count) if count > 0 || piece.is_empty() => Ok(count),
            _ => {
                self.faults = self.faults.saturating_add(1);
                Err(Failed)
            }
        }
    }
}
