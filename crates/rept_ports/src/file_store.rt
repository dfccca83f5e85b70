//! Files in memory.

ghost use Rattle.std.specs.Prelude.{◌≡◌, ◌≤◌, ◌<◌, [], ℕ, List, length, IfOk, OnOk, OnErr, IsErrOf, IsSomeAnd, None, Some, if◌then◌else◌};
ghost use Rattle.std.specs.Option.{option_map};
ghost use Rattle.std.specs.Str.{bytes_eq};
ghost use Rattle.rept_ports.specs.FileList.{file_in, file_list};

use crate::traits::{FileStore, LoadFault, OutOfMemory};
use std::alloc::Global;
use std::collections::BTreeMap;
use std::marker::Model;

/// Files in memory, whose loads never fail but for memory. Contracts see the list of names and
/// bytes, and the number of loads.
#[derive(Drop)]
pub struct InfallibleFileStore {
    alloc: Global,
    files: BTreeMap<String, Vec<u8>>,
    calls: u64,
}

impl Model for InfallibleFileStore {
    ghost use Rattle.rept_ports.specs.FileList.{file_list};
    ghost use Rattle.rept_ports.specs.Memory.{CalmState};

    ghost Value = { CalmState };

    ghost view = { λ s. record { files = file_list s.files.entries; calls = s.calls } };
}

impl InfallibleFileStore {
    ghost use Rattle.rept_ports.specs.Memory.{CalmState};

    /// No files.
    pub fn new(alloc: Global) -> InfallibleFileStore
        ensures { result ≡ record { files = []; calls = 0 } }
    {
        InfallibleFileStore {
            alloc,
            files: BTreeMap::new(alloc),
            calls: 0,
        }
    }

    /// Makes the bytes the file of this name. Its only refusal is of memory, and changes nothing.
    pub fn put(&mut self, name: &str, bytes: &[u8]) -> Result<(), OutOfMemory>
        ensures ok { OnOk result ((q : List ℕ) → file_in self.new.files q ≡ (if bytes_eq name.now q then Some bytes.now else file_in self.old.files q)) }
        ensures stays { let old : CalmState = self.old in self.new ≡ record old { files = self.new.files } }
        ensures err { OnErr result (self.new ≡ self.old) }
    {
        let name = String::from_str(self.alloc, name)?;
        let bytes = Vec::from_slice(self.alloc, bytes)?;
        self.files.insert(name, bytes)?;
        Ok(())
    }

    /// The bytes of the file of this name.
    fn find(&self, name: &str) -> Option<&[u8]>
        ensures { option_map (λ b. b.now) result ≡ file_in self.now.files name.now }
    {
        file_of(&self.files, name)
    }
}

impl FileStore for InfallibleFileStore {
    ghost use Rattle.std.specs.Prelude.{Some, length, ◌≤◌, ◌≡◌, IfOk, IfErr};
    ghost use Rattle.rept_ports.specs.Causes.{next_count};
    ghost use Rattle.rept_ports.specs.Memory.{CalmState, calm_shelved};
    ghost use Rattle.rept_ports.specs.Shelves.{Loads, LoadFails};

    ghost port = { λ s. calm_shelved s };

    /// A copy of the bytes of the file of this name. It is never `Failed`.
    fn load(&mut self, alloc: Global, name: &str, limit: usize) -> Result<Vec<u8>, LoadFault>
        ensures within { IfOk result (λ v. length v.items ≤ limit) }
        ensures bytes { IfOk result (λ v. file_in self.old.files name.now ≡ Some v.items) }
        ensures loads { Loads (calm_shelved self.old) (calm_shelved self.new) result }
        ensures err { IfErr result (LoadFails (calm_shelved self.old) (calm_shelved self.new) name.now limit) }
        ensures never { IsErrOf result LoadFault.Failed → ⊥ }
        ensures stays { let old : CalmState = self.old in self.new ≡ record old { calls = next_count self.old.calls } }
    {
        self.calls = self.calls.saturating_add(1);
        copy_of(alloc, self.find(name), limit)
    }
}

/// The bytes of the file of this name.
fn file_of<'a>(files: &'a BTreeMap<String, Vec<u8>>, name: &str) -> Option<&'a [u8]>
    ensures { option_map (λ b. b.now) result ≡ file_in (file_list files.now.entries) name.now }
{
    match files.get(name) {
        Some(bytes) => Some(bytes.as_slice()),
        None => None,
    }
}

/// A copy of the bytes, where there are any and no more than `limit`.
fn copy_of(alloc: Global, bytes: Option<&[u8]>, limit: usize) -> Result<Vec<u8>, LoadFault>
    ensures ok { IfOk result (λ v. (length v.items ≤ limit) × (option_map (λ b. b.now) bytes.entry ≡ Some v.items)) }
    ensures missing { IsErrOf result LoadFault.Missing → bytes.entry ≡ None }
    ensures too_large { IsErrOf result LoadFault.TooLarge → IsSomeAnd bytes.entry (λ b. limit < length b.now) }
    ensures failed { IsErrOf result LoadFault.Failed → ⊥ }
{
    let Some(bytes) = bytes else {
        return Err(LoadFault::Missing);
    };
    if bytes.len() > limit {
        return Err(LoadFault::TooLarge);
    }
    let copy = Vec::from_slice(alloc, bytes).map_err(|_| LoadFault::OutOfMemory)?;
    Ok(copy)
}

/// Files in memory. The loads whose numbers are listed fail; the first load has the number 1.
#[derive(Drop)]
pub struct MemoryFileStore {
    file_store: InfallibleFileStore,
    fails: Vec<u64>,
    calls: u64,
    faults: u64,
}

impl Model for MemoryFileStore {
    ghost use Rattle.rept_ports.specs.Memory.{FileStoreState};

    ghost Value = { FileStoreState };

    ghost view = { λ s. record { files = s.file_store.files; fails = s.fails.items; calls = s.calls; faults = s.faults } };
}

impl MemoryFileStore {
    ghost use Rattle.rept_ports.specs.Memory.{new_file_store, FileStoreState};

    /// No files, and the loads of these numbers are to fail. Its only refusal is of memory.
    pub fn new(alloc: Global, fails: &[u64]) -> Result<MemoryFileStore, OutOfMemory>
        ensures { IfOk result (λ s. s ≡ new_file_store fails.now) }
    {
        let fails = Vec::from_slice(alloc, fails)?;
        Ok(MemoryFileStore {
            file_store: InfallibleFileStore::new(alloc),
            fails,
            calls: 0,
            faults: 0,
        })
    }

    /// Makes the bytes the file of this name. Its only refusal is of memory, and changes nothing.
    pub fn put(&mut self, name: &str, bytes: &[u8]) -> Result<(), OutOfMemory>
        ensures ok { OnOk result ((q : List ℕ) → file_in self.new.files q ≡ (if bytes_eq name.now q then Some bytes.now else file_in self.old.files q)) }
        ensures stays { let old : FileStoreState = self.old in self.new ≡ record old { files = self.new.files } }
        ensures err { OnErr result (self.new ≡ self.old) }
    {
        self.file_store.put(name, bytes)
    }
}

impl FileStore for MemoryFileStore {
    ghost use Rattle.std.specs.Prelude.{Some, length, ◌≤◌, ◌≡◌, IfOk, IfErr, IfSome, Ok, Err};
    ghost use Rattle.rept_ports.specs.Memory.{FileStoreStep, shelved};
    ghost use Rattle.rept_ports.specs.Shelves.{Loads, LoadFails};

    ghost port = { λ s. shelved s };

    /// A copy of the bytes of the file of this name. `Failed` comes exactly where the number of
    /// this load is listed.
    fn load(&mut self, alloc: Global, name: &str, limit: usize) -> Result<Vec<u8>, LoadFault>
        ensures within { IfOk result (λ v. length v.items ≤ limit) }
        ensures bytes { IfOk result (λ v. file_in self.old.files name.now ≡ Some v.items) }
        ensures loads { Loads (shelved self.old) (shelved self.new) result }
        ensures err { IfErr result (LoadFails (shelved self.old) (shelved self.new) name.now limit) }
        ensures step { FileStoreStep self.old self.new result }
    {
        self.calls = self.calls.saturating_add(1);
        if self.fails.contains(&self.calls) {
            self.faults = self.faults.saturating_add(1);
            return Err(LoadFault::Failed);
        }
        copy_of(alloc, self.file_store.find(name), limit)
    }
}
