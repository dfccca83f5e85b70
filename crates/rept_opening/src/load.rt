//! Loading the three files.

ghost use Rattle.std.specs.Prelude.{◌≡◌, ◌⊎◌, ◌≤◌, map, length, string_bytes, IsOk, IfOk, IfErr, IfSome, Some, None, Err};
ghost use Rattle.rept_ports.specs.Port.{move};
ghost use Rattle.rept_ports.specs.Shelves.{Loads};
ghost use Rattle.rept_opening.specs.Words.Words.{meaning_of};
ghost use Rattle.rept_opening.specs.Words.Asked.{core_named_by, named_by};
ghost use Rattle.rept_opening.specs.declared.refusal.FileKind.{FileKind};
ghost use Rattle.rept_opening.specs.Loading.{core_bytes, crash_bytes, limit_of, fetched_all, fetched_core, first_packet, loading, loads_to, asked_for, BothLoaded, CoreStopsAt, FitBefore, IsAsked, LoadRefuses, LoadingStops, NamesNone, FileStoreMoves, IsLastLoad};
ghost use Rattle.rept_opening.specs.Loading.Loading.{Loaded, LoadedCore};

use crate::refusal::{FileKind, Refusal};
use crate::words::{CoreNames, Domain, FileNames, Request, meaning};
use rept_ports::{FileStore, LoadFault};
use std::alloc::Global;

/// How the files of a crash are studied: the number of the packet from which the path is rebuilt,
/// and the domain in which values are followed.
#[derive(Clone, Copy)]
pub struct OpenOptions {
    pub from: u32,
    pub domain: Domain,
}

/// The bytes of the three files of a crash, and how they are studied.
#[derive(Drop)]
pub struct CrashFiles {
    pub exe: Vec<u8>,
    pub core: Vec<u8>,
    pub trace: Vec<u8>,
    pub manner: OpenOptions,
}

/// The bytes of the core file and the trace of a crash whose core file lists the files of the
/// program, and how they are studied.
#[derive(Drop)]
pub struct CoreFiles {
    pub core: Vec<u8>,
    pub trace: Vec<u8>,
    pub manner: OpenOptions,
}

/// What the words ask for: the files of a crash, which are loaded, or a made run.
#[derive(Drop)]
pub enum LoadedRequest {
    Files(CrashFiles),
    Maps(CoreFiles),
    Made { seed: u32, steps: u32 },
}

/// The most bytes of a file: 64 MiB of an executable, 256 MiB of a core file, 16 MiB of a trace.
fn limit(kind: FileKind) -> usize
    ensures { result ≡ limit_of kind }
{
    match kind {
        FileKind::Exe => 64 << 20,
        FileKind::Core => 256 << 20,
        FileKind::Trace => 16 << 20,
    }
}

/// Loads one file.
fn load_file<H: FileStore>(
    alloc: Global,
    file_store: &mut H,
    name: &str,
    kind: FileKind,
) -> Result<Vec<u8>, Refusal>
    ensures bytes { IfOk result (λ v. IfSome (H.port file_store.old).files (λ files. files name.now ≡ Some v.items)) }
    ensures within { IfOk result (λ v. length v.items ≤ limit_of kind) }
    ensures loads { Loads (H.port file_store.old) (H.port file_store.new) result }
    ensures err { IfErr result (LoadRefuses (move (H.port file_store.old) (H.port file_store.new)) name.now kind) }
{
    match file_store.load(alloc, name, limit(kind)) {
        Ok(bytes) => Ok(bytes),
        Err(LoadFault::Failed) => Err(Refusal::LoadFault(kind)),
        Err(LoadFault::Missing) => Err(Refusal::NoFile(kind)),
        Err(LoadFault::TooLarge) => Err(Refusal::TooLarge(kind)),
        Err(LoadFault::OutOfMemory) => Err(Refusal::OutOfMemory),
    }
}

/// The number of the packet to begin from: the first one, where the words name none.
fn first_packet_of(from: Option<u32>) -> u32
    ensures { result ≡ first_packet from }
{
    match from {
        Some(from) => from,
        None => 0,
    }
}

/// Loads the three files, in this order.
fn load_names<H: FileStore>(
    alloc: Global,
    file_store: &mut H,
    names: FileNames<'_>,
    manner: OpenOptions,
) -> Result<CrashFiles, Refusal>
    ensures loaded { IfOk result (λ l. IfSome (H.port file_store.old).files (λ files. fetched_all files (named_by names.entry) manner ≡ Loaded (crash_bytes l.exe.items l.core.items l.trace.items l.manner))) }
    ensures within { IfOk result (λ l. length l.trace.items ≤ limit_of FileKind.Trace) }
    ensures before { IsOk result → IfSome (H.port file_store.old).files (λ files. FitBefore files (named_by names.entry) FileKind.Trace) }
    ensures loads { IsOk result → (H.port file_store.new).loads ≡ loads_to FileKind.Trace (H.port file_store.old).loads }
    ensures faults { FileStoreMoves (move (H.port file_store.old) (H.port file_store.new)) result }
    ensures refused { IfErr result (λ r. (kind : FileKind) × IsLastLoad (move (H.port file_store.old) (H.port file_store.new)) (named_by names.entry) kind r) }
{
    let exe = match load_file(alloc, file_store, names.exe, FileKind::Exe) {
        Ok(exe) => exe,
        Err(refusal) => return Err(refusal),
    };
    let core = match load_file(alloc, file_store, names.core, FileKind::Core) {
        Ok(core) => core,
        Err(refusal) => return Err(refusal),
    };
    match load_file(alloc, file_store, names.trace, FileKind::Trace) {
        Ok(trace) => Ok(CrashFiles {
            exe,
            core,
            trace,
            manner,
        }),
        Err(refusal) => Err(refusal),
    }
}

/// Loads the core file and the trace, in this order.
fn load_core_names<H: FileStore>(
    alloc: Global,
    file_store: &mut H,
    names: CoreNames<'_>,
    manner: OpenOptions,
) -> Result<CoreFiles, Refusal>
    ensures loaded { IfOk result (λ l. IfSome (H.port file_store.old).files (λ files. fetched_core files (core_named_by names.entry) manner ≡ LoadedCore (core_bytes l.core.items l.trace.items l.manner))) }
    ensures within { IfOk result (λ l. length l.trace.items ≤ limit_of FileKind.Trace) }
    ensures both { IfOk result (λ l. BothLoaded (core_named_by names.entry) l.core.items (move (H.port file_store.old) (H.port file_store.new))) }
    ensures faults { FileStoreMoves (move (H.port file_store.old) (H.port file_store.new)) result }
    ensures refused { IfErr result (λ r. (kind : FileKind) × CoreStopsAt (move (H.port file_store.old) (H.port file_store.new)) (core_named_by names.entry) kind r) }
{
    let core = match load_file(alloc, file_store, names.core, FileKind::Core) {
        Ok(core) => core,
        Err(refusal) => return Err(refusal),
    };
    match load_file(alloc, file_store, names.trace, FileKind::Trace) {
        Ok(trace) => Ok(CoreFiles {
            core,
            trace,
            manner,
        }),
        Err(refusal) => Err(refusal),
    }
}

/// Loads the files that the words name, if they ask for files.
pub fn load_files<H: FileStore>(
    alloc: Global,
    words: &[String],
    file_store: &mut H,
) -> Result<LoadedRequest, Refusal>
    ensures loaded { IfOk result (λ asked. IfSome (H.port file_store.old).files (λ files. loading (map string_bytes words.now) files ≡ asked_for asked)) }
    ensures asked { IfOk result (λ asked. IsAsked asked (meaning_of (map string_bytes words.now)) (move (H.port file_store.old) (H.port file_store.new))) }
    ensures faults { FileStoreMoves (move (H.port file_store.old) (H.port file_store.new)) result }
    ensures refused { IfErr result (LoadingStops (meaning_of (map string_bytes words.now)) (move (H.port file_store.old) (H.port file_store.new))) }
    ensures idle { NamesNone (meaning_of (map string_bytes words.now)) → file_store.new ≡ file_store.old }
    ensures usage { result ≡ Err Refusal.Usage → meaning_of (map string_bytes words.now) ≡ None }
    ensures no_meaning { meaning_of (map string_bytes words.now) ≡ None → (result ≡ Err Refusal.Usage) ⊎ (result ≡ Err Refusal.OutOfMemory) }
{
    match meaning(alloc, words) {
        Ok(None) => Err(Refusal::Usage),
        Ok(
            Some(
                Request::Open {
                    domain,
                    names,
                    from,
                },
            ),
        ) => {
            let manner = OpenOptions {
                from: first_packet_of(from),
                domain,
            };
            match load_names(alloc, file_store, names, manner) {
                Ok(files) => Ok(LoadedRequest::Files(files)),
                Err(refusal) => Err(refusal),
            }
        }
        Ok(
            Some(
                Request::Maps {
                    domain,
                    names,
                    from,
                },
            ),
        ) => {
            let manner = OpenOptions {
                from: first_packet_of(from),
                domain,
            };
            match load_core_names(alloc, file_store, names, manner) {
                Ok(files) => Ok(LoadedRequest::Maps(files)),
                Err(refusal) => Err(refusal),
            }
        }
        Ok(Some(Request::Made { seed, steps })) => Ok(LoadedRequest::Made { seed, steps }),
        Err(_) => Err(Refusal::OutOfMemory),
    }
}
