//! The threads of a dump.

ghost use Rattle.std.specs.Prelude.{◌≡◌, ◌<◌, ℕ, List, length, map, slice_get, Some, IfOk, IfErr};
ghost use Rattle.rept_dump.specs.Dump.{HasThreads, threads_of};
ghost use Rattle.rept_path.specs.declared.fault.PathFault.TheVariants.{OutOfMemory};
ghost use Rattle.rept_streams.specs.Slices.Raw.{note_in};
ghost use Rattle.rept_streams.specs.Threads.Notes.{known_by};
ghost use Rattle.rept_streams.specs.declared.threads.notes.KeptNote.{KeptNote};

use rept_dump::Dump;
use rept_path::PathFault;
use std::alloc::Global;

/// A thread's note.
#[derive(Clone, Copy, Debug, PartialEq)]
pub struct KeptNote {
    /// The process that the thread runs as.
    pub process: u32,
    /// Its program counter at the end.
    pub pc: u32,
}

/// The note of a thread of a dump.
fn note_of(dump: &Dump<'_>, t: u32) -> KeptNote
    requires { t < threads_of dump.now }
    ensures { (descs : List (List ℕ)) → HasThreads dump.now descs → (desc : List ℕ) × (slice_get descs t ≡ Some desc) × (known_by result ≡ note_in desc) }
{
    let status = dump.status_of(t);
    KeptNote {
        process: status.pid,
        pc: status.pc,
    }
}

/// The notes of the threads of a dump, in their order.
pub fn notes_of(alloc: Global, dump: &Dump<'_>) -> Result<Vec<KeptNote>, PathFault>
    ensures ok { (descs : List (List ℕ)) → HasThreads dump.now descs → threads_of dump.now ≡ length descs → IfOk result (λ notes. map known_by notes.items ≡ map note_in descs) }
    ensures err { IfErr result (λ e. e ≡ OutOfMemory) }
{
    let mut notes = Vec::new(alloc);
    for t in 0..dump.threads() {
        let note = note_of(dump, t);
        if let Err(_) = notes.push(note) {
            return Err(PathFault::OutOfMemory);
        }
    }
    Ok(notes)
}

/// The processes that threads run as.
pub fn processes_of(alloc: Global, notes: &[KeptNote]) -> Result<Vec<u32>, PathFault>
    ensures ok { IfOk result (λ processes. processes.items ≡ map (λ (n : KeptNote). n.process) notes.now) }
    ensures err { IfErr result (λ e. e ≡ OutOfMemory) }
{
    let mut processes = Vec::new(alloc);
    for note in notes {
        if let Err(_) = processes.push(note.process) {
            return Err(PathFault::OutOfMemory);
        }
    }
    Ok(processes)
}
