//! The register notes of several threads, found one by one. None of it is kept: a note is looked
//! for among all notes each time.

ghost use Rattle.std.specs.Prelude.{◌≡◌, ◌==◌, ◌<◌, ◌≤◌, ℕ, List, length, map, slice_get, IfOk, IfErr, MatchOption, Some, Ok, Err};
ghost use Rattle.std.specs.List.{list_any};
ghost use Rattle.rept_elf.specs.Image.{file_of, segments_of};
ghost use Rattle.rept_dump.specs.Registers.{pid_of, first_twin, HaveThreads, SaysOfAll};
ghost use Rattle.rept_dump.specs.Threads.{AllLong, AreThreadNotes};

use crate::fault::CoreFault;
use crate::notes::{NT_PRSTATUS, STATUS_SIZE, first_short, read_core};
use rept_elf::{Image, word};
use rept_maps::find_nth;

/// The most threads.
const MOST_THREADS: usize = 1024;

/// The descriptor of the register note after so many of a core file whose notes are whole.
pub fn search_core<'a>(core: &Image<'a>, skip: u32) -> Option<&'a [u8]>
    ensures { (descs : List (List ℕ)) → HaveThreads (length (file_of core.now)) (segments_of core.now) descs → MatchOption result (length descs ≤ skip) (λ desc. slice_get descs skip ≡ Some desc.now) }
{
    match find_nth(core, NT_PRSTATUS, skip) {
        Some(note) => Some(note.desc),
        None => None,
    }
}

/// The process of a thread, 0 where there is no such thread.
fn pid_at(core: &Image<'_>, t: u32) -> u32
    ensures { (descs : List (List ℕ)) → HaveThreads (length (file_of core.now)) (segments_of core.now) descs → AllLong descs → t < length descs →
        slice_get (map pid_of descs) t ≡ Some result }
{
    match search_core(core, t) {
        Some(desc) if desc.len() >= STATUS_SIZE => word(desc, 24),
        _ => 0,
    }
}

/// Whether a number is one of these.
fn stands_in(number: u32, numbers: &[u32]) -> bool
    ensures { result ≡ list_any (λ m. m == number) numbers.now }
{
    numbers.iter().any(|other| *other == number)
}

/// The first of these numbers that stands again after it.
fn first_twin(numbers: &[u32]) -> Option<u32>
    ensures { result ≡ first_twin numbers.now }
{
    let mut rest = numbers;
    while let Some((number, others)) = rest.split_first() {
        if stands_in(*number, others) {
            return Some(*number);
        }
        rest = others;
    }
    None
}

/// The first process that two of so many threads have.
fn twin_of(core: &Image<'_>, count: usize) -> Option<u32>
    requires { count ≤ 1024 }
    ensures { (descs : List (List ℕ)) → HaveThreads (length (file_of core.now)) (segments_of core.now) descs → AllLong descs → length descs ≡ count →
        result ≡ first_twin (map pid_of descs) }
{
    let mut pids = [0u32; MOST_THREADS];
    for t in 0..count {
        pids[t] = pid_at(core, t as u32);
    }
    first_twin(&pids[..count])
}

/// The descriptor of the first thread's register note, and the count of threads.
pub fn find_threads<'a>(core: &Image<'a>) -> Result<(&'a [u8], u32), CoreFault>
    ensures ok { IfOk result (λ found. (threads : AreThreadNotes (length (file_of core.now)) (segments_of core.now) found.0.now found.1) × SaysOfAll (length (file_of core.now)) (segments_of core.now) (Ok threads.descs)) }
    ensures err { IfErr result (λ fault. SaysOfAll (length (file_of core.now)) (segments_of core.now) (Err fault)) }
{
    let found = read_core(core)?;
    if found.count == 0 {
        return Err(CoreFault::NoStatus);
    }
    let short = first_short(core)?;
    if let Some(size) = short {
        return Err(CoreFault::ShortStatus(size));
    }
    if found.count > MOST_THREADS as u64 {
        return Err(CoreFault::TooManyThreads(found.count));
    }
    let count = found.count as usize;
    if let Some(pid) = twin_of(core, count) {
        return Err(CoreFault::SameThread(pid));
    }
    match search_core(core, 0) {
        Some(desc) => Ok((desc, count as u32)),
        None => unreachable!(),
    }
}
