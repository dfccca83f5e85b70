//! Loading files one by one.

ghost use Rattle.std.specs.Prelude.{Option, ◌≡◌, ◌≤◌, ◌+◌, ◌⊎◌, Err, List, [], ◌∷◌, ◌++◌, ℕ, length, map, Some, None, IfOk, IfErr, IfSome, OnOk, if◌then◌else◌};
ghost use Rattle.std.specs.Option.{option_map};
ghost use Rattle.rept_ports.specs.Causes.{Rose, next_count};
ghost use Rattle.rept_ports.specs.Port.{move};
ghost use Rattle.rept_ports.specs.declared.traits.LoadFault.TheVariants.{Failed, OutOfMemory};
ghost use Rattle.rept_maps.specs.Mapfiles.Kept.{is_image, kept_all, kept_by, loads_after, most_in_all, taken, StopsAtFile};

use rept_elf::{Image, Want};
use rept_ports::{FileStore, LoadFault};
use std::alloc::Global;

/// The most bytes of one file, as of an executable.
const MOST_BYTES: usize = 64 << 20;

/// The most bytes of all files.
const MOST_IN_ALL: usize = 512 << 20;

/// Why files aren't loaded.
#[derive(Clone, Copy, Debug, PartialEq, Eq)]
pub enum LoadStop {
    /// The load of the file of this name, by its place among the names, failed.
    Failed(usize),
    /// There was no memory.
    OutOfMemory,
}

/// The bytes, where they are those of an executable or a shared object.
fn image_bytes(bytes: Vec<u8>) -> Option<Vec<u8>>
    ensures { option_map (λ v. v.items) result ≡ (if is_image bytes.items then Some bytes.items else None) }
{
    match Image::read(bytes.as_slice(), Want::Shared) {
        Ok(_) => Some(bytes),
        Err(_) => None,
    }
}

/// What is kept of a file: nothing where it is missing, or over the limit, or has no image.
/// `Missing` and `TooLarge` are no answers.
fn load_one<H: FileStore>(
    alloc: Global,
    file_store: &mut H,
    name: &str,
    limit: usize,
) -> Result<Option<Vec<u8>>, LoadFault>
    ensures kept { IfOk result (λ k. IfSome (H.port file_store.old).files (λ files. option_map (λ v. v.items) k ≡ kept_by files limit name.now)) }
    ensures fits { IfOk result (λ k. IfSome k (λ v. length v.items ≤ limit)) }
    ensures files { (H.port file_store.new).files ≡ (H.port file_store.old).files }
    ensures loads { (H.port file_store.new).loads ≡ next_count (H.port file_store.old).loads }
    ensures later { (H.port file_store.old).faults ≤ (H.port file_store.new).faults }
    ensures once { (H.port file_store.new).faults ≤ (H.port file_store.old).faults + 1 }

    // Where the files are told, a file that is passed over is no fault.
    ensures calm { OnOk result (IfSome (H.port file_store.old).files (λ _. (H.port file_store.new).faults ≡ (H.port file_store.old).faults)) }
    ensures failed { result ≡ Err Failed → Rose (H.port file_store.old).faults (H.port file_store.new).faults }
    ensures others { IfErr result (λ e. (e ≡ Failed) ⊎ (e ≡ OutOfMemory)) }
{
    match file_store.load_regular(alloc, name, limit) {
        Ok(bytes) => Ok(image_bytes(bytes)),
        Err(LoadFault::Missing) => Ok(None),
        Err(LoadFault::TooLarge) => Ok(None),
        Err(fault) => Err(fault),
    }
}

/// How many bytes are kept.
fn bytes_of(kept: &Option<Vec<u8>>) -> usize
    ensures { result ≡ taken (option_map (λ v. v.items) kept.now) }
{
    match kept {
        Some(bytes) => bytes.len(),
        None => 0,
    }
}

/// Adds what is kept of a file to what is kept of those before it, and answers how many bytes it
/// takes.
fn load_next<H: FileStore>(
    alloc: Global,
    file_store: &mut H,
    name: &str,
    limit: usize,
    kept: &mut Vec<Option<Vec<u8>>>,
) -> Result<usize, LoadFault>
    ensures kept { IfOk result (λ size. (file : Option (List ℕ)) × (map (option_map (λ v. v.items)) kept.new.items ≡ map (option_map (λ v. v.items)) kept.old.items ++ file ∷ []) × (size ≡ taken file) × IfSome (H.port file_store.old).files (λ files. file ≡ kept_by files limit name.now)) }
    ensures fits { IfOk result (λ size. size ≤ limit) }
    ensures files { (H.port file_store.new).files ≡ (H.port file_store.old).files }
    ensures loads { (H.port file_store.new).loads ≡ next_count (H.port file_store.old).loads }
    ensures later { (H.port file_store.old).faults ≤ (H.port file_store.new).faults }
    ensures once { (H.port file_store.new).faults ≤ (H.port file_store.old).faults + 1 }
    ensures calm { OnOk result (IfSome (H.port file_store.old).files (λ _. (H.port file_store.new).faults ≡ (H.port file_store.old).faults)) }
    ensures failed { result ≡ Err Failed → Rose (H.port file_store.old).faults (H.port file_store.new).faults }
    ensures others { IfErr result (λ e. (e ≡ Failed) ⊎ (e ≡ OutOfMemory)) }
{
    let file = match load_one(alloc, file_store, name, limit) {
        Ok(file) => file,
        Err(fault) => return Err(fault),
    };
    let size = bytes_of(&file);
    match kept.push(file) {
        Ok(()) => Ok(size),
        Err(_) => Err(LoadFault::OutOfMemory),
    }
}

/// What is kept of the files of these names, by their places. A file that is missing, is over 64
/// MiB or over what is left of 512 MiB in all, or isn't an executable or a shared object is passed
/// over. `Failed` comes only where a fault was counted in the load of that name, which is the last
/// one then. A file store that tells its files counts no other; one that doesn't tell them may
/// count one for each name that is passed over.
pub fn load_names<H: FileStore>(
    alloc: Global,
    file_store: &mut H,
    names: &[&str],
) -> Result<Vec<Option<Vec<u8>>>, LoadStop>
    ensures kept { IfOk result (λ kept. IfSome (H.port file_store.old).files (λ files. map (option_map (λ v. v.items)) kept.items ≡ kept_all files most_in_all (map (λ n. n.now) names.now))) }
    ensures files { (H.port file_store.new).files ≡ (H.port file_store.old).files }
    ensures loads { OnOk result ((H.port file_store.new).loads ≡ loads_after (length names.now) (H.port file_store.old).loads) }
    ensures later { (H.port file_store.old).faults ≤ (H.port file_store.new).faults }
    ensures calm { OnOk result (IfSome (H.port file_store.old).files (λ _. (H.port file_store.new).faults ≡ (H.port file_store.old).faults)) }
    ensures once { IfSome (H.port file_store.old).files (λ _. (H.port file_store.new).faults ≤ (H.port file_store.old).faults + 1) }
    ensures failed { IfErr result (λ stop. StopsAtFile (length names.now) stop (move (H.port file_store.old) (H.port file_store.new))) }
{
    load_within(alloc, file_store, names, MOST_IN_ALL)
}

/// What [`load_names`] keeps with room for so many bytes in all; its stops are the same.
pub fn load_within<H: FileStore>(
    alloc: Global,
    file_store: &mut H,
    names: &[&str],
    most: usize,
) -> Result<Vec<Option<Vec<u8>>>, LoadStop>
    ensures kept { IfOk result (λ kept. IfSome (H.port file_store.old).files (λ files. map (option_map (λ v. v.items)) kept.items ≡ kept_all files most (map (λ n. n.now) names.now))) }
    ensures files { (H.port file_store.new).files ≡ (H.port file_store.old).files }
    ensures loads { OnOk result ((H.port file_store.new).loads ≡ loads_after (length names.now) (H.port file_store.old).loads) }
    ensures later { (H.port file_store.old).faults ≤ (H.port file_store.new).faults }
    ensures calm { OnOk result (IfSome (H.port file_store.old).files (λ _. (H.port file_store.new).faults ≡ (H.port file_store.old).faults)) }
    ensures once { IfSome (H.port file_store.old).files (λ _. (H.port file_store.new).faults ≤ (H.port file_store.old).faults + 1) }
    ensures failed { IfErr result (λ stop. StopsAtFile (length names.now) stop (move (H.port file_store.old) (H.port file_store.new))) }
{
    let mut kept = Vec::new(alloc);
    let mut room = most;
    for place in 0..names.len() {
        let Some(name) = names.get(place) else {
            unreachable!();
        };
        let limit = MOST_BYTES.min(room);
        let size = match load_next(alloc, file_store, *name, limit, &mut kept) {
            Ok(size) => size,
            Err(LoadFault::OutOfMemory) => return Err(LoadStop::OutOfMemory),
            Err(_) => return Err(LoadStop::Failed(place)),
        };
        room -= size;
    }
    Ok(kept)
}
