//! From a core file to the files that it lists.

ghost use Rattle.std.specs.Prelude.{◌≡◌, ◌≤◌, ◌+◌, ℕ, List, length, IfOk, IfErr, IfSome, OnOk};
ghost use Rattle.rept_maps.specs.FileMap.{map_count};
ghost use Rattle.rept_maps.specs.Views.{desc_of};
ghost use Rattle.rept_maps.specs.Mapped.Mapped.{mappings};
ghost use Rattle.rept_ports.specs.Port.{PortMove, move};
ghost use Rattle.rept_ports.specs.Shelves.{Shelved};
ghost use Rattle.rept_opening.specs.Listed.{AreLoaded, HasNoFiles};
ghost use Rattle.rept_opening.specs.Mapped.{mapped_files};

use crate::refusal::Refusal;
use rept_elf::{Image, Want};
use rept_maps::{Images, LoadStop, Maps, asked_names, images_of, load_names};
use rept_ports::FileStore;
use rept_word::OutOfMemory;
use std::alloc::Global;

/// A core file with the files of its list that were loaded. It borrows the core file's bytes.
#[derive(Drop)]
pub struct ListedFiles<'a> {
    /// the image of the core file
    pub core: Image<'a>,
    /// its list of mapped files
    pub maps: Maps<'a>,
    /// the names of the files that were asked for
    pub names: Vec<&'a str>,
    /// what is kept of each of these files
    pub kept: Vec<Option<Vec<u8>>>,
}

/// Why the files that a core file lists aren't had.
#[derive(Clone, Copy)]
pub enum ListStop<'a> {
    /// The core file or its list is refused, or there was no memory.
    Refused(Refusal),
    /// The load of the file of this name failed.
    LoadFault(&'a str),
}

/// Reads a core file and its list of mapped files, and loads those, as `load_names` does. The first
/// of these is the refusal: that of the core file as an image, that of its list, and the load of a
/// name that failed; want of memory may come after the list was read.
pub fn load_listed<'a, H: FileStore>(
    alloc: Global,
    file_store: &mut H,
    core: &'a [u8],
) -> Result<ListedFiles<'a>, ListStop<'a>>
    ensures loaded { IfOk result (AreLoaded core.now (move (H.port file_store.old) (H.port file_store.new))) }
    ensures stopped { IfErr result (HasNoFiles core.now (move (H.port file_store.old) (H.port file_store.new))) }
    ensures files { (H.port file_store.new).files ≡ (H.port file_store.old).files }
    ensures later { (H.port file_store.old).faults ≤ (H.port file_store.new).faults }
    ensures once { IfSome (H.port file_store.old).files (λ _. (H.port file_store.new).faults ≤ (H.port file_store.old).faults + 1) }
    ensures calm { OnOk result (IfSome (H.port file_store.old).files (λ _. (H.port file_store.new).faults ≡ (H.port file_store.old).faults)) }
{
    let image = match Image::read(core, Want::Core) {
        Ok(image) => image,
        Err(fault) => return Err(ListStop::Refused(Refusal::CoreImage(fault))),
    };
    let maps = match Maps::read(image) {
        Ok(maps) => maps,
        Err(fault) => return Err(ListStop::Refused(Refusal::Maps(fault))),
    };
    let names = match asked_names(alloc, &maps) {
        Ok(names) => names,
        Err(_) => return Err(ListStop::Refused(Refusal::OutOfMemory)),
    };
    let kept = match load_names(alloc, file_store, names.as_slice()) {
        Ok(kept) => kept,
        Err(LoadStop::Failed(place)) => return Err(ListStop::LoadFault(names[place])),
        Err(LoadStop::OutOfMemory) => return Err(ListStop::Refused(Refusal::OutOfMemory)),
    };
    Ok(ListedFiles {
        core: image,
        maps,
        names,
        kept,
    })
}

/// The images of the list's entries, by place. Its only refusal is of memory.
pub fn images_in<'a>(alloc: Global, listed: &'a ListedFiles<'_>) -> Result<Images<'a>, OutOfMemory>
    ensures places { IfOk result (λ images. length images ≡ map_count (desc_of listed.now.maps)) }

    // Where the file store tells its files, they are those of the names.
    ensures mapped { (core : List ℕ) (file_store : PortMove Shelved) → AreLoaded core file_store listed.now → IfOk result (λ images. IfSome file_store.before.files (λ files. mappings (desc_of listed.now.maps) images ≡ mapped_files files (desc_of listed.now.maps))) }
{
    images_of(
        alloc,
        &listed.maps,
        listed.names.as_slice(),
        listed.kept.as_slice(),
    )
}
