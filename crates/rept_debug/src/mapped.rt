//! From a core file that lists the files of its program to the end of the dialog.

ghost use Rattle.std.specs.Prelude.{◌≡◌, ◌≤◌, ◌<◌, ◌+◌, ◌^◌, None, length, IfOk, IfErr, IfSome, OnOk};
ghost use Rattle.rept_elf.specs.Image.{file_of};
ghost use Rattle.rept_maps.specs.FileMap.{map_count};
ghost use Rattle.rept_maps.specs.Views.{desc_of};
ghost use Rattle.rept_maps.specs.Mapped.Mapped.{mappings};
ghost use Rattle.rept_ports.specs.Port.{move};
ghost use Rattle.rept_opening.specs.Forms.{core_image_fault};
ghost use Rattle.rept_opening.specs.Loading.{core_bytes, parts_bytes};
ghost use Rattle.rept_opening.specs.Mapped.{mapped_crash};
ghost use Rattle.rept_debug.specs.Debugged.{IsHeld, IsHeldMapped, IsRefusedCrash, IsUnheld, MayGreet, Notices, streams};

use crate::no_talk::{GdbError, load_fault};
use crate::talk::{GdbSession, debug_trace};
use rept_dump::Dump;
use rept_elf::Image;
use rept_maps::{Images, Maps};
use rept_opening::{CoreFiles, ListStop, Refusal, images_in, load_listed};
use rept_ports::{FileStore, Sink, Source};
use rept_streams::is_several;
use rept_stub::mapped_files;
use std::alloc::Global;

/// Reads the core file and its list of mapped files, loads those, and answers a debugger over the
/// report of the crash.
pub fn debug_mapped<H: FileStore, S: Source, K: Sink, E: Sink>(
    alloc: Global,
    file_store: &mut H,
    files: &CoreFiles,
    input: &mut S,
    out: &mut K,
    errors: &mut E,
) -> Result<GdbSession, GdbError>
    requires { length files.now.trace.items < 2 ^ 32 }
    ensures held { IfOk result (λ talk. IfSome (H.port file_store.old).files (λ told. IsHeldMapped (mapped_crash told (core_bytes files.now.core.items files.now.trace.items files.now.manner)) (streams (move (S.port input.old) (S.port input.new)) (move (K.port out.old) (K.port out.new)) (move (E.port errors.old) (E.port errors.new))) talk)) }
    ensures unheld { IfErr result (λ why. IfSome (H.port file_store.old).files (λ told. IsUnheld (mapped_crash told (core_bytes files.now.core.items files.now.trace.items files.now.manner)) (move (H.port file_store.old).loads (H.port file_store.new).loads) why)) }
    ensures greeted { IfErr result (λ _. MayGreet (move (S.port input.old) (S.port input.new)) (move (K.port out.old) (K.port out.new))) }
    ensures noticed { IfErr result (λ _. Notices (move (E.port errors.old) (E.port errors.new))) }
    ensures files { (H.port file_store.new).files ≡ (H.port file_store.old).files }
    ensures later { (H.port file_store.old).faults ≤ (H.port file_store.new).faults }
    ensures once { IfSome (H.port file_store.old).files (λ _. (H.port file_store.new).faults ≤ (H.port file_store.old).faults + 1) }
    ensures calm { OnOk result (IfSome (H.port file_store.old).files (λ _. (H.port file_store.new).faults ≡ (H.port file_store.old).faults)) }
{
    let listed = match load_listed(alloc, file_store, files.core.as_slice()) {
        Ok(listed) => listed,
        Err(ListStop::Refused(refusal)) => return Err(GdbError::Refused(refusal)),
        Err(ListStop::LoadFault(name)) => return Err(load_fault(alloc, name)),
    };
    let images = match images_in(alloc, &listed) {
        Ok(images) => images,
        Err(_) => return Err(GdbError::Refused(Refusal::OutOfMemory)),
    };
    match debug_images(
        alloc,
        listed.maps,
        &images,
        listed.core,
        files,
        input,
        out,
        errors,
    ) {
        Ok(talk) => Ok(talk),
        Err(refusal) => Err(GdbError::Refused(refusal)),
    }
}

/// Answers a debugger over the report of a crash of the images of the list's entries, in their
/// order.
fn debug_images<S: Source, K: Sink, E: Sink>(
    alloc: Global,
    maps: Maps<'_>,
    images: &Images<'_>,
    core: Image<'_>,
    files: &CoreFiles,
    input: &mut S,
    out: &mut K,
    errors: &mut E,
) -> Result<GdbSession, Refusal>
    requires short { length files.now.trace.items < 2 ^ 32 }
    requires accepted { core_image_fault (file_of core) ≡ None }
    requires places { length images.now ≡ map_count (desc_of maps) }
    ensures held { IfOk result (IsHeld (parts_bytes (mappings (desc_of maps.entry) images.now) (core_bytes (file_of core.entry) files.now.trace.items files.now.manner)) (streams (move (S.port input.old) (S.port input.new)) (move (K.port out.old) (K.port out.new)) (move (E.port errors.old) (E.port errors.new)))) }
    ensures refused { IfErr result (IsRefusedCrash (parts_bytes (mappings (desc_of maps.entry) images.now) (core_bytes (file_of core.entry) files.now.trace.items files.now.manner))) }
    ensures greeted { IfErr result (λ _. MayGreet (move (S.port input.old) (S.port input.new)) (move (K.port out.old) (K.port out.new))) }
    ensures noticed { IfErr result (λ _. Notices (move (E.port errors.old) (E.port errors.new))) }
{
    let trace = files.trace.as_slice();
    match Dump::mapped(maps, images, core, is_several(trace)) {
        Ok(dump) => {
            let process = mapped_files(core, maps, images);
            debug_trace(
                alloc,
                trace,
                &dump,
                process,
                files.manner,
                input,
                out,
                errors,
            )
        }
        Err(fault) => Err(Refusal::Core(fault)),
    }
}
