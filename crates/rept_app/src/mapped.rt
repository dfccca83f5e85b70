//! From a core file that lists the files of its program to the study of its run.

ghost use Rattle.std.specs.Prelude.{◌≡◌, ◌⊎◌, ◌<◌, ◌^◌, None, length, IfSome};
ghost use Rattle.rept_elf.specs.Image.{file_of};
ghost use Rattle.rept_maps.specs.FileMap.{map_count};
ghost use Rattle.rept_maps.specs.Views.{desc_of};
ghost use Rattle.rept_maps.specs.Mapped.Mapped.{mappings};
ghost use Rattle.rept_ports.specs.Port.{move};
ghost use Rattle.rept_opening.specs.Delivered.{Delivers};
ghost use Rattle.rept_app.specs.Ends.{EndsSession};
ghost use Rattle.rept_app.specs.Examine.{Examines, FilesExclude, FilesHold, IsExamined};
ghost use Rattle.rept_opening.specs.Forms.{core_image_fault};
ghost use Rattle.rept_opening.specs.Loading.{core_bytes, parts_bytes};
ghost use Rattle.rept_opening.specs.Mapped.{mapped_crash};
ghost use Rattle.rept_app.specs.MappedEnds.{ExaminesMapped, IsExaminedMapped, MappedExcludes, MappedHolds, mapped_call, port_moves};

use crate::examine::walk;
use rept_dump::Dump;
use rept_elf::Image;
use rept_maps::{Images, Maps};
use rept_opening::{
    CoreFiles, CrashImages, ExitStatus, ListStop, Refusal, images_in, load_listed, tell,
    tell_failed, tell_no_memory,
};
use rept_ports::{FileStore, Sink, Source};
use rept_streams::is_several;
use std::alloc::Global;

/// Reads the core file and its list of mapped files, loads those, rebuilds the run and studies it.
pub fn examine_mapped<H: FileStore, S: Source, K: Sink>(
    alloc: Global,
    file_store: &mut H,
    files: &CoreFiles,
    input: &mut S,
    out: &mut K,
) -> ExitStatus
    requires { length files.now.trace.items < 2 ^ 32 }
    ensures text { let bytes = core_bytes files.now.core.items files.now.trace.items files.now.manner in IfSome (H.port file_store.old).files (λ told. IfSome (S.port input.old).bytes (λ left.
        Delivers (ExaminesMapped (mapped_call (mapped_crash told bytes) (move (H.port file_store.old).loads (H.port file_store.new).loads) (record { input = left; left = (S.port input.new).bytes }))) (move (K.port out.old) (K.port out.new)) result)) }
    ensures causes { IsExaminedMapped (core_bytes files.now.core.items files.now.trace.items files.now.manner) (port_moves (move (H.port file_store.old) (H.port file_store.new)) (move (S.port input.old) (S.port input.new)) (move (K.port out.old) (K.port out.new))) result }
    ensures stays { let bytes = core_bytes files.now.core.items files.now.trace.items files.now.manner in (input.new ≡ input.old) ⊎ (EndsSession result × IfSome (H.port file_store.old).files (λ told. MappedHolds (mapped_crash told bytes) result)) }
    ensures impossible { let bytes = core_bytes files.now.core.items files.now.trace.items files.now.manner in result ≡ ExitStatus.Inconsistent → IfSome (H.port file_store.old).files (λ told. MappedExcludes (mapped_crash told bytes)) }
{
    let listed = match load_listed(alloc, file_store, files.core.as_slice()) {
        Ok(listed) => listed,
        Err(ListStop::Refused(refusal)) => return tell(alloc, out, &refusal),
        Err(ListStop::LoadFault(name)) => return tell_failed(alloc, out, name),
    };
    let images = match images_in(alloc, &listed) {
        Ok(images) => images,
        Err(_) => return tell_no_memory(out),
    };
    examine_images(alloc, listed.maps, &images, listed.core, files, input, out)
}

/// Rebuilds the run over the images of the list's entries, in their order, and studies it.
fn examine_images<S: Source, K: Sink>(
    alloc: Global,
    maps: Maps<'_>,
    images: &Images<'_>,
    core: Image<'_>,
    files: &CoreFiles,
    input: &mut S,
    out: &mut K,
) -> ExitStatus
    requires short { length files.now.trace.items < 2 ^ 32 }
    requires accepted { core_image_fault (file_of core) ≡ None }
    requires places { length images.now ≡ map_count (desc_of maps) }
    ensures text { let bytes = parts_bytes (mappings (desc_of maps.entry) images.now) (core_bytes (file_of core.entry) files.now.trace.items files.now.manner) in IfSome (S.port input.old).bytes (λ left. Delivers (Examines bytes (record { input = left; left = (S.port input.new).bytes })) (move (K.port out.old) (K.port out.new)) result) }
    ensures causes { IsExamined (parts_bytes (mappings (desc_of maps.entry) images.now) (core_bytes (file_of core.entry) files.now.trace.items files.now.manner)) (move (S.port input.old) (S.port input.new)) (move (K.port out.old) (K.port out.new)) result }
    ensures ended { result ≡ ExitStatus.Executable → ⊥ }
    ensures stays { (input.new ≡ input.old) ⊎ FilesHold (parts_bytes (mappings (desc_of maps.entry) images.now) (core_bytes (file_of core.entry) files.now.trace.items files.now.manner)) result }
    ensures impossible { result ≡ ExitStatus.Inconsistent → FilesExclude (parts_bytes (mappings (desc_of maps.entry) images.now) (core_bytes (file_of core.entry) files.now.trace.items files.now.manner)) }
{
    let trace = files.trace.as_slice();
    match Dump::mapped(maps, images, core, is_several(trace)) {
        Ok(dump) => {
            let images = CrashImages {
                core,
                executable: None,
            };
            walk(alloc, &dump, images, trace, files.manner, input, out)
        }
        Err(fault) => tell(alloc, out, &Refusal::Core(fault)),
    }
}
