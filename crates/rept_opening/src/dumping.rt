//! From the bytes of an executable and a core file to a dump.

ghost use Rattle.std.specs.Prelude.{◌≡◌, Some, None, length, IfOk, IfErr, MatchBool};
ghost use Rattle.std.specs.Option.{option_map};
ghost use Rattle.rept_elf.specs.Image.{file_of, segments_of};
ghost use Rattle.rept_dump.specs.Dump.{AreRead, AreReadOfAll, core_of, exe_of};
ghost use Rattle.rept_dump.specs.Program.Program.{OneFile};
ghost use Rattle.rept_opening.specs.Forms.{core_image_fault, executable_fault};
ghost use Rattle.rept_opening.specs.Reading.{HasNotes, HasNoDump, IsDumpOf};

use crate::refusal::Refusal;
use rept_dump::{CoreFault, Dump};
use rept_elf::{Image, Want};

/// The dump of an executable and the core file of its crash, which may have `many` threads, each
/// with a register note, or has one. The first of these is the refusal: the executable's, that of
/// the core file as an image, and that of its notes.
pub fn read_dump<'a>(exe: &'a [u8], core: &'a [u8], many: bool) -> Result<Dump<'a>, Refusal>
    ensures dump { IfOk result (IsDumpOf many exe.now core.now) }
    ensures notes { IfOk result (HasNotes many) }
    ensures refused { IfErr result (HasNoDump many exe.now core.now) }
{
    let exe_image = match Image::read(exe, Want::Exec) {
        Ok(image) => image,
        Err(fault) => return Err(Refusal::Executable(fault)),
    };
    let core_image = match Image::read(core, Want::Core) {
        Ok(image) => image,
        Err(fault) => return Err(Refusal::CoreImage(fault)),
    };
    match join(exe_image, core_image, many) {
        Ok(dump) => Ok(dump),
        Err(fault) => Err(Refusal::Core(fault)),
    }
}

/// The two images as one, by the notes of the core file.
fn join<'a>(exe: Image<'a>, core: Image<'a>, many: bool) -> Result<Dump<'a>, CoreFault>
    ensures notes { MatchBool many (AreReadOfAll (length (file_of core.entry)) (segments_of core.entry) result) (AreRead (length (file_of core.entry)) (segments_of core.entry) result) }
    ensures exe { IfOk result (λ dump. exe_of dump ≡ OneFile (file_of exe.entry)) }
    ensures core { IfOk result (λ dump. core_of dump ≡ segments_of core.entry) }
{
    if many {
        return Dump::read_many(exe, core);
    }
    Dump::read(exe, core)
}

/// The files of a dump as images: the core file, and the executable where the program is one file.
#[derive(Clone, Copy)]
pub struct CrashImages<'a> {
    pub core: Image<'a>,
    pub executable: Option<Image<'a>>,
}

/// The images of a dump that was read of an executable and a core file.
pub fn crash_images<'a>(exe: &'a [u8], core: &'a [u8]) -> CrashImages<'a>
    requires exe { executable_fault exe.now ≡ None }
    requires core { core_image_fault core.now ≡ None }
    ensures core { file_of result.core ≡ core.entry.now }
    ensures exe { option_map file_of result.executable ≡ Some exe.entry.now }
{
    let executable = match Image::read(exe, Want::Exec) {
        Ok(image) => Some(image),
        Err(_) => unreachable!(),
    };
    match Image::read(core, Want::Core) {
        Ok(core) => CrashImages { core, executable },
        Err(_) => unreachable!(),
    }
}
