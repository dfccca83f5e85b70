//! The files of a crash as images.

ghost use Rattle.std.specs.Prelude.{◌≡◌, None};
ghost use Rattle.std.specs.Option.{option_map};
ghost use Rattle.rept_elf.specs.Image.{file_of};
ghost use Rattle.rept_dump.specs.Program.Program.{OneFile};
ghost use Rattle.rept_opening.specs.Beyond.{executable_of};
ghost use Rattle.rept_opening.specs.Forms.{core_image_fault, executable_fault};
ghost use Rattle.rept_stub.specs.CrashFiles.{AreFilesOf, program_of};

use rept_opening::{CrashImages, crash_images};
use rept_stub::{ProcessFiles, ProgramImages, files_of};

/// What the files of a crash hold, by the bytes of the executable and the core file.
pub fn process_files<'a>(exe: &'a [u8], core: &'a [u8]) -> ProcessFiles<'a>
    requires exe { executable_fault exe.now ≡ None }
    requires core { core_image_fault core.now ≡ None }
    ensures core { file_of result.core ≡ core.entry.now }
    ensures program { program_of result.program ≡ OneFile exe.entry.now }
    ensures files { AreFilesOf result }
{
    let images = crash_images(exe, core);
    match images.executable {
        Some(executable) => files_of(images.core, executable),
        None => unreachable!(),
    }
}

/// The core file and the executable, where the program is one.
pub fn images_of<'a>(files: &ProcessFiles<'a>) -> CrashImages<'a>
    ensures core { file_of result.core ≡ file_of files.now.core }
    ensures executable { option_map file_of result.executable ≡ executable_of (program_of files.now.program) }
{
    let executable = match files.program {
        ProgramImages::Executable(image) => Some(image),
        ProgramImages::Mapped(_) => None,
    };
    CrashImages {
        core: files.core,
        executable,
    }
}
