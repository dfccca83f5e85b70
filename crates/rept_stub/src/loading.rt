//! What is read of the files of a crash before a debugger asks.

ghost use Rattle.std.specs.Prelude.{◌≡◌, ◌≤◌, ◌+◌, ◌*◌, ◌&&◌, ℕ, List, length, nat_le, nat_lt, IfSome};
ghost use Rattle.std.specs.List.{filter};
ghost use Rattle.std.specs.Option.{option_and_then, option_map};
ghost use Rattle.rept_elf.specs.Image.{file_of, segments_of};
ghost use Rattle.rept_maps.specs.FileMap.{map_count};
ghost use Rattle.rept_maps.specs.Notes.Notes.{Note as NoteOf, HaveNotes, note_segments};
ghost use Rattle.rept_maps.specs.Notes.Sought.{is_sought};
ghost use Rattle.rept_maps.specs.Views.{desc_of};
ghost use Rattle.rept_maps.specs.Mapped.Mapped.{mappings};
ghost use Rattle.rept_dump.specs.Program.Program.{OneFile, MappedFiles};
ghost use Rattle.rept_stub.specs.CrashFiles.{AreFilesOf, auxiliary_value, entry_of, first_address, first_desc, load_address, loaded_at, loaded_in, program_of};

use crate::files::{ProcessFiles, ProgramImages};
use rept_elf::{Image, PT_LOAD, word};
use rept_maps::{Images, Mapped, MappedRange, Maps, find_nth};

/// `NT_AUXV`: the type of the note of the auxiliary vector.
const NT_AUXV: u32 = 6;

/// `NT_SIGINFO`: the type of the note of what the system told of the signal.
const NT_SIGINFO: u32 = 0x5349_4749;

/// `AT_ENTRY`: the type of the address of the executable's first instruction.
const AT_ENTRY: u32 = 9;

/// The descriptor of the first note of this type in a core file whose notes are whole; empty where
/// there is none.
fn note_bytes<'a>(core: &Image<'a>, kind: u32) -> &'a [u8]
    ensures { (notes : List NoteOf) → HaveNotes (length (file_of core.now)) (note_segments (segments_of core.now)) notes → result.now ≡ first_desc (filter (is_sought kind) notes) }
{
    match find_nth(core, kind, 0) {
        Some(note) => note.desc,
        None => b"",
    }
}

/// The index of the first entry of this type in an auxiliary vector.
fn entry_of(vector: &[u8], kind: u32) -> Option<usize>
    ensures value { result ≡ entry_of kind vector.now }
    ensures within { IfSome result (λ i. 8 * i + 8 ≤ length vector.now) }
{
    for i in 0..vector.len() / 8 {
        if word(vector, 8 * i) == kind {
            return Some(i);
        }
    }
    None
}

/// The value of that entry.
fn auxiliary_value(vector: &[u8], kind: u32) -> Option<u32>
    ensures { result ≡ auxiliary_value kind vector.now }
{
    let i = entry_of(vector, kind)?;
    Some(word(vector, 8 * i + 4))
}

/// The address of the first segment of a file that is part of memory.
fn first_address(program: &Image<'_>) -> Option<u32>
    ensures { result ≡ first_address (segments_of program.now) }
{
    for i in 0..program.count() {
        let segment = program.segment(i);
        if segment.kind == PT_LOAD {
            return Some(segment.vaddr);
        }
    }
    None
}

/// Where the first segment of an executable was loaded whose first instruction is at this address.
fn loaded_at(program: &Image<'_>, entry: u32) -> Option<u32>
    ensures { result ≡ loaded_at entry (file_of program.now) }
{
    let first = first_address(program)?;
    let moved = entry.wrapping_sub(word(program.file(), 24));
    Some(first.wrapping_add(moved))
}

/// Where the first segment of this file was loaded, if it is there.
fn loaded_by(program: Option<Image<'_>>, entry: u32) -> Option<u32>
    ensures { result ≡ option_and_then (loaded_at entry) (option_map file_of program.entry) }
{
    match program {
        Some(program) => loaded_at(&program, entry),
        None => None,
    }
}

/// Whether an address is one of a mapped part of a file.
fn has_address(place: MappedRange, a: u32) -> bool
    ensures { result ≡ (nat_le place.start a && nat_lt a place.end) }
{
    place.start <= a && a < place.end
}

/// Where the first segment of the mapped file was loaded that has the first instruction, at this
/// address.
fn loaded_in(maps: &Maps<'_>, images: &Images<'_>, entry: u32) -> Option<u32>
    requires { length images.now ≡ map_count (desc_of maps.now) }
    ensures { result ≡ loaded_in (mappings (desc_of maps.now) images.now) entry }
{
    for i in 0..maps.count() {
        let place = maps.place(i);
        let image = images.image(i);
        if has_address(place, entry) {
            return loaded_by(image, entry);
        }
    }
    None
}

/// Where the first segment of the executable was loaded, by the auxiliary vector.
fn load_address(maps: &Maps<'_>, images: &Images<'_>, vector: &[u8]) -> Option<u32>
    requires { length images.now ≡ map_count (desc_of maps.now) }
    ensures { result ≡ load_address (mappings (desc_of maps.now) images.now) vector.now }
{
    let entry = auxiliary_value(vector, AT_ENTRY)?;
    loaded_in(maps, images, entry)
}

/// What the files of a crash of an executable hold.
pub fn files_of<'a>(core: Image<'a>, executable: Image<'a>) -> ProcessFiles<'a>
    ensures core { file_of result.core ≡ file_of core.entry }
    ensures program { program_of result.program ≡ OneFile (file_of executable.entry) }
    ensures files { AreFilesOf result }
{
    ProcessFiles {
        core,
        program: ProgramImages::Executable(executable),
        auxiliary_vector: note_bytes(&core, NT_AUXV),
        signal_info: note_bytes(&core, NT_SIGINFO),
        load_address: None,
    }
}

/// What the files of a crash hold whose core file lists those of the program.
pub fn mapped_files<'a>(core: Image<'a>, maps: Maps<'a>, images: &'a Images<'a>) -> ProcessFiles<'a>
    requires { length images.now ≡ map_count (desc_of maps) }
    ensures core { file_of result.core ≡ file_of core.entry }
    ensures program { program_of result.program ≡ MappedFiles (mappings (desc_of maps.entry) images.now) }
    ensures files { AreFilesOf result }
{
    let auxiliary_vector = note_bytes(&core, NT_AUXV);
    ProcessFiles {
        core,
        program: ProgramImages::Mapped(Mapped::new(maps, images)),
        auxiliary_vector,
        signal_info: note_bytes(&core, NT_SIGINFO),
        load_address: load_address(&maps, images, auxiliary_vector),
    }
}
