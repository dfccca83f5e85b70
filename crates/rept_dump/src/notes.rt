//! The register notes of a core file.

ghost use Rattle.std.specs.Prelude.{◌≡◌, ◌≤◌, ℕ, List, length, IfOk, IfErr};
ghost use Rattle.std.specs.List.{filter};
ghost use Rattle.std.specs.Option.{option_map};
ghost use Rattle.std.specs.Result.{result_map_both};
ghost use Rattle.rept_elf.specs.Image.{file_of, segments_of};
ghost use Rattle.rept_maps.specs.Notes.Found.{AreFound, note_of};
ghost use Rattle.rept_maps.specs.Notes.Notes.{Note as NoteOf, HaveNotes, AreCutAt, note_segments};
ghost use Rattle.rept_dump.specs.Registers.{SaysRegisters, status_size, is_status, first_short, only_registers};

use crate::fault::CoreFault;
use rept_elf::Image;
use rept_maps::{FoundNotes, Note, find_notes, find_short};

/// The bytes of a register note's descriptor.
pub const STATUS_SIZE: usize = 204;

/// The type of a note of registers.
pub const NT_PRSTATUS: u32 = 1;

/// The register notes of a core file.
pub fn read_core<'a>(core: &Image<'a>) -> Result<FoundNotes<'a>, CoreFault>
    ensures ok { IfOk result (λ found. (notes : List NoteOf) × HaveNotes (length (file_of core.now)) (note_segments (segments_of core.now)) notes × AreFound found (filter is_status notes)) }
    ensures cut { IfErr result (λ fault. (offset : ℕ) × AreCutAt (length (file_of core.now)) (note_segments (segments_of core.now)) offset × (fault ≡ CoreFault.NotePastEnd offset)) }
{
    match find_notes(core, NT_PRSTATUS) {
        Ok(found) => Ok(found),
        Err(cut) => Err(CoreFault::NotePastEnd(cut.offset)),
    }
}

/// The bytes of a note's descriptor, if there is a note.
fn size_of(first: Option<Note<'_>>) -> Option<u64>
    ensures { result ≡ option_map (λ (n : NoteOf). length n.desc) (option_map note_of first.entry) }
{
    match first {
        Some(note) => Some(note.desc.len() as u64),
        None => None,
    }
}

/// The size of the first descriptor of a register note that doesn't have all registers, if there is
/// one.
pub fn first_short(core: &Image<'_>) -> Result<Option<u64>, CoreFault>
    ensures ok { IfOk result (λ size. (notes : List NoteOf) → HaveNotes (length (file_of core.now)) (note_segments (segments_of core.now)) notes → size ≡ first_short (filter is_status notes)) }
    ensures cut { IfErr result (λ fault. (offset : ℕ) × AreCutAt (length (file_of core.now)) (note_segments (segments_of core.now)) offset × (fault ≡ CoreFault.NotePastEnd offset)) }
{
    match find_short(core, NT_PRSTATUS, STATUS_SIZE) {
        Ok(found) => Ok(size_of(found.first)),
        Err(cut) => Err(CoreFault::NotePastEnd(cut.offset)),
    }
}

/// The descriptor of the only register note that was found, if it has all registers.
fn only_one<'a>(found: &FoundNotes<'a>) -> Result<&'a [u8], CoreFault>
    ensures said { (statuses : List NoteOf) → AreFound found.now statuses → result_map_both (λ b. b.now) (λ e. e) result ≡ only_registers statuses }
    ensures enough { IfOk result (λ b. status_size ≤ length b.now) }
{
    let Some(note) = found.first else {
        return Err(CoreFault::NoStatus);
    };
    if found.count > 1 {
        return Err(CoreFault::SeveralThreads(found.count));
    }
    if note.desc.len() < STATUS_SIZE {
        return Err(CoreFault::ShortStatus(note.desc.len() as u64));
    }
    Ok(note.desc)
}

/// The descriptor of the only register note of a core file.
pub fn find_registers<'a>(core: &Image<'a>) -> Result<&'a [u8], CoreFault>
    ensures said { SaysRegisters (length (file_of core.now)) (segments_of core.now) (result_map_both (λ b. b.now) (λ e. e) result) }
    ensures enough { IfOk result (λ b. status_size ≤ length b.now) }
{
    match read_core(core) {
        Ok(found) => only_one(&found),
        Err(fault) => Err(fault),
    }
}
