//! The notes of a core file.

ghost use Rattle.std.specs.Prelude.{◌≡◌, ◌≤◌, ◌<◌, ◌+◌, ◌^◌, ℕ, List, Result, length, IfOk, IfErr};
ghost use Rattle.std.specs.List.{filter};
ghost use Rattle.rept_elf.specs.Image.{file_of, segments_of, segment_of};
ghost use Rattle.rept_maps.specs.Notes.Ahead.{IsAhead};
ghost use Rattle.rept_maps.specs.Notes.Found.{AreFound, AddsNotes, PassesSegment, CutsSegment, said_of, wanted};
ghost use Rattle.rept_maps.specs.Notes.Notes.{Note as NoteOf, AreNotes, CutsNote, HaveNotes, AreCutAt, note_segments};
ghost use Rattle.rept_maps.specs.Notes.Sought.{CountedNotes, SaysOf, SaysOfType, is_short};

use crate::notes::ahead::{Ahead, ahead_of, go_ahead};
use crate::notes::fault::NotePastEnd;
use crate::notes::note::{
    FoundNotes, NOTE_HEADER, NOTHING, NoteFilter, add_note, first_note, join,
};
use rept_elf::{Image, PT_NOTE, Segment};

/// The most segments of a file.
const MOST_SEGMENTS: usize = 4096;

/// The sought notes of a note segment of which these are the bytes that stand at the offset of the
/// file, and of which it was read so far ahead.
fn read_notes<'a>(
    bytes: &'a [u8],
    offset: u32,
    sought: NoteFilter,
    found: FoundNotes<'a>,
    ahead: Ahead<'a>,
) -> Result<FoundNotes<'a>, NotePastEnd>
    requires size { length bytes.now < 2 ^ 32 }
    requires ahead { IsAhead (wanted sought) offset bytes.now ahead }
    requires room { found.count + length bytes.now < 2 ^ 64 }
    ensures ok { IfOk result (λ now. (notes : List NoteOf) × AreNotes offset bytes.now notes × AddsNotes found.entry now (filter (wanted sought) notes)) }
    ensures few { IfOk result (λ now. now.count ≤ found.entry.count + length bytes.now) }
    ensures cut { IfErr result (λ fault. CutsNote offset bytes.now fault.offset) }
{
    let mut now = join(found, ahead.found);
    let mut rest = ahead.rest;
    while rest.len() >= NOTE_HEADER {
        let place = u64::from(offset) + (bytes.len() - rest.len()) as u64;
        let Some(begun) = first_note(rest, place) else {
            return Err(NotePastEnd { offset: place });
        };
        now = add_note(now, &begun.note, sought);
        rest = begun.after;
    }
    Ok(now)
}

/// The sought notes so far, and those of this segment, if it is one of notes, of a file of so many
/// bytes, of which it was read so far ahead.
fn read_segment<'a>(
    segment: &Segment<'a>,
    size: usize,
    sought: NoteFilter,
    found: FoundNotes<'a>,
    ahead: Ahead<'a>,
) -> Result<FoundNotes<'a>, NotePastEnd>
    requires size { length segment.now.body.now < 2 ^ 32 }
    requires ahead { IsAhead (wanted sought) segment.now.offset segment.now.body.now ahead }
    requires room { found.count + length segment.now.body.now < 2 ^ 64 }
    ensures ok { IfOk result (λ now. PassesSegment (wanted sought) size (segment_of segment.now) found.entry now) }
    ensures few { IfOk result (λ now. now.count ≤ found.entry.count + length segment.now.body.now) }
    ensures cut { IfErr result (λ fault. CutsSegment size (segment_of segment.now) fault.offset) }
{
    if segment.kind != PT_NOTE {
        return Ok(found);
    }
    let end = u64::from(segment.offset) + u64::from(segment.filesz);
    if end > size as u64 {
        return Err(NotePastEnd {
            offset: u64::from(segment.offset),
        });
    }
    read_notes(segment.body, segment.offset, sought, found, ahead)
}

/// The sought notes of a core file.
fn read_core<'a>(core: &Image<'a>, sought: NoteFilter) -> Result<FoundNotes<'a>, NotePastEnd>
    ensures ok { IfOk result (λ found. (notes : List NoteOf) × HaveNotes (length (file_of core.now)) (note_segments (segments_of core.now)) notes × AreFound found (filter (wanted sought) notes)) }
    ensures cut { IfErr result (λ fault. AreCutAt (length (file_of core.now)) (note_segments (segments_of core.now)) fault.offset) }
{
    let mut aheads = [None; MOST_SEGMENTS];
    go_ahead(core, &mut aheads, sought);
    let mut found = NOTHING;
    for i in 0..core.count() {
        let segment = core.segment(i);
        let ahead = ahead_of(&segment, aheads[i as usize], sought);
        found = read_segment(&segment, core.file_size(), sought, found, ahead)?;
    }
    Ok(found)
}

/// The notes of a core file that are of this type and named `CORE`: how many, and the first. All
/// notes of the file must be whole, of whatever type; the fault comes exactly where one isn't. What
/// the notes say is determined by the file.
pub fn find_notes<'a>(core: &Image<'a>, kind: u32) -> Result<FoundNotes<'a>, NotePastEnd>
    ensures said { SaysOfType kind (length (file_of core.now)) (segments_of core.now) (said_of result) }
    ensures only { (said : Result CountedNotes ℕ) → SaysOfType kind (length (file_of core.now)) (segments_of core.now) said → said ≡ said_of result }
{
    read_core(core, NoteFilter { kind, below: None })
}

/// The notes of a core file that are of this type and named `CORE`, of those alone whose descriptor
/// has fewer bytes than `least`: how many, and the first. All notes of the file must be whole, of
/// whatever type.
pub fn find_short<'a>(
    core: &Image<'a>,
    kind: u32,
    least: usize,
) -> Result<FoundNotes<'a>, NotePastEnd>
    ensures said { SaysOf (is_short kind least) (length (file_of core.now)) (segments_of core.now) (said_of result) }
    ensures only { (said : Result CountedNotes ℕ) → SaysOf (is_short kind least) (length (file_of core.now)) (segments_of core.now) said → said ≡ said_of result }
{
    read_core(
        core,
        NoteFilter {
            kind,
            below: Some(least),
        },
    )
}
