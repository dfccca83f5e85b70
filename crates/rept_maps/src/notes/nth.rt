//! One note after others, found by going through them. None of it is kept.

ghost use Rattle.std.specs.Prelude.{◌≡◌, ◌<◌, ◌≤◌, ◌+◌, List, length, slice_get, true, MatchOption, Some, if◌then◌else◌};
ghost use Rattle.std.specs.List.{filter};
ghost use Rattle.rept_elf.specs.Image.{file_of, segments_of, segment_of};
ghost use Rattle.rept_maps.specs.Notes.Found.{note_of};
ghost use Rattle.rept_maps.specs.Notes.Notes.{Note as NoteOf, AreNotes, HaveNotes, note_segments};
ghost use Rattle.rept_maps.specs.Notes.Nth.{Searches, AreNotesOf};
ghost use Rattle.rept_maps.specs.Notes.Sought.{is_sought};

use crate::notes::note::{NOTE_HEADER, Note, first_note, is_sought};
use rept_elf::{Image, PT_NOTE, Segment};

/// What a search for a note came to.
#[derive(Clone, Copy)]
pub enum NoteSearch<'a> {
    /// The note.
    Found(Note<'a>),
    /// There are too few: so many are left to pass over.
    Past(u32),
}

/// How many sought notes are left to pass over after a note.
fn pass(left: u32, sought: bool) -> u32
    requires { sought ≡ true → 0 < left }
    ensures { (if sought then 1 else 0) + result ≡ left }
{
    if sought { left - 1 } else { left }
}

/// The sought note after so many of the notes of these bytes, which stand at the offset of the
/// file.
fn search_notes(bytes: &[u8], offset: u32, kind: u32, skip: u32) -> NoteSearch<'_>
    requires { length bytes.now < 4294967296 }
    ensures { (notes : List NoteOf) → AreNotes offset bytes.now notes → Searches (filter (is_sought kind) notes) skip result }
{
    let mut rest = bytes;
    let mut left = skip;
    while rest.len() >= NOTE_HEADER {
        let place = u64::from(offset) + (bytes.len() - rest.len()) as u64;
        let Some(begun) = first_note(rest, place) else {
            return NoteSearch::Past(left);
        };
        let sought = is_sought(&begun.note, kind);
        if sought && left == 0 {
            return NoteSearch::Found(begun.note);
        }
        left = pass(left, sought);
        rest = begun.after;
    }
    NoteSearch::Past(left)
}

/// The sought note after so many of the notes of a segment, if it is one of notes.
fn search_segment<'a>(segment: &Segment<'a>, kind: u32, skip: u32) -> NoteSearch<'a>
    requires { length segment.now.body.now < 4294967296 }
    ensures { (notes : List NoteOf) → AreNotesOf (segment_of segment.now) notes → Searches (filter (is_sought kind) notes) skip result }
{
    if segment.kind == PT_NOTE {
        search_notes(segment.body, segment.offset, kind, skip)
    } else {
        NoteSearch::Past(skip)
    }
}

/// The note after so many of those of a core file that are of this type and named `CORE`, where the
/// notes are whole. None exactly where there are too few.
pub fn find_nth<'a>(core: &Image<'a>, kind: u32, skip: u32) -> Option<Note<'a>>
    ensures { (notes : List NoteOf) → HaveNotes (length (file_of core.now)) (note_segments (segments_of core.now)) notes →
        MatchOption result (length (filter (is_sought kind) notes) ≤ skip) (λ note. slice_get (filter (is_sought kind) notes) skip ≡ Some (note_of note)) }
{
    let mut left = skip;
    for i in 0..core.count() {
        let segment = core.segment(i);
        match search_segment(&segment, kind, left) {
            NoteSearch::Found(note) => return Some(note),
            NoteSearch::Past(more) => left = more,
        }
    }
    None
}
