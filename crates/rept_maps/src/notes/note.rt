//! One note, and the sought notes that were found so far.

ghost use Rattle.std.specs.Prelude.{◌≡◌, ◌≤◌, ◌<◌, ◌+◌, ◌^◌, ◌==◌, List, [], ◌∷◌, length, MatchOption};
ghost use Rattle.std.specs.List.{filter, list_all};
ghost use Rattle.rept_maps.specs.Notes.Found.{AreFound, AddsNotes, note_of, wanted};
ghost use Rattle.rept_maps.specs.Notes.Notes.{Note as NoteOf, HoldsNote, first_note as note_at, after_note, note_size, desc_offset, desc_size, note_header, padded as padded_size};
ghost use Rattle.rept_maps.specs.Notes.Sought.{is_core_name, is_sought as is_sought_note};

use rept_elf::{after, part, word};

/// The bytes of the sizes and the type of a note.
pub const NOTE_HEADER: usize = 12;

/// A note of a file.
#[derive(Clone, Copy, Debug)]
pub struct Note<'a> {
    /// The offset of its header in the file.
    pub offset: u64,
    /// The type.
    pub kind: u32,
    /// The name, without padding.
    pub name: &'a [u8],
    /// The descriptor, without padding.
    pub desc: &'a [u8],
}

/// A note that begins some bytes, and what stands after it.
#[derive(Clone, Copy)]
pub struct LeadingNote<'a> {
    /// The note.
    pub note: Note<'a>,
    /// The bytes after it.
    pub after: &'a [u8],
}

/// The next multiple of 4.
fn padded(size: u32) -> usize
    ensures { result ≡ padded_size size }
{
    (size as usize + 3) / 4 * 4
}

/// The note that begins the bytes, which stand at this offset of the file, if they hold it.
pub fn first_note(bytes: &[u8], offset: u64) -> Option<LeadingNote<'_>>
    requires { note_header ≤ length bytes.now }
    ensures { MatchOption result (length bytes.now < desc_offset bytes.now + desc_size bytes.now)
        (λ n. HoldsNote bytes.now × (note_at offset bytes.now ≡ note_of n.note) × (n.after.now ≡ after_note bytes.now)) }
{
    let name_len = word(bytes, 0);
    let desc_len = word(bytes, 4);
    let desc_start = NOTE_HEADER + padded(name_len);
    if desc_start + desc_len as usize > bytes.len() {
        return None;
    }
    Some(LeadingNote {
        note: Note {
            offset,
            kind: word(bytes, 8),
            name: part(bytes, NOTE_HEADER, name_len as usize),
            desc: part(bytes, desc_start, desc_len as usize),
        },
        after: after(bytes, desc_start + padded(desc_len)),
    })
}

/// Whether all bytes are zero.
fn is_zero(bytes: &[u8]) -> bool
    ensures { result ≡ list_all (λ b. b == 0) bytes.now }
{
    bytes.iter().all(|b| *b == 0)
}

/// Whether a name is `CORE` and zero bytes after it.
fn is_core(name: &[u8]) -> bool
    ensures { result ≡ is_core_name name.now }
{
    name.starts_with(b"CORE") && is_zero(after(name, 4))
}

/// Which notes are sought, of those that are named `CORE`.
#[derive(Clone, Copy)]
pub struct NoteFilter {
    /// Their type.
    pub kind: u32,
    /// None for all of them; else the least bytes that a descriptor has of which the note isn't
    /// sought.
    pub below: Option<usize>,
}

/// Whether a note is sought.
fn is_wanted(note: &Note<'_>, sought: NoteFilter) -> bool
    ensures { result ≡ wanted sought (note_of note.now) }
{
    match sought.below {
        None => is_sought(note, sought.kind),
        Some(least) => is_sought(note, sought.kind) && note.desc.len() < least,
    }
}

/// Whether a note is of this type and named `CORE`.
pub fn is_sought(note: &Note<'_>, kind: u32) -> bool
    ensures { result ≡ is_sought_note kind (note_of note.now) }
{
    note.kind == kind && is_core(note.name)
}

/// The sought notes of a core file: how many, and the first.
#[derive(Clone, Copy, Debug)]
pub struct FoundNotes<'a> {
    /// How many.
    pub count: u64,
    /// The first, in the order of the segments and of the notes of each.
    pub first: Option<Note<'a>>,
}

/// No note.
pub const NOTHING: FoundNotes<'static> = FoundNotes {
    count: 0,
    first: None,
};

/// What was found, and this note if it is sought.
pub fn add_note<'a>(found: FoundNotes<'a>, note: &Note<'a>, sought: NoteFilter) -> FoundNotes<'a>
    requires { found.count + 1 < 2 ^ 64 }
    ensures { AddsNotes found.entry result (filter (wanted sought) (note_of note.now ∷ [])) }
{
    if is_wanted(note, sought) {
        FoundNotes {
            count: found.count + 1,
            first: found.first.or(Some(*note)),
        }
    } else {
        found
    }
}

/// What was found, and what was found in the notes after.
pub fn join<'a>(found: FoundNotes<'a>, more: FoundNotes<'a>) -> FoundNotes<'a>
    requires { found.count + more.count < 2 ^ 64 }
    ensures { (notes : List NoteOf) → AreFound more.entry notes → AddsNotes found.entry result notes }
{
    FoundNotes {
        count: found.count + more.count,
        first: found.first.or(more.first),
    }
}
