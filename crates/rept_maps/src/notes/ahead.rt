//! Notes that several note segments have, read once.
//!
//! Note segments may overlap, so that each of thousands may have all notes of the file. So they are
//! gone through side by side, one block of the file after the other, and what was read of the notes
//! of a block is kept by the place where they begin: segments that come to the same note there go
//! on as one.

ghost use Rattle.std.specs.Prelude.{◌≡◌, ◌≤◌, ◌<◌, ◌+◌, ◌-◌, ◌^◌, List, ℕ, Bool, length, drop, take, slice_get, Some};
ghost use Rattle.rept_elf.specs.Image.{file_of, segments_of, segment_of};
ghost use Rattle.rept_elf.specs.Segments.{part_of};
ghost use Rattle.rept_maps.specs.Notes.Ahead.{IsAhead, AreLeaps, AreAhead};
ghost use Rattle.rept_maps.specs.Notes.Found.{wanted};
ghost use Rattle.rept_maps.specs.Notes.Notes.{Note as NoteOf};
ghost use Rattle.rept_maps.specs.declared.notes.ahead.Ahead.{Ahead as AheadOf};

use crate::notes::note::{
    FoundNotes, NOTE_HEADER, NOTHING, NoteFilter, add_note, first_note, join,
};
use rept_elf::{Image, PT_NOTE, Segment, after};

/// The bytes of a block of the file, and the places at which notes of a block may begin.
const BLOCK: usize = 4096;

/// What was found in the first notes of some bytes, and the bytes after these.
#[derive(Clone, Copy)]
pub struct Ahead<'a> {
    /// Their sought notes.
    pub found: FoundNotes<'a>,
    /// The bytes after them.
    pub rest: &'a [u8],
}

/// What was found in the first notes of the bytes of the file from an offset on, and the bytes
/// after these.
#[derive(Clone, Copy)]
pub struct NotesFrom<'a> {
    /// The offset.
    pub at: usize,
    /// What was found from there on, and the rest of the file.
    pub ahead: Ahead<'a>,
}

/// No note of these bytes.
pub fn start(bytes: &[u8]) -> Ahead<'_>
    ensures { (sought : NoteOf → Bool) (offset : ℕ) → IsAhead sought offset bytes.now result }
{
    Ahead {
        found: NOTHING,
        rest: bytes,
    }
}

/// The first notes of the file's bytes from this offset on, all that begin in its block and are
/// whole.
fn walk(bytes: &[u8], at: usize, sought: NoteFilter) -> Ahead<'_>
    requires { at + length bytes.now < 2 ^ 64 - 1 }
    ensures { IsAhead (wanted sought) at bytes.now result }
{
    let left = BLOCK - at % BLOCK;
    let mut ahead = start(bytes);
    while ahead.rest.len() >= NOTE_HEADER && bytes.len() - ahead.rest.len() < left {
        let place = at + (bytes.len() - ahead.rest.len());
        let Some(begun) = first_note(ahead.rest, place as u64) else {
            return ahead;
        };
        ahead = Ahead {
            found: add_note(ahead.found, &begun.note, sought),
            rest: begun.after,
        };
    }
    ahead
}

/// The notes of a file from an offset up to the end of its block, as they are kept or else read and
/// kept.
fn leap_from<'a>(
    leaps: &mut [Option<NotesFrom<'a>>],
    file: &'a [u8],
    at: usize,
    sought: NoteFilter,
) -> Ahead<'a>
    requires places { length leaps.old ≡ 4096 }
    requires within { at < 2 ^ 62 }
    requires leaps { AreLeaps (wanted sought) file.now leaps.old }
    ensures places { length leaps.new ≡ 4096 }
    ensures leaps { AreLeaps (wanted sought) file.now leaps.new }
    ensures ahead { IsAhead (wanted sought) at (drop at file.now) result }
{
    let place = at % BLOCK;
    if let Some(kept) = leaps[place] {
        if kept.at == at {
            return kept.ahead;
        }
    }
    let ahead = walk(after(file, at), at, sought);
    leaps[place] = Some(NotesFrom { at, ahead });
    ahead
}

/// Goes on over the notes that begin these bytes of the file, of which the rest is the front, where
/// the rest has all of them and the header of one more.
fn pass<'a>(ahead: Ahead<'a>, bytes: &'a [u8], leap: Ahead<'a>) -> Ahead<'a>
    requires front { ahead.rest.now ≡ take (length ahead.rest.now) bytes.now }
    requires room { ahead.found.count + length ahead.rest.now < 2 ^ 64 }
    requires less { leap.found.count + length leap.rest.now ≤ length bytes.now }
    ensures { (sought : NoteOf → Bool) (offset : ℕ) (segment : List ℕ) → IsAhead sought offset segment ahead.entry → IsAhead sought (offset + (length segment - length ahead.entry.rest.now)) bytes.now leap.entry → IsAhead sought offset segment result }
{
    let passed = bytes.len() - leap.rest.len();
    if ahead.rest.len() < passed + NOTE_HEADER {
        return ahead;
    }
    Ahead {
        found: join(ahead.found, leap.found),
        rest: after(ahead.rest, passed),
    }
}

/// Goes on over the notes of a segment that begin in this block of the file.
fn go_on<'a>(
    segment: &Segment<'a>,
    ahead: Ahead<'a>,
    file: &'a [u8],
    block: usize,
    leaps: &mut [Option<NotesFrom<'a>>],
    sought: NoteFilter,
) -> Ahead<'a>
    requires part { segment.now.body.now ≡ part_of file.now segment.now.offset segment.now.filesz }
    requires size { length segment.now.body.now < 2 ^ 32 }
    requires ahead { IsAhead (wanted sought) segment.now.offset segment.now.body.now ahead }
    requires places { length leaps.old ≡ 4096 }
    requires leaps { AreLeaps (wanted sought) file.now leaps.old }
    ensures places { length leaps.new ≡ 4096 }
    ensures leaps { AreLeaps (wanted sought) file.now leaps.new }
    ensures ahead { IsAhead (wanted sought) segment.now.offset segment.now.body.now result }
{
    let at = segment.offset as usize + (segment.body.len() - ahead.rest.len());
    if at / BLOCK != block {
        return ahead;
    }
    pass(ahead, after(file, at), leap_from(leaps, file, at, sought))
}

/// Goes on over the notes of each note segment that begin in this block of the file.
fn go_on_all<'a>(
    core: &Image<'a>,
    block: usize,
    aheads: &mut [Option<Ahead<'a>>],
    leaps: &mut [Option<NotesFrom<'a>>],
    sought: NoteFilter,
)
    requires room { length aheads.old ≡ 4096 }
    requires aheads { AreAhead (wanted sought) (segments_of core.now) aheads.old }
    requires places { length leaps.old ≡ 4096 }
    requires leaps { AreLeaps (wanted sought) (file_of core.now) leaps.old }
    ensures room { length aheads.new ≡ 4096 }
    ensures aheads { AreAhead (wanted sought) (segments_of core.now) aheads.new }
    ensures places { length leaps.new ≡ 4096 }
    ensures leaps { AreLeaps (wanted sought) (file_of core.now) leaps.new }
{
    for i in 0..core.count() {
        let segment = core.segment(i);
        if segment.kind == PT_NOTE {
            let ahead = ahead_of(&segment, aheads[i as usize], sought);
            aheads[i as usize] = Some(go_on(&segment, ahead, core.file(), block, leaps, sought));
        }
    }
}

/// How far a segment was gone through: not at all where nothing is kept.
pub fn ahead_of<'a>(segment: &Segment<'a>, kept: Option<Ahead<'a>>, sought: NoteFilter) -> Ahead<'a>
    requires { (ahead : AheadOf) → kept ≡ Some ahead → IsAhead (wanted sought) segment.now.offset segment.now.body.now ahead }
    ensures { IsAhead (wanted sought) segment.now.offset segment.now.body.now result }
{
    kept.unwrap_or(start(segment.body))
}

/// Goes through the note segments of a core file side by side, each up to the last block in which
/// it has a note.
pub fn go_ahead<'a>(core: &Image<'a>, aheads: &mut [Option<Ahead<'a>>], sought: NoteFilter)
    requires room { length aheads.old ≡ 4096 }
    requires aheads { AreAhead (wanted sought) (segments_of core.now) aheads.old }
    ensures room { length aheads.new ≡ 4096 }
    ensures aheads { AreAhead (wanted sought) (segments_of core.now) aheads.new }
{
    let mut leaps = [None; BLOCK];
    for block in 0..core.file_size() / BLOCK + 1 {
        go_on_all(core, block, aheads, &mut leaps, sought);
    }
}
