//! The list of mapped files of a core file.

ghost use Rattle.std.specs.Prelude.{◌≡◌, ◌≤◌, ◌<◌, ◌+◌, ◌^◌, ℕ, List, Result, length};
ghost use Rattle.rept_elf.specs.Image.{file_of, segments_of};
ghost use Rattle.rept_maps.specs.Notes.Found.{note_of};
ghost use Rattle.rept_maps.specs.FileMap.{IsFileMap, map_count, most_entries};

use crate::entry::{Entry, MappedRange, is_map, name_at, place_at};
use crate::fault::MapFault;
use crate::names::Names;
use crate::notes::{FoundNotes, Note, find_notes};
use rept_elf::{Image, after, word};

/// The type of a note that lists mapped files.
const NT_FILE: u32 = 0x4649_4c45;

/// The most entries that are read.
const MOST_ENTRIES: u32 = 4096;

/// The list of mapped files of a core file. It borrows the file's bytes.
#[derive(Clone, Copy)]
pub struct Maps<'a> {
    desc: &'a [u8],
    ghost whole: { IsFileMap desc.now },
    ghost few: { map_count desc.now ≤ most_entries },
}

impl<'a> Maps<'a> {
    ghost use Rattle.std.specs.Prelude.{take};
    ghost use Rattle.rept_maps.specs.FileMap.{entry_at, names};
    ghost use Rattle.rept_maps.specs.NamesLeft.{names_left};
    ghost use Rattle.rept_maps.specs.Told.{FirstSays, MapsSay, NoteSays};
    ghost use Rattle.std.specs.Option.{option_map};
    ghost use Rattle.rept_maps.specs.Views.{desc_of, entry_of, said_of};
    ghost use Rattle.rept_maps.specs.declared.fault.MapFault.{MapFault};

    /// The list of mapped files of a core file: that of its first file note (`NT_FILE`, named
    /// `CORE`). A fault comes exactly where the core file has it first.
    pub fn read(core: Image<'a>) -> Result<Maps<'a>, MapFault>
        ensures said { MapsSay (length (file_of core.entry)) (segments_of core.entry) (said_of result) }
        ensures only { (said : Result (List ℕ) MapFault) → MapsSay (length (file_of core.entry)) (segments_of core.entry) said → said ≡ said_of result }
    {
        let found = match find_notes(&core, NT_FILE) {
            Ok(found) => found,
            Err(cut) => return Err(MapFault::NotePastEnd(cut.offset)),
        };
        Maps::of_first(&found)
    }

    /// The list in the first file note.
    fn of_first(found: &FoundNotes<'a>) -> Result<Maps<'a>, MapFault>
        ensures { FirstSays (option_map note_of found.now.first) (said_of result) }
    {
        match found.first {
            Some(note) => Maps::of_note(&note),
            None => Err(MapFault::NoMap),
        }
    }

    /// The list in a file note.
    fn of_note(note: &Note<'a>) -> Result<Maps<'a>, MapFault>
        ensures { NoteSays (note_of note.now) (said_of result) }
    {
        let desc = note.desc;
        if is_map(desc) {
            let count = word(desc, 0);
            if count > MOST_ENTRIES {
                return Err(MapFault::TooManyMaps(count));
            }
            Ok(Maps { desc })
        } else {
            Err(MapFault::BadMap(note.offset))
        }
    }

    /// The count of entries, at most 4,096.
    pub fn count(&self) -> u32
        ensures count { result ≡ map_count (desc_of self.now) }
        ensures few { result ≤ most_entries }
    {
        word(self.desc, 0)
    }

    /// The names of the entries, in table order.
    pub fn names(&self) -> Names<'a>
        ensures { names_left result ≡ take (map_count (desc_of self.now)) (names (desc_of self.now)) }
    {
        let count = word(self.desc, 0);
        Names {
            rest: after(self.desc, 8 + 12 * count as usize),
            left: count,
        }
    }

    /// The addresses and the offset of the entry of this index, without its name.
    pub fn place(&self, i: u32) -> MappedRange
        requires { i < map_count (desc_of self.now) }
        ensures start { result.start ≡ (entry_at (desc_of self.now) i).start }
        ensures end { result.end ≡ (entry_at (desc_of self.now) i).end }
        ensures offset { result.offset ≡ (entry_at (desc_of self.now) i).offset }
        ensures small { result.offset + 2 ^ 32 < 2 ^ 64 }
    {
        place_at(self.desc, i)
    }

    /// The entry of this index, in table order. Its name is found by going over the names before
    /// it.
    pub fn entry(&self, i: u32) -> Entry<'a>
        requires { i < map_count (desc_of self.now) }
        ensures { entry_of result ≡ entry_at (desc_of self.now) i }
    {
        let place = place_at(self.desc, i);
        Entry {
            start: place.start,
            end: place.end,
            offset: place.offset,
            name: name_at(self.desc, i),
        }
    }
}
