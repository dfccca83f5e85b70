//! The premises that the files of a crash tell.

ghost use Rattle.std.specs.Prelude.{◌≡◌, drop, slice_get};
ghost use Rattle.std.specs.List.{list_any};
ghost use Rattle.std.specs.Option.{option_map};
ghost use Rattle.rept_elf.specs.Image.{file_of, segment_of, segments_of};
ghost use Rattle.rept_dump.specs.Dump.{core_of, exe_of};
ghost use Rattle.rept_dump.specs.Memory.{crash_byte, may_be_written};
ghost use Rattle.rept_dump.specs.Program.{contents};
ghost use Rattle.rept_opening.specs.Beyond.{begun_file, e_entry, has_page, is_at, is_begin, is_interpreter, is_read_only, lies_in, loaded_at, loaded_byte};

use crate::areas::ProcessTold;
use rept_dump::Dump;
use rept_elf::{Image, PF_W, PT_LOAD, Segment, word};
use rept_isa::StepRow;
use rept_narrow::PathPremises;

/// `p_type` of a segment that names the program by which an executable is begun.
const PT_INTERP: u32 = 3;

/// What tells the premises of a crash: its dump, the core file of that, the process, and the
/// executable with whose first instruction the path begins, if it does.
#[derive(Clone, Copy)]
pub struct CrashPremises<'a> {
    pub dump: &'a Dump<'a>,
    pub core: Image<'a>,
    pub process: ProcessTold,
    pub begun: Option<Image<'a>>,
}

impl<'a> PathPremises for CrashPremises<'a> {
    ghost use Rattle.std.specs.Option.{option_map};
    ghost use Rattle.rept_elf.specs.Image.{file_of, segments_of};
    ghost use Rattle.rept_dump.specs.Dump.{core_of, exe_of};
    ghost use Rattle.rept_dump.specs.Memory.{crash_byte};
    ghost use Rattle.rept_dump.specs.Program.{contents};
    ghost use Rattle.rept_opening.specs.Beyond.{premises_by};

    ghost premises = { λ p. premises_by (segments_of p.core) (crash_byte (contents (exe_of p.dump.now)) (core_of p.dump.now)) p.process (option_map file_of p.begun) };

    fn is_read_only(&self, address: u32) -> bool {
        is_read_only(&self.core, self.dump, address)
    }

    fn first_byte(&self, address: u32) -> Option<u8> {
        match &self.begun {
            Some(program) => loaded_at(program, address),
            None => None,
        }
    }

    fn process(&self) -> Option<u32> {
        Some(self.process.pid)
    }

    fn stack_from(&self) -> Option<u32> {
        self.process.stack_from
    }

    fn clear_from(&self) -> Option<u32> {
        match &self.begun {
            Some(_) => self.process.stack_from,
            None => None,
        }
    }
}

/// Whether the program could not write the byte at this address when it crashed.
fn is_read_only(core: &Image<'_>, dump: &Dump<'_>, a: u32) -> bool
    ensures { result ≡ is_read_only (segments_of core.now) (crash_byte (contents (exe_of dump.now)) (core_of dump.now)) a }
{
    !may_be_written(core, a) && (is_mapped(core, a) || dump.byte(a).is_some())
}

/// Whether a segment is part of memory and has this address.
pub(crate) fn lies_in(segment: &Segment<'_>, a: u32) -> bool
    ensures { result ≡ lies_in a (segment_of segment.now) }
{
    let end = u64::from(segment.vaddr) + u64::from(segment.memsz);
    segment.kind == PT_LOAD && segment.vaddr <= a && u64::from(a) < end
}

/// Whether some segment of a file is such a one.
fn is_mapped(core: &Image<'_>, a: u32) -> bool
    ensures { result ≡ list_any (lies_in a) (segments_of core.now) }
{
    for i in 0..core.count() {
        if lies_in(&core.segment(i), a) {
            return true;
        }
    }
    false
}

/// Whether a segment could be written and has this address in memory.
fn is_written(segment: &Segment<'_>, a: u32) -> bool
    ensures { result ≡ may_be_written a (segment_of segment.now) }
{
    let end = u64::from(segment.vaddr) + u64::from(segment.memsz);
    segment.kind == PT_LOAD && segment.flags & PF_W != 0 && segment.vaddr <= a && u64::from(a) < end
}

/// Whether some segment of a file is such a one.
fn may_be_written(core: &Image<'_>, a: u32) -> bool
    ensures { result ≡ list_any (may_be_written a) (segments_of core.now) }
{
    for i in 0..core.count() {
        if is_written(&core.segment(i), a) {
            return true;
        }
    }
    false
}

/// The executable, where the path of these steps, read without so many packets, may begin with its
/// first instruction.
pub fn begun_program<'a>(
    executable: Option<Image<'a>>,
    skipped: u32,
    rows: &[StepRow],
) -> Option<Image<'a>>
    ensures { option_map file_of result ≡ begun_file (option_map file_of executable.entry) skipped rows.now }
{
    match executable {
        Some(program) => {
            if is_begin(&program, skipped, rows) {
                Some(program)
            } else {
                None
            }
        }
        None => None,
    }
}

/// Whether no packet was left out, no other program begins this one, and the first step is at the
/// first instruction.
fn is_begin(program: &Image<'_>, skipped: u32, rows: &[StepRow]) -> bool
    ensures { result ≡ is_begin (file_of program.now) skipped rows.now }
{
    skipped == 0 && !has_interpreter(program) && is_entry(program, rows)
}

/// Whether a segment names the program that begins this one.
fn is_interpreter(segment: &Segment<'_>) -> bool
    ensures { result ≡ is_interpreter (segment_of segment.now) }
{
    segment.kind == PT_INTERP
}

/// Whether another program begins this one.
fn has_interpreter(program: &Image<'_>) -> bool
    ensures { result ≡ list_any is_interpreter (segments_of program.now) }
{
    for i in 0..program.count() {
        if is_interpreter(&program.segment(i)) {
            return true;
        }
    }
    false
}

/// Whether the first step is at the program's first instruction.
fn is_entry(program: &Image<'_>, rows: &[StepRow]) -> bool
    ensures { result ≡ is_at (e_entry (file_of program.now)) (slice_get rows.now 0) }
{
    match rows.get(0) {
        Some(row) => row.at == word(program.file(), 24),
        None => false,
    }
}

/// Whether the segment is part of memory, and has bytes in the page of this address.
fn has_page(segment: &Segment<'_>, a: u32) -> bool
    ensures { result ≡ has_page a (segment_of segment.now) }
{
    let end = u64::from(segment.vaddr) + u64::from(segment.memsz);
    let page = a / 4096;
    segment.kind == PT_LOAD && segment.vaddr / 4096 <= page && u64::from(page) < (end + 4095) / 4096
}

/// Whether some segment from an index on is such a one.
fn has_page_after(program: &Image<'_>, from: u32, a: u32) -> bool
    ensures { result ≡ list_any (has_page a) (drop from (segments_of program.now)) }
{
    for i in from..program.count() {
        if has_page(&program.segment(i), a) {
            return true;
        }
    }
    false
}

/// The byte at an address when the program begins, by a segment alone.
fn loaded_byte(segment: &Segment<'_>, a: u32) -> Option<u8>
    ensures { result ≡ loaded_byte a (segment_of segment.now) }
{
    if a < segment.vaddr {
        return None;
    }
    let place = a - segment.vaddr;
    if place < segment.filesz {
        return segment.body.get(place as usize).copied();
    }
    if segment.flags & PF_W != 0 && place < segment.memsz {
        Some(0)
    } else {
        None
    }
}

/// The byte at an address when the program begins, by the only segment that has its page.
fn loaded_at(program: &Image<'_>, a: u32) -> Option<u8>
    ensures { result ≡ loaded_at (segments_of program.now) a }
{
    for i in 0..program.count() {
        let segment = program.segment(i);
        if has_page(&segment, a) {
            if has_page_after(program, i + 1, a) {
                return None;
            }
            return loaded_byte(&segment, a);
        }
    }
    None
}
