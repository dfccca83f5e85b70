//! What a core file tells of the process, and of where its stack lies.

ghost use Rattle.std.specs.Prelude.{◌≡◌, ℕ, List};
ghost use Rattle.std.specs.List.{list_any};
ghost use Rattle.rept_elf.specs.Image.{segment_of, segments_of};
ghost use Rattle.rept_dump.specs.Registers.{pid_of, saved_register};
ghost use Rattle.rept_opening.specs.Beyond.{area_from, at_least, lies_above, process_told, stack_from};

use crate::premises::lies_in;
use rept_elf::{Image, PT_LOAD, Segment};

/// What a core file tells of the process: its number, and the lowest address of the area that has
/// the stack, if it is known.
#[derive(Clone, Copy)]
pub struct ProcessTold {
    pub pid: u32,
    pub stack_from: Option<u32>,
}

/// Whether a segment is part of memory, and begins above this address.
fn lies_above(segment: &Segment<'_>, a: u32) -> bool
    ensures { result ≡ lies_above a (segment_of segment.now) }
{
    segment.kind == PT_LOAD && a < segment.vaddr
}

/// Whether some segment of a file is such a one.
fn has_above(core: &Image<'_>, a: u32) -> bool
    ensures { result ≡ list_any (lies_above a) (segments_of core.now) }
{
    for i in 0..core.count() {
        if lies_above(&core.segment(i), a) {
            return true;
        }
    }
    false
}

/// Where the first segment begins that has this address in memory.
fn area_from(core: &Image<'_>, a: u32) -> Option<u32>
    ensures { result ≡ area_from (segments_of core.now) a }
{
    for i in 0..core.count() {
        let segment = core.segment(i);
        if lies_in(&segment, a) {
            return Some(segment.vaddr);
        }
    }
    None
}

/// An address, unless it is below a bound.
fn at_least(low: u64, address: Option<u32>) -> Option<u32>
    ensures { result ≡ at_least low address }
{
    match address {
        None => None,
        Some(a) => { if low <= u64::from(a) { Some(a) } else { None } }
    }
}

/// The lowest address of the area that has the stack, by where the program ends and by the stack
/// pointer of the crash.
fn stack_from(core: &Image<'_>, image_end: u64, pointer: u32) -> Option<u32>
    ensures { result ≡ stack_from (segments_of core.now) image_end pointer }
{
    if has_above(core, pointer) {
        None
    } else {
        at_least(image_end, area_from(core, pointer))
    }
}

/// What a core file tells of the process, by where the program ends, and by the number and the
/// stack pointer in the note.
pub fn process_told(core: &Image<'_>, image_end: u64, note: (u32, u32)) -> ProcessTold
    ensures { (desc : List ℕ) → note.0 ≡ pid_of desc → note.1 ≡ saved_register desc 2 → result ≡ process_told (segments_of core.now) image_end desc }
{
    let (pid, pointer) = note;
    ProcessTold {
        pid,
        stack_from: stack_from(core, image_end, pointer),
    }
}
