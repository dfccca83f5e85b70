//! The first segment that has an address.

ghost use Rattle.std.specs.Prelude.{◌≡◌, ◌≤◌, ◌&&◌, length, IfSome, Some, None, if◌then◌else◌};
ghost use Rattle.std.specs.List.{list_any};
ghost use Rattle.std.specs.Option.{option_map};
ghost use Rattle.rept_elf.specs.Image.{segment_of, segments_of};
ghost use Rattle.rept_dump.specs.Memory.{allows, holds, bytes_from, may_be_written};

use rept_elf::{Image, PF_W, PF_X, PT_LOAD, Segment};

/// The segments among which is looked.
#[derive(Clone, Copy, Debug, PartialEq, Eq)]
pub enum Allowed {
    /// All.
    All,
    /// Those without `PF_W`.
    ReadOnly,
    /// Those with `PF_X`.
    Executable,
}

/// Whether it is looked in this segment.
pub fn is_allowed(segment: &Segment<'_>, allowed: Allowed) -> bool
    ensures { result ≡ allows allowed (segment_of segment.now) }
{
    match allowed {
        Allowed::All => true,
        Allowed::ReadOnly => segment.flags & PF_W == 0,
        Allowed::Executable => segment.flags & PF_X != 0,
    }
}

/// The segment's bytes from an address on, where it is allowed and part of memory, and its file has
/// so many of them.
pub fn held_bytes<'a>(
    segment: &Segment<'a>,
    allowed: Allowed,
    a: u32,
    count: usize,
) -> Option<&'a [u8]>
    ensures bytes { option_map (λ b. b.now) result ≡ (if allows allowed (segment_of segment.now) && holds a count (segment_of segment.now) then Some (bytes_from a (segment_of segment.now)) else None) }
    ensures enough { IfSome result (λ b. count ≤ length b.now) }
{
    if !is_allowed(segment, allowed) || segment.kind != PT_LOAD || a < segment.vaddr {
        return None;
    }
    let bytes = segment.body.get((a - segment.vaddr) as usize..)?;
    if bytes.len() < count {
        return None;
    }
    Some(bytes)
}

/// Whether a segment is part of memory that could be written, and has this address there, whatever
/// its file has of it.
fn is_written(segment: &Segment<'_>, a: u32) -> bool
    ensures { result ≡ may_be_written a (segment_of segment.now) }
{
    let end = u64::from(segment.vaddr) + u64::from(segment.memsz);
    segment.kind == PT_LOAD && segment.flags & PF_W != 0 && segment.vaddr <= a && u64::from(a) < end
}

/// Whether some segment of a file is such a one.
pub fn may_be_written(core: &Image<'_>, a: u32) -> bool
    ensures { result ≡ list_any (may_be_written a) (segments_of core.now) }
{
    for i in 0..core.count() {
        if is_written(&core.segment(i), a) {
            return true;
        }
    }
    false
}
