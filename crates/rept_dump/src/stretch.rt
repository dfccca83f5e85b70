//! Neighbouring addresses at which a search answers alike.

ghost use Rattle.std.specs.Prelude.{◌≡◌, ◌≤◌, ◌<◌, ◌+◌, ◌^◌, ◌&&◌, ℕ, length};
ghost use Rattle.rept_elf.specs.Image.{segments_of, segment_of};
ghost use Rattle.rept_dump.specs.Memory.{allows, holds};
ghost use Rattle.rept_dump.specs.Stretch.{AnswersAlike};

use crate::search::{Allowed, is_allowed};
use rept_elf::{Image, PT_LOAD, Segment};

/// Neighbouring addresses at which the same segment is found, or none.
#[derive(Clone, Copy)]
pub struct SegmentStretch<'a> {
    /// The first address.
    pub from: u64,
    /// The address after the last one.
    pub to: u64,
    /// The segment.
    pub segment: Option<Segment<'a>>,
}

/// A stretch without addresses.
pub const NOWHERE: SegmentStretch<'static> = SegmentStretch {
    from: 0,
    to: 0,
    segment: None,
};

/// The addresses from one up to another, without that.
#[derive(Clone, Copy)]
struct AddressBounds {
    from: u64,
    to: u64,
}

/// These addresses as far as this segment answers as at the given one.
fn narrow(
    bounds: AddressBounds,
    segment: &Segment<'_>,
    allowed: Allowed,
    a: u32,
    count: u64,
) -> AddressBounds
    requires within { (bounds.from ≤ a) × (a < bounds.to) }
    requires few { count ≤ 4 }
    requires size { length segment.now.body.now < 2 ^ 32 }
    ensures within { (result.from ≤ a) × (a < result.to) }
    ensures inside { (bounds.from ≤ result.from) × (result.to ≤ bounds.to) }
    ensures alike { (b : ℕ) → result.from ≤ b → b < result.to → allows allowed (segment_of segment.now) && holds b count (segment_of segment.now) ≡ allows allowed (segment_of segment.now) && holds a count (segment_of segment.now) }
{
    let at = u64::from(a);
    let start = u64::from(segment.vaddr);
    let end = start + segment.body.len() as u64;
    if !is_allowed(segment, allowed) || segment.kind != PT_LOAD {
        return bounds;
    }
    if at < start {
        return AddressBounds {
            from: bounds.from,
            to: bounds.to.min(start),
        };
    }
    if at + count > end {
        return AddressBounds {
            from: bounds.from.max((end + 1).saturating_sub(count)),
            to: bounds.to,
        };
    }
    AddressBounds {
        from: bounds.from.max(start),
        to: bounds.to.min(end + 1 - count),
    }
}

/// Whether a segment is allowed and part of memory, and its file has so many bytes from an address
/// on.
fn fits(segment: &Segment<'_>, allowed: Allowed, a: u32, count: u64) -> bool
    requires few { count ≤ 4 }
    requires size { length segment.now.body.now < 2 ^ 32 }
    ensures { result ≡ allows allowed (segment_of segment.now) && holds a count (segment_of segment.now) }
{
    let at = u64::from(a);
    let start = u64::from(segment.vaddr);
    let end = start + segment.body.len() as u64;
    is_allowed(segment, allowed) && segment.kind == PT_LOAD && at >= start && at + count <= end
}

/// The stretch of an address in a search for so many bytes: the old one where it has the address.
pub fn stretch_near<'a>(
    old: SegmentStretch<'a>,
    image: &Image<'a>,
    allowed: Allowed,
    a: u32,
    count: u64,
) -> SegmentStretch<'a>
    requires few { count ≤ 4 }
    requires answers { AnswersAlike (record { allowed = allowed; count = count; segments = segments_of image.now }) old }
    ensures within { (result.from ≤ a) × (a < result.to) }
    ensures alike { AnswersAlike (record { allowed = allowed; count = count; segments = segments_of image.now }) result }
{
    let at = u64::from(a);
    if old.from <= at && at < old.to {
        return old;
    }
    find_stretch(image, allowed, a, count)
}

/// The stretch of an address in a search for so many bytes.
fn find_stretch<'a>(image: &Image<'a>, allowed: Allowed, a: u32, count: u64) -> SegmentStretch<'a>
    requires few { count ≤ 4 }
    ensures within { (result.from ≤ a) × (a < result.to) }
    ensures alike { AnswersAlike (record { allowed = allowed; count = count; segments = segments_of image.now }) result }
{
    let mut bounds = AddressBounds {
        from: 0,
        to: 1 << 32,
    };
    for i in 0..image.count() {
        let segment = image.segment(i);
        bounds = narrow(bounds, &segment, allowed, a, count);
        if fits(&segment, allowed, a, count) {
            return SegmentStretch {
                from: bounds.from,
                to: bounds.to,
                segment: Some(segment),
            };
        }
    }
    SegmentStretch {
        from: bounds.from,
        to: bounds.to,
        segment: None,
    }
}
