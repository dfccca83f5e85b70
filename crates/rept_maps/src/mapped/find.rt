//! Where bytes stand in a file.

ghost use Rattle.std.specs.Prelude.{◌≡◌, ◌≤◌, ◌<◌, ◌+◌, ◌-◌, ◌^◌, length, IfSome, Some};
ghost use Rattle.std.specs.List.{find};
ghost use Rattle.std.specs.Option.{option_map};
ghost use Rattle.rept_elf.specs.Image.{file_of, segments_of, segment_of};
ghost use Rattle.rept_maps.specs.Mapped.Mapped.{bytes_there, has_all as has_all_of, has_some as has_some_of, offsets, only_with, spot_in, spot_of as spot_in_mapping};
ghost use Rattle.rept_maps.specs.Mapped.Views.{mapping_of, spot_of};

use rept_elf::{Image, PT_LOAD, Segment, after};

/// Numbers from one up to another, without that.
#[derive(Clone, Copy)]
pub struct NumberBounds {
    /// The first one.
    pub from: u64,
    /// The one after the last.
    pub to: u64,
}

/// A mapped part of a file.
#[derive(Clone, Copy)]
pub struct Mapping<'a> {
    /// Its first address.
    pub start: u32,
    /// The address after its last one.
    pub end: u32,
    /// Its offset in the file, in bytes.
    pub offset: u64,
    /// The file's image, where it is there.
    pub image: Option<Image<'a>>,
    /// Its index in the table.
    pub index: u32,
}

/// Where some bytes stand.
#[derive(Clone, Copy)]
pub struct BytesInFile<'a> {
    /// The image of their file.
    pub image: Image<'a>,
    /// Their segment.
    pub segment: Segment<'a>,
    /// Their place among the segment's bytes.
    pub place: u32,
}

/// Whether the bounds have some of so many numbers from one on.
pub fn has_some(bounds: NumberBounds, count: u64, a: u64) -> bool
    requires count { count ≤ 4 }
    requires small { a + count < 2 ^ 64 }
    ensures { result ≡ has_some_of count a bounds }
{
    bounds.from < bounds.to && bounds.from < a + count && a < bounds.to
}

/// Whether the bounds have all of them.
pub fn has_all(bounds: NumberBounds, count: u64, a: u64) -> bool
    requires count { count ≤ 4 }
    requires small { a + count < 2 ^ 64 }
    ensures { result ≡ has_all_of count a bounds }
{
    bounds.from <= a && a + count <= bounds.to
}

/// The offsets of the bytes that the file has of a segment, which is part of memory; no other
/// segment has any.
fn offsets(segment: &Segment<'_>) -> NumberBounds
    requires { length segment.now.body.now < 2 ^ 32 }
    ensures value { result ≡ offsets (segment_of segment.now) }
    ensures first { result.from ≡ segment.now.offset }
    ensures last { result.to ≤ segment.now.offset + length segment.now.body.now }
{
    let from = u64::from(segment.offset);
    let size = if segment.kind == PT_LOAD {
        segment.body.len() as u64
    } else {
        0
    };
    NumberBounds {
        from,
        to: from + size,
    }
}

/// The segment of an image that has so many bytes from an offset on: the first that has some of
/// them, where it has all.
fn segment_with<'a>(image: &Image<'a>, count: u64, offset: u64) -> Option<Segment<'a>>
    requires count { (0 < count) × (count ≤ 4) }
    requires small { offset + count < 2 ^ 64 }
    ensures segment { option_map segment_of result ≡ only_with offsets count offset (segments_of image.now) }
    ensures within { IfSome result (λ s. (s.offset ≤ offset) × (offset + count ≤ s.offset + length s.body.now)) }
    ensures few { IfSome result (λ s. length s.body.now < 2 ^ 32) }
{
    for i in 0..image.count() {
        let segment = image.segment(i);
        let bounds = offsets(&segment);
        if has_some(bounds, count, offset) {
            if has_all(bounds, count, offset) {
                return Some(segment);
            }
            return None;
        }
    }
    None
}

/// Where so many bytes of an image stand that begin at an offset of its file: in one segment.
fn spot_in<'a>(image: Image<'a>, count: u64, offset: u64) -> Option<BytesInFile<'a>>
    requires count { (0 < count) × (count ≤ 4) }
    requires small { offset + count < 2 ^ 64 }
    ensures spot { option_map spot_of result ≡ spot_in (file_of image.entry) count offset }
    ensures enough { IfSome result (λ p. p.place + count ≤ length p.segment.body.now) }
{
    let segment = segment_with(&image, count, offset)?;
    Some(BytesInFile {
        image,
        segment,
        place: (offset - u64::from(segment.offset)) as u32,
    })
}

/// Where so many bytes of a mapping stand that begin at an address of it.
pub fn spot_of_mapping<'a>(mapping: &Mapping<'a>, count: u64, a: u32) -> Option<BytesInFile<'a>>
    requires count { (0 < count) × (count ≤ 4) }
    requires within { (mapping.now.start ≤ a) × (a + count ≤ mapping.now.end) }
    requires small { mapping.now.offset + 2 ^ 32 < 2 ^ 64 }
    ensures spot { option_map spot_of result ≡ spot_in_mapping count a (mapping_of mapping.now) }
    ensures enough { IfSome result (λ p. p.place + count ≤ length p.segment.body.now) }
{
    let image = mapping.image?;
    let offset = mapping.offset + u64::from(a - mapping.start);
    spot_in(image, count, offset)
}

/// The bytes of a segment from a spot on.
pub fn bytes_at<'a>(spot: &BytesInFile<'a>) -> &'a [u8]
    ensures { result.now ≡ bytes_there (spot_of spot.now) }
{
    after(spot.segment.body, spot.place as usize)
}
