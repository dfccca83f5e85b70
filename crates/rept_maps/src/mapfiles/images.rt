//! Images by the places of a list.

ghost use Rattle.std.specs.Prelude.{◌≡◌, length, map, IfOk};
ghost use Rattle.std.specs.Option.{option_and_then, option_map};
ghost use Rattle.rept_elf.specs.Image.{file_of};
ghost use Rattle.rept_maps.specs.FileMap.{map_count};
ghost use Rattle.rept_maps.specs.Views.{desc_of};
ghost use Rattle.rept_maps.specs.Mapfiles.Kept.{as_image, image_at, kept_in, names_of};

use crate::mapfiles::names::place_of;
use crate::{Images, Maps};
use rept_elf::{Image, Want};
use std::alloc::{AllocError, Global};

/// The image of the file that was kept at a place.
fn kept_image<'a>(kept: &'a [Option<Vec<u8>>], place: usize) -> Option<Image<'a>>
    ensures { option_map file_of result ≡ option_and_then as_image (kept_in (map (option_map (λ v. v.items)) kept.entry.now) place) }
{
    match kept.get(place) {
        Some(Some(bytes)) => match Image::read(bytes.as_slice(), Want::Shared) {
            Ok(image) => Some(image),
            Err(_) => None,
        },
        _ => None,
    }
}

/// The image of the file that was kept of a name.
fn image_of<'a>(name: &str, names: &[&str], kept: &'a [Option<Vec<u8>>]) -> Option<Image<'a>>
    ensures { option_map file_of result ≡ image_at (map (λ n. n.now) names.now) (map (option_map (λ v. v.items)) kept.entry.now) name.now }
{
    match place_of(name, names) {
        Some(place) => kept_image(kept, place),
        None => None,
    }
}

/// The images of the list's entries, by place: those of the files that were kept of these names.
/// Its only refusal is of memory.
pub fn images_of<'a>(
    alloc: Global,
    maps: &Maps<'_>,
    names: &[&str],
    kept: &'a [Option<Vec<u8>>],
) -> Result<Images<'a>, AllocError>
    ensures images { IfOk result (λ images. map (option_map file_of) images ≡ map (image_at (map (λ n. n.now) names.now) (map (option_map (λ v. v.items)) kept.entry.now)) (names_of (desc_of maps.now))) }
    ensures places { IfOk result (λ images. length images ≡ map_count (desc_of maps.now)) }
{
    let mut images = Images::new(alloc);
    let mut left = maps.names();
    while let Some(name) = left.next() {
        let image = image_of(name, names, kept);
        images.add(image)?;
    }
    Ok(images)
}
