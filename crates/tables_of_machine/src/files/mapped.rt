//! Lists of mapped files, and lookups in one file that is mapped in overlapping parts.

ghost use Rattle.std.specs.Prelude.{◌≡◌, ◌<◌, ◌+◌, length, IfOk, OnOk};

use rept_elf::{Image, Want};
use rept_maps::{Images, Mapped, Maps};
use std::alloc::{AllocError, Global};

/// The list of a core file.
pub fn list_of(core: &[u8]) -> Option<Result<Maps<'_>, rept_maps::MapFault>> {
    match Image::read(core, Want::Core) {
        Err(_) => None,
        Ok(core) => Some(Maps::read(core)),
    }
}

/// How many entries a list has, or its fault.
pub fn maps(alloc: Global, core: &[u8]) -> Result<String, AllocError> {
    match list_of(core) {
        None => String::from_str(alloc, "no core file"),
        Some(Err(fault)) => format!(in alloc; "{fault:?}"),
        Some(Ok(maps)) => format!(in alloc; "{}", maps.count()),
    }
}

/// An entry of a list.
pub fn entry(alloc: Global, core: &[u8], k: u32) -> Result<String, AllocError> {
    match list_of(core) {
        Some(Ok(maps)) if k < maps.count() => {
            let entry = maps.entry(k);
            format!(in alloc;
                "{:#x} to {:#x} at {:#x} of {:?}",
                entry.start, entry.end, entry.offset, entry.name
            )
        }
        _ => String::from_str(alloc, "none"),
    }
}

fn add_image<'a>(images: &mut Images<'a>, image: Option<Image<'a>>) -> Result<(), AllocError>
    requires { length images.old < 4096 }
    ensures { OnOk result (length images.new ≡ length images.old + 1) }
{
    images.add(image)?;
    Ok(())
}

/// The file in four places, of which the third is none.
fn images_of(alloc: Global, file: &[u8]) -> Result<Images<'_>, AllocError>
    ensures { IfOk result (λ images. length images ≡ 4) }
{
    let image = match Image::read(file, Want::Shared) {
        Ok(image) => Some(image),
        Err(_) => None,
    };
    let mut images = Images::new(alloc);
    add_image(&mut images, image)?;
    add_image(&mut images, image)?;
    add_image(&mut images, None)?;
    add_image(&mut images, image)?;
    Ok(images)
}

/// The sizes of the files in the second and the third place, and the word, the half, the byte and
/// the function at an address where the list of the core file has four entries, of the file.
pub fn answer(alloc: Global, file: &[u8], core: &[u8], a: u32) -> Result<String, AllocError> {
    let images = images_of(alloc, file)?;
    let sizes = (size(&images, 1), size(&images, 2));
    let found = looked_up(alloc, core, &images, a)?;
    format!(in alloc; "{sizes:?} {found}")
}

fn looked_up(alloc: Global, core: &[u8], images: &Images<'_>, a: u32) -> Result<String, AllocError>
    requires { length images.now ≡ 4 }
{
    match list_of(core) {
        Some(Ok(maps)) if maps.count() == 4 => told(alloc, &Mapped::new(maps, images), a),
        _ => String::from_str(alloc, "none"),
    }
}

fn told(alloc: Global, mapped: &Mapped<'_>, a: u32) -> Result<String, AllocError> {
    let (word, half, byte) = (mapped.word(a), mapped.half(a), mapped.byte(a));
    let together = mapped.symbols(alloc, [a, a].as_slice())?;
    let symbol = mapped.symbol(a);
    format!(in alloc;
        "{word:?} {half:?} {byte:?} {symbol:?}; {:?}",
        together.as_slice()
    )
}

fn size(images: &Images<'_>, k: u32) -> Option<usize>
    requires { k < length images.now }
{
    match images.image(k) {
        None => None,
        Some(image) => Some(image.file_size()),
    }
}
