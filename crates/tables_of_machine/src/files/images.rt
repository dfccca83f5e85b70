//! Images and their symbols.

use crate::files::{dumps, mapped, names};
use rept_elf::{Image, Want};
use std::alloc::{AllocError, Global};

pub fn answer(
    alloc: Global,
    asked: &str,
    at: u32,
    exe: &[u8],
    file: &[u8],
) -> Result<String, AllocError> {
    match asked {
        "exec" => image(alloc, file, Want::Exec),
        "core" => image(alloc, file, Want::Core),
        "shared" => image(alloc, file, Want::Shared),
        "segment" => segment(alloc, file),
        "symbol" => symbol(alloc, file, at),
        "maps" => mapped::maps(alloc, file),
        "entry" => mapped::entry(alloc, file, at),
        "names" => names::names(alloc, file),
        "mapped" => mapped::answer(alloc, exe, file, at),
        _ => dumps::answer(alloc, asked, at, exe, file),
    }
}

/// How many segments an image has, and its end; or its fault.
fn image(alloc: Global, file: &[u8], want: Want) -> Result<String, AllocError> {
    match Image::read(file, want) {
        Err(fault) => format!(in alloc; "{fault:?}"),
        Ok(image) => format!(in alloc; "{} to {:#x}", image.count(), image.image_end()),
    }
}

/// The first segment of a core file.
fn segment(alloc: Global, file: &[u8]) -> Result<String, AllocError> {
    match Image::read(file, Want::Core) {
        Ok(image) if 0 < image.count() => format!(in alloc; "{:?}", image.segment(0)),
        _ => String::from_str(alloc, "none"),
    }
}

/// The symbol of an address of an executable, and twice the same, looked for together.
fn symbol(alloc: Global, file: &[u8], a: u32) -> Result<String, AllocError> {
    match Image::read(file, Want::Exec) {
        Err(fault) => format!(in alloc; "{fault:?}"),
        Ok(image) => {
            let together = image.symbols(alloc, [a, a].as_slice())?;
            format!(in alloc; "{:?}; {:?}", image.symbol(a), together.as_slice())
        }
    }
}
