//! Names of a list of mapped files, and what is kept of the files that have them.

use crate::files::mapped::list_of;
use rept_maps::{asked_names, load_names, load_within};
use rept_ports::InfallibleFileStore;
use std::alloc::{AllocError, Global};

/// The names of files in memory.
const NAMES: [&str; 3] = ["a", "b", "c"];

/// The names of a list, each once.
pub fn names(alloc: Global, core: &[u8]) -> Result<String, AllocError> {
    match list_of(core) {
        Some(Ok(maps)) => {
            let asked = asked_names(alloc, &maps)?;
            format!(in alloc; "{:?}", asked.as_slice())
        }
        _ => String::from_str(alloc, "none"),
    }
}

/// How many bytes are kept of the file of each name, with room for so many in all.
pub fn kept(
    alloc: Global,
    file_store: &mut InfallibleFileStore,
    room: Option<u32>,
) -> Result<String, AllocError> {
    let loaded = match room {
        None => load_names(alloc, file_store, NAMES.as_slice()),
        Some(room) => load_within(alloc, file_store, NAMES.as_slice(), room as usize),
    };
    match loaded {
        Err(stop) => format!(in alloc; "{stop:?}"),
        Ok(files) => {
            let files = files.as_slice();
            format!(in alloc; "{:?}", [size(files, 0), size(files, 1), size(files, 2)])
        }
    }
}

fn size(files: &[Option<Vec<u8>>], k: usize) -> Option<usize> {
    match files.get(k) {
        Some(Some(bytes)) => Some(bytes.len()),
        _ => None,
    }
}
