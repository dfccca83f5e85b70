//! Which names are loaded.

ghost use Rattle.std.specs.Prelude.{◌≡◌, map, IfOk};
ghost use Rattle.std.specs.List.{position};
ghost use Rattle.std.specs.Str.{bytes_eq};
ghost use Rattle.rept_maps.specs.Views.{desc_of};
ghost use Rattle.rept_maps.specs.Mapfiles.Kept.{asked_names as asked_of, place_in};

use crate::Maps;
use std::alloc::{AllocError, Global};

/// The most names that are loaded.
const MOST_NAMES: usize = 64;

/// The first of these that is this name.
fn position_of(name: &str, names: &[&str]) -> Option<usize>
    ensures { result ≡ position (λ n. bytes_eq n.now name.now) names.now }
{
    names.iter().position(|other| *other == name)
}

/// The place of a name among these.
pub(crate) fn place_of(name: &str, names: &[&str]) -> Option<usize>
    ensures { result ≡ place_in (map (λ n. n.now) names.now) name.now }
{
    position_of(name, names)
}

/// The names that are loaded: the first 64 of the list that differ, in table order. Its only
/// refusal is of memory.
pub fn asked_names<'a>(alloc: Global, maps: &Maps<'a>) -> Result<Vec<&'a str>, AllocError>
    ensures { IfOk result (λ names. map (λ n. n.now) names.items ≡ asked_of (desc_of maps.now)) }
{
    let mut names = maps.names();
    let mut asked = Vec::new(alloc);
    while let Some(name) = names.next() {
        if asked.len() == MOST_NAMES {
            return Ok(asked);
        }
        if place_of(name, asked.as_slice()).is_none() {
            asked.push(name)?;
        }
    }
    Ok(asked)
}
