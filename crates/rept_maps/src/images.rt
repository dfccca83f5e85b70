//! Images of mapped files, by place.

ghost use Rattle.std.specs.Prelude.{◌≡◌, ◌<◌, ◌++◌, [], ◌∷◌, length, is_ok, if◌then◌else◌, slice_get, Some};

use rept_elf::Image;
use std::alloc::{AllocError, Global};
use std::marker::Model;

/// A list of places, at most 4,096, each with an image or without. Contracts see the list.
#[derive(Drop)]
pub struct Images<'a> {
    places: Vec<Option<Image<'a>>>,
}

impl<'a> Model for Images<'a> {
    ghost use Rattle.std.specs.Prelude.{List, Option};
    ghost use Rattle.rept_elf.specs.declared.image.Image.{Image};

    ghost Value = { List (Option Image) };

    ghost view = { λ s. s.places.items };
}

impl<'a> Images<'a> {
    /// No place.
    pub fn new(alloc: Global) -> Images<'a>
        ensures { result ≡ [] }
    {
        Images {
            places: Vec::new(alloc),
        }
    }

    /// Appends a place. Its only refusal is of memory, and changes nothing.
    pub fn add(&mut self, image: Option<Image<'a>>) -> Result<(), AllocError>
        requires { length self.old < 4096 }
        ensures { self.new ≡ (if is_ok result then self.old ++ image.entry ∷ [] else self.old) }
    {
        match self.places.push(image) {
            Ok(()) => Ok(()),
            Err(_) => Err(AllocError),
        }
    }

    /// The image of this place, if it has one.
    pub fn image(&self, i: u32) -> Option<Image<'a>>
        requires { i < length self.now }
        ensures { slice_get self.now i ≡ Some result }
    {
        self.places[i as usize]
    }
}
