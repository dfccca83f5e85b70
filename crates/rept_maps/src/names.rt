//! The names of mapped files, one after the other.

ghost use Rattle.std.specs.Prelude.{◌≡◌, ◌<◌, [], ◌∷◌, All, IsTrue, MatchOption, length, take};
ghost use Rattle.std.specs.Str.{is_utf8};
ghost use Rattle.rept_maps.specs.FileMap.{parts};

use crate::entry::{first_name, text_of};

/// The names of entries that are still to come, in table order.
#[derive(Clone, Copy)]
pub struct Names<'a> {
    pub(crate) rest: &'a [u8],
    pub(crate) left: u32,
    ghost enough: { left < length (parts rest.now) },
    ghost text: { All (λ name. IsTrue (is_utf8 name)) (take left (parts rest.now)) },
}

impl<'a> Names<'a> {
    ghost use Rattle.rept_maps.specs.NamesLeft.{names_left};

    /// The next name, if one is left.
    pub fn next(&mut self) -> Option<&'a str>
        ensures { MatchOption result ((names_left self.old ≡ []) × (names_left self.new ≡ [])) (λ name. names_left self.old ≡ name.now ∷ names_left self.new) }
    {
        if self.left == 0 {
            return None;
        }
        let named = first_name(self.rest)?;
        let name = text_of(named.name);
        self.rest = named.after;
        self.left -= 1;
        Some(name)
    }
}
