//! Which value of one byte goes with which of another one.

ghost use Rattle.std.specs.Prelude.{◌≡◌, ℕ, Option, None, Some, true, slice_index_or};
ghost use Rattle.rept_propagate.specs.Pairs.{GoWith};

/// Of each value of a byte, the value of another byte that was seen beside it, if one was.
#[derive(Drop)]
pub struct Pairs {
    list: [Option<u8>; 256],
}

impl Pairs {
    /// None was seen yet.
    pub fn new() -> Pairs {
        Pairs { list: [None; 256] }
    }

    /// Whether a value of the other byte goes with one of the first, as far as was seen: where none
    /// was seen beside it yet, this one is from now on.
    fn goes_with(&mut self, value: u8, other: u8) -> bool
        ensures kept { (v w : ℕ) → slice_index_or self.old.list v None ≡ Some w → slice_index_or self.new.list v None ≡ Some w }
        ensures yes { result ≡ true → slice_index_or self.new.list value None ≡ Some other }
    {
        match self.list[value as usize] {
            None => {
                self.list[value as usize] = Some(other);
                true
            }
            Some(seen) => seen == other,
        }
    }

    /// Whether what is known of the other byte goes with what is known of the first: nothing with
    /// nothing, and a value with a value.
    pub fn fits(&mut self, first: Option<u8>, other: Option<u8>) -> bool
        ensures kept { (x y : Option ℕ) → GoWith self.old x y → GoWith self.new x y }
        ensures yes { result ≡ true → GoWith self.new first other }
    {
        match first {
            None => other.is_none(),
            Some(value) => match other {
                None => false,
                Some(second) => self.goes_with(value, second),
            },
        }
    }
}
