//! Bytes of memory that are told.

ghost use Rattle.std.specs.Prelude.{ℕ, IfSome};

/// Some bytes at points of a path. `tells` relates them to points and addresses.
pub trait ToldBytes {
    ghost tells: { Self → ℕ → ℕ → ℕ → Type 0 };

    /// A byte that is told at a point and an address. None where none was found.
    fn byte(&self, point: u32, address: u32) -> Option<u8>
        ensures { IfSome result (λ v. tells self.now point address v) };
}
