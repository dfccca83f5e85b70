//! Sets of addresses.

ghost use Rattle.std.specs.Prelude.{◌≡◌};
ghost use Rattle.rept_alias.specs.Accesses.{hits, hits_part, call_hits};

/// The addresses that an access may touch: all, or those from `lo` up to `hi`, both included. From
/// `lo` one counts upwards modulo 2^32, so `hi` may be below `lo`: then the addresses go on past
/// the end of the address space at 0.
#[derive(Clone, Copy, PartialEq, Eq, Debug)]
pub struct Access {
    /// every address; `lo` and `hi` say nothing then
    pub all: bool,
    /// the first address
    pub lo: u32,
    /// the last address
    pub hi: u32,
}

impl Access {
    /// Whether the address is one of them.
    pub fn may_hit(&self, a: u32) -> bool
        ensures { result ≡ hits self.now a }
    {
        self.all || a.wrapping_sub(self.lo) <= self.hi.wrapping_sub(self.lo)
    }
}

/// The addresses that a step may write: up to two accesses, as a system call has. Without one,
/// none.
#[derive(Clone, Copy, PartialEq, Eq, Debug)]
pub struct CallAccess {
    /// one part of them
    pub first: Option<Access>,
    /// the other part
    pub second: Option<Access>,
}

impl CallAccess {
    /// Whether the address is in one of the parts.
    pub fn may_hit(&self, a: u32) -> bool
        ensures { result ≡ call_hits self.now a }
    {
        hits_one(self.first, a) || hits_one(self.second, a)
    }
}

/// Whether there is an access with this address.
fn hits_one(access: Option<Access>, a: u32) -> bool
    ensures { result ≡ hits_part access a }
{
    match access {
        None => false,
        Some(part) => part.may_hit(a),
    }
}
