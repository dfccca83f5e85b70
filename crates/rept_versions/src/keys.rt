//! A point of an address as one number, so that the points of an address stand side by side and
//! addresses don't meet in between.

ghost use Rattle.std.specs.Prelude.{◌≡◌, ◌+◌, ◌<◌, ◌≤◌};
ghost use Rattle.rept_versions.specs.OnLine.{key};

/// The number of a point of an address.
pub fn key(point: u32, a: u32) -> u64
    ensures { result ≡ key point a }
{
    a as u64 * 4294967296 + point as u64
}

/// The point of an address that has a number.
pub fn point_of(k: u64, a: u32) -> u32
    requires above { key 0 a ≤ k }
    requires below { k < key 0 a + 4294967296 }
    ensures { key result a ≡ k }
{
    (k - a as u64 * 4294967296) as u32
}
