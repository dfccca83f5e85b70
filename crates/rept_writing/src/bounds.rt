//! The bounds of the addresses that rows of many may write, for each block of these rows and for
//! all of them, and of those that calls may write.

ghost use Rattle.std.specs.Prelude.{◌≡◌, ◌<◌, ◌≤◌, ◌+◌, ◌*◌, ◌/◌, [], true, false, length};
ghost use Rattle.std.specs.List.{All};
ghost use Rattle.rept_alias.specs.Accesses.{hits, hits_part, call_hits};
ghost use Rattle.rept_writing.specs.Bounded.{AreBounded, AreInBounds, IsBlockWidened, IsWidened, lies_in, may_write};

use crate::list::Writing;
use rept_alias::{Access, CallAccess};

/// How many rows of many addresses that stand one after the other are a block.
const BLOCK: usize = 32;

/// Two addresses between which others lie, both included. Where the least is above the greatest
/// none lies there.
#[derive(Clone, Copy)]
pub struct StoreBounds {
    /// the least address
    pub least: u32,
    /// the greatest one
    pub most: u32,
}

impl StoreBounds {
    /// Between them lies none.
    pub fn none() -> StoreBounds {
        StoreBounds {
            least: u32::MAX,
            most: 0,
        }
    }

    /// Whether an address lies between them.
    pub fn has(&self, a: u32) -> bool
        ensures { result ≡ lies_in self.now a }
    {
        self.least <= a && a <= self.most
    }
}

/// How many blocks there are at most of so many rows.
pub fn blocks_of(rows: usize) -> usize
    ensures { result ≡ rows / 32 + 1 }
{
    rows / BLOCK + 1
}

/// Whether a row of a block may write an address, by the block's bounds.
fn may_write(blocks: &[StoreBounds], n: usize, a: u32) -> bool
    ensures { result ≡ may_write blocks.now n a }
{
    match blocks.get(n) {
        None => true,
        Some(bounds) => bounds.has(a),
    }
}

/// Whether the row at a place may write an address, by the bounds of its block.
pub fn block_has(blocks: &[StoreBounds], place: usize, a: u32) -> bool
    ensures { result ≡ may_write blocks.now (place / 32) a }
{
    may_write(blocks, place / BLOCK, a)
}

/// The first place of a place's block.
pub fn block_start(place: usize) -> usize
    ensures { result ≡ place / 32 * 32 }
{
    place / BLOCK * BLOCK
}

/// The place after the last one of a place's block, or the given end where this comes first.
pub fn block_end(place: usize, end: usize) -> usize
    requires { place < end }
    ensures after { place < result }
    ensures end { result ≤ end }
    ensures within { result ≤ place / 32 * 32 + 32 }
{
    let start = block_start(place);
    if end - start <= BLOCK {
        end
    } else {
        start + BLOCK
    }
}

/// Bounds within which the addresses of an access lie too.
fn with_access(bounds: StoreBounds, access: Access) -> StoreBounds
    ensures { IsWidened (hits access) bounds result }
{
    if access.all || access.hi < access.lo {
        StoreBounds {
            least: 0,
            most: u32::MAX,
        }
    } else {
        StoreBounds {
            least: bounds.least.min(access.lo),
            most: bounds.most.max(access.hi),
        }
    }
}

/// Bounds within which the addresses of a part lie too.
fn with_part(bounds: StoreBounds, part: Option<Access>) -> StoreBounds
    ensures { IsWidened (hits_part part) bounds result }
{
    match part {
        None => bounds,
        Some(access) => with_access(bounds, access),
    }
}

/// Bounds within which the addresses of both parts lie too.
pub fn with_row(bounds: StoreBounds, access: &CallAccess) -> StoreBounds
    ensures { IsWidened (call_hits access.now) bounds result }
{
    with_part(with_part(bounds, access.first), access.second)
}

/// Bounds within which the addresses of a row lie too, if it is a call.
pub fn with_call(bounds: StoreBounds, row: &Writing) -> StoreBounds
    ensures call { row.now.is_call ≡ true → IsWidened (call_hits row.now.access) bounds result }
    ensures other { row.now.is_call ≡ false → result ≡ bounds }
{
    let access = row.access;
    if row.is_call {
        with_row(bounds, &access)
    } else {
        bounds
    }
}

/// The bounds of what the rows at some places may write.
fn bounds_of(list: &[Writing], wide: &[usize], start: usize, end: usize) -> StoreBounds
    requires inside { All (λ j. j < length list.now) wide.now }
    requires end { end ≤ length wide.now }
    ensures { AreInBounds list.now wide.now (λ m. (start ≤ m) × (m < end)) result }
{
    let mut bounds = StoreBounds::none();
    for m in start..end {
        let access = list[wide[m]].access;
        bounds = with_row(bounds, &access);
    }
    bounds
}

/// The bounds of what all rows with these indices may write.
pub fn bounds_of_all(list: &[Writing], indices: &[usize]) -> StoreBounds
    requires { All (λ j. j < length list.now) indices.now }
    ensures { AreInBounds list.now indices.now (λ m. m < length indices.now) result }
{
    bounds_of(list, indices, 0, indices.len())
}

/// The bounds of the block before which there are so many others.
fn bounds_of_block(list: &[Writing], wide: &[usize], n: usize) -> StoreBounds
    requires inside { All (λ j. j < length list.now) wide.now }
    requires start { n * 32 ≤ length wide.now }
    ensures { AreInBounds list.now wide.now (λ m. (m < length wide.now) × (m / 32 ≡ n)) result }
{
    let start = n * BLOCK;
    let end = start + BLOCK.min(wide.len() - start);
    bounds_of(list, wide, start, end)
}

/// Keeps the bounds of so many blocks as there are and room is for, where none are kept yet. A
/// block without them is as one that may write each address.
pub fn bound_all(list: &[Writing], wide: &[usize], blocks: &mut Vec<StoreBounds>)
    requires inside { All (λ j. j < length list.now) wide.now }
    requires none { blocks.old.items ≡ [] }
    ensures { AreBounded list.now wide.now blocks.new.items }
{
    let count = blocks_of(wide.len()).min(blocks.capacity());
    for n in 0..count {
        let bounds = bounds_of_block(list, wide, n);
        blocks.push_reserved(bounds);
    }
}

/// Makes the bounds of the block of a place such that the addresses of a row lie within them too.
pub fn widen(blocks: &mut Vec<StoreBounds>, place: usize, access: &CallAccess)
    ensures { IsBlockWidened (call_hits access.now) (place / 32) blocks.old.items blocks.new.items }
{
    let n = place / BLOCK;
    if n < blocks.len() {
        blocks[n] = with_row(blocks[n], access);
    }
}
