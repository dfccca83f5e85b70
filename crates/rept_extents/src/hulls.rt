//! Bounds of numbers, from which it is found fast how far those of numbers one after the other lie
//! within others.

ghost use Rattle.std.specs.Prelude.{◌≡◌, ◌≤◌, ◌<◌, ◌+◌, ◌*◌, ◌/◌, ◌^◌, true, [], None, length, slice_index_or, IfOk};
ghost use Rattle.rept_extents.specs.declared.hulls.Bounds.{Bounds};
ghost use Rattle.rept_extents.specs.Hulls.{LiesIn, LieIn, AreBlocks, AreLevels};

use std::alloc::{AllocError as OutOfMemory, Global};
use std::marker::Model;

/// How many blocks of a level make one of the next level.
const FACTOR: u32 = 4;

/// Bounds of numbers.
#[derive(Clone, Copy)]
pub struct Bounds {
    /// The least number.
    pub least: u32,
    /// The greatest number.
    pub most: u32,
}

/// The bounds of the numbers of each block of a level, where each of them has some. Contracts see a
/// list.
#[derive(Drop)]
struct Level {
    hulls: Vec<Option<Bounds>>,
}

impl Model for Level {
    ghost use Rattle.std.specs.Prelude.{List, Option};
    ghost use Rattle.rept_extents.specs.declared.hulls.Bounds.{Bounds};

    ghost Value = { List (Option Bounds) };

    ghost view = { λ l. l.hulls.items };
}

impl Level {
    /// Whether a block has bounds that lie within others.
    fn has(&self, index: u32, outer: Bounds) -> bool
        ensures { result ≡ true → LiesIn (slice_index_or self.now index None) outer }
    {
        match self.hulls.get(index as usize) {
            Some(hull) => lies_in(*hull, outer),
            None => false,
        }
    }
}

/// The bounds of each number, if it has some, of each four of them one after the other, of each
/// four such blocks, and so on: a list of levels. Contracts see the list of the numbers.
#[derive(Drop)]
pub struct BoundsTree {
    levels: Vec<Level>,
}

impl Model for BoundsTree {
    ghost use Rattle.std.specs.Prelude.{List, [], Option, slice_index_or};
    ghost use Rattle.rept_extents.specs.declared.hulls.Bounds.{Bounds};
    ghost use Rattle.rept_extents.specs.Hulls.{AreLevels};

    ghost Value = { List (Option Bounds) };

    ghost view = { λ h. slice_index_or h.levels.items 0 [] };

    ghost invariant = { λ h. AreLevels h.levels.items (slice_index_or h.levels.items 0 []) };
}

/// A block of a level.
#[derive(Clone, Copy)]
struct TreeBlock {
    /// At level 0 a block is a single number.
    level: usize,
    /// How many blocks of its level come before it.
    index: u32,
    /// Its first number.
    from: u32,
    /// How many numbers it has.
    size: u32,
    ghost some: { 0 < size },
    ghost sized: { size ≡ 4 ^ level },
    ghost begins: { from ≡ index * size },
}

impl TreeBlock {
    /// That of one number.
    fn of(number: u32) -> TreeBlock
        ensures level { result.level ≡ 0 }
        ensures from { result.from ≡ number }
    {
        TreeBlock {
            level: 0,
            index: number,
            from: number,
            size: 1,
        }
    }

    /// The next one of its level.
    fn after(self) -> TreeBlock
        requires { self.from + self.size < 2 ^ 32 }
        ensures level { result.level ≡ self.level }
        ensures from { result.from ≡ self.from + self.size }
    {
        TreeBlock {
            level: self.level,
            index: self.index + 1,
            from: self.from + self.size,
            size: self.size,
        }
    }

    /// The one before it of its level.
    fn before(self) -> TreeBlock
        requires { self.size ≤ self.from }
        ensures level { result.level ≡ self.level }
        ensures size { result.size ≡ self.size }
        ensures from { result.from + self.size ≡ self.from }
    {
        TreeBlock {
            level: self.level,
            index: self.index - 1,
            from: self.from - self.size,
            size: self.size,
        }
    }

    /// The one of the next level that begins at the same number, where there is one and it has no
    /// more numbers than there is room for; else this one.
    fn wider(self, room: u32) -> TreeBlock
        ensures level { result.level ≤ self.level + 1 }
        ensures from { result.from ≡ self.from }
    {
        if self.index % FACTOR != 0 || self.size > room / FACTOR {
            return self;
        }
        TreeBlock {
            level: self.level + 1,
            index: self.index / FACTOR,
            from: self.from,
            size: self.size * FACTOR,
        }
    }

    /// The one of the level below that begins at the same number.
    fn narrower(self) -> TreeBlock
        requires { 0 < self.level }
        ensures level { result.level + 1 ≡ self.level }
        ensures from { result.from ≡ self.from }
    {
        TreeBlock {
            level: self.level - 1,
            index: self.index * FACTOR,
            from: self.from,
            size: self.size / FACTOR,
        }
    }
}

/// Bounds of both, where both have some.
fn both(first: Option<Bounds>, second: Option<Bounds>) -> Option<Bounds>
    ensures first { (outer : Bounds) → LiesIn result outer → LiesIn first outer }
    ensures second { (outer : Bounds) → LiesIn result outer → LiesIn second outer }
{
    let Some(first) = first else {
        return None;
    };
    let Some(second) = second else {
        return None;
    };
    Some(Bounds {
        least: first.least.min(second.least),
        most: first.most.max(second.most),
    })
}

/// Whether there are bounds, and they lie within others.
fn lies_in(inner: Option<Bounds>, outer: Bounds) -> bool
    ensures { result ≡ true → LiesIn inner outer }
{
    match inner {
        None => false,
        Some(inner) => outer.least <= inner.least && inner.most <= outer.most,
    }
}

/// The bounds of four numbers one after the other, where each has some.
fn block_of(list: &[Option<Bounds>], from: usize) -> Option<Bounds>
    requires { from + 4 ≤ length list.now }
    ensures { (outer : Bounds) → LiesIn result outer → LieIn list.now (record { from = from; to = from + 4; outer = outer }) }
{
    let mut hull = list[from];
    for number in from + 1..from + 4 {
        hull = both(hull, list[number]);
    }
    hull
}

/// Those of each four of them.
fn blocks_of(alloc: Global, list: &[Option<Bounds>]) -> Result<Vec<Option<Bounds>>, OutOfMemory>
    ensures count { IfOk result (λ v. length v.items ≡ length list.now / 4) }
    ensures blocks { IfOk result (λ v. AreBlocks 4 v.items list.now) }
{
    let mut blocks = Vec::new(alloc);
    for number in 0..list.len() / 4 {
        blocks.push(block_of(list, number * 4))?;
    }
    Ok(blocks)
}

/// The levels of a list, of which the list is the first.
fn levels_of(alloc: Global, list: Vec<Option<Bounds>>) -> Result<Vec<Level>, OutOfMemory>
    ensures list { IfOk result (λ v. slice_index_or v.items 0 [] ≡ list.items) }
    ensures levels { IfOk result (λ v. AreLevels v.items list.items) }
{
    let mut levels = Vec::new(alloc);
    let mut hulls = list;
    while hulls.len() >= 4 {
        let next = blocks_of(alloc, &hulls)?;
        levels.push(Level { hulls })?;
        hulls = next;
    }
    levels.push(Level { hulls })?;
    Ok(levels)
}

impl BoundsTree {
    /// Those of a list. It takes memory for a third as many entries again.
    pub fn new(alloc: Global, list: Vec<Option<Bounds>>) -> Result<BoundsTree, OutOfMemory>
        ensures { IfOk result (λ h. h ≡ list.items) }
    {
        let levels = levels_of(alloc, list)?;
        Ok(BoundsTree { levels })
    }

    /// Whether all numbers of a block have bounds that lie within others.
    fn has(&self, block: TreeBlock, outer: Bounds) -> bool
        ensures { result ≡ true → LieIn self.now (record { from = block.from; to = block.from + block.size; outer = outer }) }
    {
        match self.levels.get(block.level) {
            Some(level) => level.has(block.index, outer),
            None => false,
        }
    }

    /// A number, from one on and up to another one, before which all from the one on have bounds
    /// that lie within others. It goes over blocks that grow by a level wherever they may, and once
    /// a block's bounds don't lie within the others over those of the levels below.
    pub fn up_to(&self, from: u32, to: u32, outer: Bounds) -> u32
        requires { from ≤ to }
        ensures from { from ≤ result }
        ensures to { result ≤ to }
        ensures all { LieIn self.now (record { from = from; to = result; outer = outer }) }
    {
        let mut block = TreeBlock::of(from);
        while block.from < to {
            if block.size <= to - block.from && self.has(block, outer) {
                block = block.after();
                block = block.wider(to - block.from);
            } else if block.level > 0 {
                block = block.narrower();
            } else {
                return block.from;
            }
        }
        block.from
    }

    /// A number, from one on and up to another one, from which on all before the other one have
    /// bounds that lie within others. It goes over blocks likewise.
    pub fn down_to(&self, from: u32, to: u32, outer: Bounds) -> u32
        requires { from ≤ to }
        ensures from { from ≤ result }
        ensures to { result ≤ to }
        ensures all { LieIn self.now (record { from = result; to = to; outer = outer }) }
    {
        let mut block = TreeBlock::of(to);
        while block.from > from {
            if block.size <= block.from - from && self.has(block.before(), outer) {
                block = block.before();
                block = block.wider(block.from - from);
            } else if block.level > 0 {
                block = block.narrower();
            } else {
                return block.from;
            }
        }
        block.from
    }
}
