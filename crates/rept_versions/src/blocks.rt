//! A row of spans in blocks, in which a span is put in or taken out without moving all those that
//! follow.

ghost use Rattle.std.specs.Prelude.{◌≡◌, ℕ, suc, ◌+◌, ◌*◌, ◌<◌, ◌≤◌, [], IfOk, length, set, insert, remove};
ghost use Rattle.rept_versions.specs.Line.{nth};
ghost use Rattle.rept_versions.specs.Blocks.{AreEmptyBlocks};

use crate::block::{BLOCK, SpanBlock};
use crate::span::Span;
use std::alloc::{AllocError as OutOfMemory, Global};
use std::marker::Model;

/// Spans, with room for more. Each block is full, up to one after which all are empty.
#[derive(Drop)]
pub struct Blocks {
    blocks: Vec<SpanBlock>,
    len: usize,
    room: usize,
}

impl Model for Blocks {
    ghost use Rattle.std.specs.Prelude.{◌≡◌, ◌*◌, ◌≤◌, length};
    ghost use Rattle.rept_versions.specs.Line.{Line};
    ghost use Rattle.rept_versions.specs.Blocks.{flat, IsPacked};

    ghost Value = { Line };

    ghost view = { λ s. record { spans = flat s.blocks.items; room = s.room } };

    ghost invariant = { λ s. record { packed : IsPacked s.blocks.items; len : s.len ≡ length (flat s.blocks.items); fits : s.len ≤ s.room; room : s.room ≤ length s.blocks.items * 2048 } };
}

/// Empty blocks.
fn empty_blocks(alloc: Global, count: usize) -> Result<Vec<SpanBlock>, OutOfMemory>
    ensures { IfOk result (λ blocks. AreEmptyBlocks blocks.items count) }
{
    let mut blocks = Vec::with_capacity(alloc, count)?;
    for _ in 0..count {
        blocks.push(SpanBlock::new(alloc)?)?;
    }
    Ok(blocks)
}

impl Blocks {
    /// No span, with room for so many.
    pub fn new(alloc: Global, room: usize) -> Result<Self, OutOfMemory>
        ensures { IfOk result (λ s. s ≡ record { spans = []; room = room }) }
    {
        let blocks = empty_blocks(alloc, room / BLOCK + 1)?;
        Ok(Blocks {
            blocks,
            len: 0,
            room,
        })
    }

    /// How many spans there are.
    pub fn len(&self) -> usize
        ensures len { result ≡ length self.now.spans }
        ensures fits { length self.now.spans ≤ self.now.room }
    {
        self.len
    }

    /// How many spans there is room for.
    pub fn room(&self) -> usize
        ensures { result ≡ self.now.room }
    {
        self.room
    }

    /// The span at an index.
    pub fn at(&self, i: usize) -> Span
        requires { i < length self.now.spans }
        ensures { result ≡ nth self.now.spans i }
    {
        self.blocks[i / BLOCK].at(i % BLOCK)
    }

    /// The span after the one at an index.
    pub fn after(&self, i: usize) -> Span
        requires { suc i < length self.now.spans }
        ensures { result ≡ nth self.now.spans (suc i) }
    {
        let is_there = i < self.len;
        prove!(is_there);
        self.at(i + 1)
    }

    /// Puts another span in the place of one.
    pub fn put(&mut self, i: usize, s: Span)
        requires { i < length self.old.spans }
        ensures spans { self.new.spans ≡ set self.old.spans i s }
        ensures room { self.new.room ≡ self.old.room }
    {
        self.blocks[i / BLOCK].put(i % BLOCK, s);
    }

    /// Takes a span into the last block that has any, or into the one after it.
    fn insert_last(&mut self, k: usize, r: usize, s: Span)
        requires at { k * 2048 + r ≤ length self.old.spans }
        requires last { length self.old.spans < suc k * 2048 }
        requires room { length self.old.spans < self.old.room }
        ensures spans { self.new.spans ≡ insert self.old.spans (k * 2048 + r) s }
        ensures room { self.new.room ≡ self.old.room }
    {
        self.blocks[k].insert(r, s);
        self.len += 1;
    }

    /// Takes a span into a full block, and gives up the last one of it.
    fn push_through(&mut self, k: usize, r: usize, s: Span) -> Span
        requires at { r < 2048 }
        requires full { suc k * 2048 ≤ length self.old.spans }
        ensures spans { insert self.new.spans (suc k * 2048) result ≡ insert self.old.spans (k * 2048 + r) s }
        ensures len { length self.new.spans ≡ length self.old.spans }
        ensures room { self.new.room ≡ self.old.room }
    {
        self.blocks[k].push_through(r, s)
    }

    /// Takes a span out of the last block that has any.
    fn remove_last(&mut self, k: usize, r: usize)
        requires at { k * 2048 + r < length self.old.spans }
        requires last { length self.old.spans ≤ suc k * 2048 }
        ensures spans { self.new.spans ≡ remove self.old.spans (k * 2048 + r) }
        ensures room { self.new.room ≡ self.old.room }
    {
        self.blocks[k].remove(r);
        self.len -= 1;
    }

    /// Takes a span out of a full block, and another one in as the last.
    fn pull_through(&mut self, k: usize, r: usize, s: Span) -> Span
        requires at { r < 2048 }
        requires full { suc k * 2048 ≤ length self.old.spans }
        ensures spans { insert self.new.spans (k * 2048 + r) result ≡ insert self.old.spans (suc k * 2048) s }
        ensures len { length self.new.spans ≡ length self.old.spans }
        ensures room { self.new.room ≡ self.old.room }
    {
        self.blocks[k].pull_through(r, s)
    }

    /// Takes in a span at an index.
    pub fn insert(&mut self, i: usize, s: Span)
        requires at { i ≤ length self.old.spans }
        requires room { length self.old.spans < self.old.room }
        ensures spans { self.new.spans ≡ insert self.old.spans i s }
        ensures room { self.new.room ≡ self.old.room }
    {
        let last = self.len / BLOCK;
        let mut k = i / BLOCK;
        let mut r = i % BLOCK;
        let mut moved = s;
        while k < last {
            moved = self.push_through(k, r, moved);
            k += 1;
            r = 0;
        }
        self.insert_last(k, r, moved);
    }

    /// Takes out the span at an index.
    pub fn remove(&mut self, i: usize)
        requires { i < length self.old.spans }
        ensures spans { self.new.spans ≡ remove self.old.spans i }
        ensures room { self.new.room ≡ self.old.room }
    {
        let last = (self.len - 1) / BLOCK;
        let j = i / BLOCK;
        if j == last {
            self.remove_last(j, i % BLOCK);
            return;
        }
        let mut k = last;
        let mut moved = self.at(k * BLOCK);
        self.remove_last(k, 0);
        while j + 1 < k {
            k -= 1;
            moved = self.pull_through(k, 0, moved);
        }
        let _gone = self.pull_through(j, i % BLOCK, moved);
    }
    /// Takes out the span after the one at an index.
    pub fn remove_after(&mut self, i: usize)
        requires { suc i < length self.old.spans }
        ensures spans { self.new.spans ≡ remove self.old.spans (suc i) }
        ensures room { self.new.room ≡ self.old.room }
    {
        let is_there = i < self.len;
        prove!(is_there);
        self.remove(i + 1);
    }
}
