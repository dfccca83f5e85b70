//! A block of spans in a ring, so that it gives up a span at one end and takes one in at the other
//! without moving the rest.

ghost use Rattle.std.specs.Prelude.{◌≡◌, ◌+◌, ◌-◌, ◌<◌, ◌≤◌, ◌∷◌, ◌++◌, [], IfOk, length, take, set, insert, remove};
ghost use Rattle.rept_versions.specs.Line.{nth};

use crate::span::Span;
use std::alloc::{AllocError as OutOfMemory, Global};
use std::collections::VecDeque;
use std::marker::Model;

/// How many spans are in a full block.
pub const BLOCK: usize = 2048;

/// Up to 2048 spans, with the room for them.
#[derive(Drop)]
pub struct SpanBlock {
    ring: VecDeque<Span>,
}

impl Model for SpanBlock {
    ghost use Rattle.std.specs.Prelude.{List, ◌≤◌};
    ghost use Rattle.std.specs.VecDeque.{deque_len, deque_capacity};
    ghost use Rattle.rept_versions.specs.declared.span.Span.{Span};

    ghost Value = { List Span };

    ghost view = { λ b. b.ring.items };

    ghost invariant = { λ b. record { fits : deque_len b.ring ≤ 2048; room : 2048 ≤ deque_capacity b.ring } };
}

impl SpanBlock {
    /// An empty block.
    pub fn new(alloc: Global) -> Result<Self, OutOfMemory>
        ensures { IfOk result (λ b. b ≡ []) }
    {
        Ok(SpanBlock {
            ring: VecDeque::with_capacity(alloc, BLOCK)?,
        })
    }

    /// The span at an index.
    pub fn at(&self, r: usize) -> Span
        requires { r < length self.now }
        ensures span { result ≡ nth self.now r }
        ensures few { length self.now ≤ 2048 }
    {
        self.ring[r]
    }

    /// Puts another span in the place of one.
    pub fn put(&mut self, r: usize, s: Span)
        requires { r < length self.old }
        ensures { self.new ≡ set self.old r s }
    {
        self.ring[r] = s;
    }

    /// Takes in a span.
    pub fn insert(&mut self, r: usize, s: Span)
        requires at { r ≤ length self.old }
        requires room { length self.old < 2048 }
        ensures { self.new ≡ insert self.old r s }
    {
        match self.ring.insert(r, s) {
            Ok(()) => {}
            Err(_) => {}
        }
    }

    /// Gives up a span.
    pub fn remove(&mut self, r: usize)
        requires { r < length self.old }
        ensures removed { self.new ≡ remove self.old r }
        ensures len { length self.new + 1 ≡ length self.old }
    {
        let _gone = self.ring.remove(r);
    }

    /// Gives up the last span of a full block.
    fn pop(&mut self) -> Span
        requires full { length self.old ≡ 2048 }
        ensures last { result ≡ nth self.old 2047 }
        ensures rest { self.new ≡ take (length self.old - 1) self.old }
        ensures len { length self.new ≡ 2047 }
    {
        let last = self.ring[2047];
        let _last = self.ring.pop_back();
        last
    }

    /// Takes in a span and gives up the last one.
    pub fn push_through(&mut self, r: usize, s: Span) -> Span
        requires at { r < 2048 }
        requires full { length self.old ≡ 2048 }
        ensures last { result ≡ nth self.old 2047 }
        ensures moved { self.new ≡ insert (take (length self.old - 1) self.old) r s }
    {
        let last = self.pop();
        self.insert(r, s);
        last
    }

    /// Gives up a span and takes in another one as the last.
    pub fn pull_through(&mut self, r: usize, s: Span) -> Span
        requires { r < length self.old }
        ensures gone { result ≡ nth self.old r }
        ensures moved { self.new ≡ remove self.old r ++ s ∷ [] }
    {
        let gone = self.at(r);
        self.remove(r);
        self.append(s);
        gone
    }

    /// Takes in a span as the last.
    fn append(&mut self, s: Span)
        requires { length self.old < 2048 }
        ensures { self.new ≡ self.old ++ s ∷ [] }
    {
        match self.ring.push_back(s) {
            Ok(()) => {}
            Err(_) => {}
        }
    }
}
