//! Bytes that are held from point to point, on or back.

ghost use Rattle.std.specs.Prelude.{◌≡◌, ◌≢◌, ◌+◌, ◌-◌, ◌^◌, ◌<◌, ℕ, min, max, Some, IfOk, OnOk, IfSome};
ghost use Rattle.rept_narrow.specs.declared.lanes.held.Held.{Held};
ghost use Rattle.rept_narrow.specs.Lanes.{held_at, AreTrueSpans, IsTrueSweep, StaysAt, LetsGo};

use crate::lanes::held::{Held, HeldBytes};
use crate::lanes::span::ByteSpan;
use std::alloc::{AllocError as OutOfMemory, Global};
use std::marker::Model;

/// The bytes that are known at one point, and the spans of those that were known at earlier ones of
/// the sweep.
#[derive(Drop)]
pub struct Sweep {
    held: HeldBytes,
    spans: Vec<ByteSpan>,
    point: u32,
}

impl Model for Sweep {
    ghost use Rattle.rept_narrow.specs.Lanes.{SweepView};

    ghost Value = { SweepView };

    ghost view = { λ s. record { held = s.held; spans = s.spans.items; point = s.point } };
}

/// The span of a byte that is held at a point.
fn span_of(point: u32, address: u32, held: Held) -> ByteSpan
    ensures address { result.address ≡ address }
    ensures value { result.value ≡ held.value }
    ensures from { result.from ≡ min held.far point }
    ensures to { result.to ≡ max held.far point }
{
    ByteSpan {
        address,
        from: held.far.min(point),
        to: held.far.max(point),
        value: held.value,
    }
}

impl Sweep {
    /// Nothing is held at a point.
    pub fn new(alloc: Global, point: u32) -> Sweep
        ensures point { result.point ≡ point }
        ensures holds { (memory : ℕ → ℕ → ℕ) → IsTrueSweep memory result }
    {
        Sweep {
            held: HeldBytes::new(alloc),
            spans: Vec::new(alloc),
            point,
        }
    }

    /// The point.
    pub fn point(&self) -> u32
        ensures { result ≡ self.now.point }
    {
        self.point
    }

    /// The bytes that are held.
    pub fn held(&self) -> &HeldBytes
        ensures { result.now ≡ self.now.held }
    {
        &self.held
    }

    /// Holds a byte at the point, unless one is held at its address.
    pub fn note(&mut self, address: u32, value: u8) -> Result<(), OutOfMemory>
        ensures point { self.new.point ≡ self.old.point }
        ensures holds { OnOk result ((memory : ℕ → ℕ → ℕ) → memory self.old.point address ≡ value → IsTrueSweep memory self.old → IsTrueSweep memory self.new) }
    {
        if self.held.get(address).is_some() {
            return Ok(());
        }
        let far = self.point;
        self.held.put(address, Held { far, value })?;
        Ok(())
    }

    /// Lets go the byte at an address.
    pub fn let_go(&mut self, address: u32) -> Result<(), OutOfMemory>
        ensures point { self.new.point ≡ self.old.point }
        ensures holds { OnOk result ((memory : ℕ → ℕ → ℕ) → IsTrueSweep memory self.old → IsTrueSweep memory self.new) }
        ensures rest { (a : ℕ) (h : Held) → held_at self.new.held a ≡ Some h → (held_at self.old.held a ≡ Some h) × (a ≢ address) }
    {
        match self.held.take(address) {
            None => Ok(()),
            Some(held) => {
                let span = span_of(self.point, address, held);
                self.spans.push(span)?;
                Ok(())
            }
        }
    }

    /// Lets go the bytes at some addresses.
    pub fn let_all_go(&mut self, list: &[u32]) -> Result<(), OutOfMemory>
        ensures point { self.new.point ≡ self.old.point }
        ensures holds { OnOk result ((memory : ℕ → ℕ → ℕ) → IsTrueSweep memory self.old → IsTrueSweep memory self.new) }
        ensures rest { OnOk result (LetsGo self.old.held self.new.held list.now) }
    {
        for index in 0..list.len() {
            self.let_go(list[index])?;
        }
        Ok(())
    }

    /// Goes to the next point. What is held has to be the same there.
    pub fn go_on(&mut self)
        requires { self.old.point + 1 < 2 ^ 32 }
        ensures point { self.new.point ≡ self.old.point + 1 }
        ensures held { self.new.held ≡ self.old.held }
        ensures holds { (memory : ℕ → ℕ → ℕ) → StaysAt memory self.old (self.old.point + 1) → IsTrueSweep memory self.old → IsTrueSweep memory self.new }
    {
        self.point += 1;
    }

    /// Goes to the point before. What is held has to be the same there.
    pub fn go_back(&mut self)
        requires { 0 < self.old.point }
        ensures point { self.new.point + 1 ≡ self.old.point }
        ensures held { self.new.held ≡ self.old.held }
        ensures holds { (memory : ℕ → ℕ → ℕ) → StaysAt memory self.old (self.old.point - 1) → IsTrueSweep memory self.old → IsTrueSweep memory self.new }
    {
        self.point -= 1;
    }

    /// Ends the spans of all bytes that are held.
    fn end_all(&mut self) -> Result<(), OutOfMemory>
        ensures { OnOk result ((memory : ℕ → ℕ → ℕ) → IsTrueSweep memory self.old → IsTrueSweep memory self.new) }
    {
        for index in 0..self.held.len() {
            self.end(index)?;
        }
        Ok(())
    }

    /// Ends the span of one byte that is held, by number.
    fn end(&mut self, index: usize) -> Result<(), OutOfMemory>
        ensures { OnOk result ((memory : ℕ → ℕ → ℕ) → IsTrueSweep memory self.old → IsTrueSweep memory self.new) }
    {
        match self.held.entry(index) {
            None => Ok(()),
            Some((address, held)) => {
                let span = span_of(self.point, address, held);
                self.spans.push(span)?;
                Ok(())
            }
        }
    }

    /// The spans of all bytes that were held.
    pub fn spans(self) -> Result<Vec<ByteSpan>, OutOfMemory>
        ensures { IfOk result (λ v. (memory : ℕ → ℕ → ℕ) → IsTrueSweep memory self → AreTrueSpans memory v.items) }
    {
        let mut sweep = self;
        sweep.end_all()?;
        let Sweep { spans, .. } = sweep;
        Ok(spans)
    }
}
