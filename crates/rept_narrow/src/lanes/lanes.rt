//! Spans of all addresses, for look-up.

ghost use Rattle.std.specs.Prelude.{◌≡◌, suc, ◌-◌, ◌<◌, ◌≤◌, ℕ, length, Some, Option, IfOk, slice_get};
ghost use Rattle.std.specs.List.Sorted.{IsPermutation};
ghost use Rattle.rept_narrow.specs.Lanes.{AreTrueSpans, IsLaneTrue, lies_before, sought, value_in, lane_byte};

use crate::lanes::span::ByteSpan;
use std::alloc::{AllocError as OutOfMemory, Global};
use std::marker::Model;

/// Spans by address and point.
#[derive(Drop)]
pub struct Lanes {
    spans: Vec<ByteSpan>,
}

impl Model for Lanes {
    ghost use Rattle.std.specs.Prelude.{List};
    ghost use Rattle.rept_narrow.specs.declared.lanes.span.ByteSpan.{ByteSpan};

    ghost Value = { List ByteSpan };

    ghost view = { λ l. l.spans.items };
}

/// The place of a span in the order of addresses and points.
fn order_of(span: &ByteSpan) -> u64 {
    u64::from(span.address) * 4294967296 + u64::from(span.to)
}

/// Puts spans into the order of addresses and points.
fn sort(spans: &mut Vec<ByteSpan>) -> Result<(), OutOfMemory>
    ensures same { IsPermutation spans.old.items spans.new.items }
{
    spans.sort_by_key(|span| order_of(span))?;
    Ok(())
}

/// Whether the span at an index lies before a point of an address.
fn lies_before(spans: &[ByteSpan], index: usize, point: u32, address: u32) -> bool
    ensures { result ≡ lies_before (slice_get spans.now index) point address }
{
    match spans.get(index) {
        None => false,
        Some(span) => { span.address < address || (span.address == address && span.to < point) }
    }
}

/// The half of some places that has the first span that doesn't lie before a point of an address.
fn half(spans: &[ByteSpan], point: u32, address: u32, ends: (usize, usize)) -> (usize, usize)
    requires some { ends.0 < ends.1 }
    requires inside { ends.1 ≤ length spans.now }
    ensures inside { result.1 ≤ length spans.now }
    ensures same { (n : ℕ) → sought spans.now point address (suc n) ends.0 ends.1 ≡ sought spans.now point address n result.0 result.1 }
{
    let middle = ends.0 + (ends.1 - ends.0) / 2;
    if lies_before(spans, middle, point, address) {
        (middle + 1, ends.1)
    } else {
        (ends.0, middle)
    }
}

/// Where the first span is that doesn't lie before a point of an address.
fn sought(spans: &[ByteSpan], point: u32, address: u32) -> usize
    ensures { result ≡ sought spans.now point address (length spans.now) 0 (length spans.now) }
{
    let mut ends = (0, spans.len());
    for _ in 0..spans.len() {
        if ends.0 >= ends.1 {
            return ends.0;
        }
        ends = half(spans, point, address, ends);
    }
    ends.0
}

/// The value of the span at an index, if it has the point and the address.
fn value_of(spans: &[ByteSpan], index: usize, point: u32, address: u32) -> Option<u8>
    ensures { result ≡ value_in (slice_get spans.now index) point address }
{
    match spans.get(index) {
        None => None,
        Some(span) => {
            if span.address == address && (span.from <= point && point <= span.to) {
                Some(span.value)
            } else {
                None
            }
        }
    }
}

impl Lanes {
    /// No spans.
    pub fn new(alloc: Global) -> Lanes
        ensures { (memory : ℕ → ℕ → ℕ) → AreTrueSpans memory result }
    {
        Lanes {
            spans: Vec::new(alloc),
        }
    }

    /// These spans, put in order. It takes memory for as many for a while.
    pub fn of(spans: Vec<ByteSpan>) -> Result<Lanes, OutOfMemory>
        ensures { IfOk result (λ l. (memory : ℕ → ℕ → ℕ) → AreTrueSpans memory spans.items → AreTrueSpans memory l) }
    {
        let mut spans = spans;
        sort(&mut spans)?;
        Ok(Lanes { spans })
    }

    /// The value of a byte at a point, if a span that is found has it.
    pub fn byte(&self, point: u32, address: u32) -> Option<u8>
        ensures { result ≡ lane_byte self.now point address }
    {
        let spans = self.spans.as_slice();
        value_of(spans, sought(spans, point, address), point, address)
    }
}

/// For callers that look bytes up: one that is found is true where all spans are.
pub fn lane_true()
    ensures { IsLaneTrue }
{}
