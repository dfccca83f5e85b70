//! The ranges along a path of which one fact is known.

use crate::moves::row_of;
use rept_isa::{Reg, StepRow};
use rept_partial::{Flat, Range};
use rept_reason::{Cell, Fact};
use rept_span::{EmptyAt, RegFacts, Spans};
use std::alloc::{AllocError, Global};
use test_kit::Numbers;

/// One fact alone.
#[derive(Drop)]
struct One {
    fact: Fact,
}

impl RegFacts for One {
    ghost use Rattle.std.specs.Prelude.{[], ◌∷◌};
    ghost use Rattle.rept_reason.specs.Facts.{told};

    ghost knows = { λ s. told (s.fact ∷ []) };

    ghost last = { λ _. 4 };

    fn reg(&self, point: u32, r: Reg) -> Flat {
        if r.number() == 0 {
            Flat::Known(0)
        } else if self.fact.point == point && self.fact.cell == Cell::Register(r) {
            Flat::Known(self.fact.value)
        } else {
            Flat::Unknown
        }
    }
}

/// addi x5,x0,7; bltu x6,x5, taken; add x7,x5,x6; bltu x0,x8, taken.
fn path() -> Option<[StepRow; 4]> {
    let first = row_of(0x0070_0293, 0, 4)?;
    let second = row_of(0x0053_6463, 4, 12)?;
    let third = row_of(0x0062_83b3, 12, 16)?;
    let last = row_of(0x0080_6463, 16, 24)?;
    Some([first, second, third, last])
}

/// Whether some set is empty, and the ranges of registers at some points.
pub fn answer(alloc: Global, n: &Numbers) -> Result<String, AllocError> {
    match (path(), Reg::new(n.byte(0))) {
        (Some(rows), Some(register)) => {
            let cell = Cell::Register(register);
            let (point, value) = (n.word(2), n.word(1));
            filled(alloc, &rows, Fact { point, cell, value })
        }
        _ => String::from_str(alloc, "no case"),
    }
}

fn filled(alloc: Global, rows: &[StepRow; 4], fact: Fact) -> Result<String, AllocError> {
    let mut spans: Spans<Range> = Spans::new(alloc, 5)?;
    let empty = match spans.fill(rows, &One { fact }) {
        Ok(()) => None,
        Err(EmptyAt { point, reg }) => Some((point, reg.number())),
    };
    let ranges = [
        spans.at(2, reg(6)),
        spans.at(4, reg(7)),
        spans.at(4, reg(8)),
    ];
    format!(in alloc; "{empty:?} {ranges:?}")
}

/// The register of a number, x0 where there is none.
fn reg(number: u8) -> Reg {
    match Reg::new(number) {
        None => Reg::new(0).unwrap(),
        Some(register) => register,
    }
}
