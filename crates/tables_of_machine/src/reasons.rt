//! A reason keeps its premises and ranges in place.

use crate::shown::range_at;
use rept_isa::Reg;
use rept_reason::{Cell, Fact, RangePremise, Reason};
use std::alloc::{AllocError, Global};
use test_kit::Numbers;

pub fn answer(alloc: Global, n: &Numbers) -> Result<String, AllocError> {
    let premise = Fact {
        point: n.word(1),
        cell: Cell::Byte(n.word(2)),
        value: n.word(3),
    };
    match Reg::new(n.byte(5)) {
        None => String::from_str(alloc, "no case"),
        Some(reg) => {
            let (point, range) = (n.word(4), range_at(n, 6));
            told(
                alloc,
                n.byte(0),
                premise,
                RangePremise { point, reg, range },
            )
        }
    }
}

/// A reason's rule, its premise and its range, and the point and the value of what stands for none.
fn told(
    alloc: Global,
    rule: u8,
    premise: Fact,
    looked: RangePremise,
) -> Result<String, AllocError> {
    let mut reason = Reason::new(alloc, rule);
    let has_room = reason.premises.push(premise).is_ok() && reason.ranges.push(looked).is_ok();
    if !has_room {
        return Err(AllocError);
    }
    let (premises, ranges) = (reason.premises.as_slice(), reason.ranges.as_slice());
    let (point, value) = (RangePremise::default().point, Fact::default().value);
    format!(in alloc; "{} {premises:?} {ranges:?} {point} {value}", reason.rule)
}
