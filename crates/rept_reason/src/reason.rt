//! Why a fact is known: a rule, the facts that it rests on, and the ranges that it looked at.

ghost use Rattle.std.specs.Prelude.{◌≡◌, ◌<◌, ◌≤◌, ◌^◌, []};

use crate::fact::Fact;
use rept_isa::Reg;
use rept_partial::{Partial, Range};
use smallvec::SmallVec;
use std::alloc::Global;
use std::default::Default;

/// A range of a register at a point that a rule looked at.
#[derive(Clone, Copy, PartialEq, Eq, Debug)]
pub struct RangePremise {
    /// the point, from 0 before the first row
    pub point: u32,
    /// the register
    pub reg: Reg,
    /// the values that it may have there
    pub range: Range,
}

impl Default for RangePremise {
    fn default() -> RangePremise
        ensures point { result.point ≡ 0 }
        ensures reg { result.reg ≡ 0 }
    {
        RangePremise {
            point: 0,
            reg: Reg::new(0).unwrap(),
            range: Range::unknown(),
        }
    }
}

/// A rule by its number, its premises, and the ranges that it looked at. The rules and their
/// numbers are this project's own. Both lists keep within the room that they have in place, so a
/// reason takes no memory.
#[derive(Drop)]
pub struct Reason {
    /// the rule's number
    pub rule: u8,
    /// the facts that the rule rests on, in the rule's order
    pub premises: SmallVec<Fact, 10>,
    /// the ranges that the rule looked at, in the rule's order
    pub ranges: SmallVec<RangePremise, 8>,
}

impl Reason {
    /// A rule without premises and ranges. It takes no memory.
    pub fn new(alloc: Global, rule: u8) -> Reason
        ensures rule { result.rule ≡ rule }
        ensures premises { result.premises.items ≡ [] }
        ensures ranges { result.ranges.items ≡ [] }
        ensures room_premises { result.premises.capacity ≡ 10 }
        ensures room_ranges { result.ranges.capacity ≡ 8 }
    {
        Reason {
            rule,
            premises: SmallVec::new(alloc),
            ranges: SmallVec::new(alloc),
        }
    }
}
