//! What is known of registers at a point beside what is known of them at the points before and
//! after it.

ghost use Rattle.std.specs.Prelude.{◌≡◌, ◌+◌, ◌-◌, ◌<◌, ◌≤◌, ◌↔◌, Some, IsTrue};
ghost use Rattle.rept_reason.specs.declared.fact.Cell.TheVariants.{Register};
ghost use Rattle.rept_reason.specs.Facts.{told};
ghost use Rattle.rept_log.specs.Compared.{IsSameAfter, IsNextDiffering};

use super::{FactLog, slot};
use rept_isa::{Reg, register};
use rept_versions::ByteFacts;

/// Whether the value was found.
pub(crate) fn has(found: Option<u32>, value: u32) -> bool
    ensures { IsTrue result ↔ (found ≡ Some value) }
{
    found == Some(value)
}

impl<B: ByteFacts> FactLog<B> {
    /// Whether the value is what the facts tell of a register other than x0.
    fn tells(&self, point: u32, r: Reg, value: u32) -> bool
        requires point { point ≤ self.now.last }
        requires named { 0 < r }
        ensures { IsTrue result ↔ (told self.now.log point (Register r) ≡ Some value) }
    {
        let len = self.len();
        has(self.fact_below(len, point, r), value)
    }

    /// Whether it is what they tell of it at the point before, where there is one.
    pub(super) fn tells_before(&self, point: u32, r: Reg, value: u32) -> bool
        requires point { point ≤ self.now.last }
        requires named { 0 < r }
        ensures { 0 < point → IsTrue result ↔ (told self.now.log (point - 1) (Register r) ≡ Some value) }
    {
        if point == 0 {
            return false;
        }
        self.tells(point - 1, r, value)
    }

    /// Whether it is what they tell of it at the point after, where there is one.
    pub(super) fn tells_after(&self, point: u32, r: Reg, value: u32) -> bool
        requires point { point ≤ self.now.last }
        requires named { 0 < r }
        ensures { point < self.now.last → IsTrue result ↔ (told self.now.log (point + 1) (Register r) ≡ Some value) }
    {
        if point == self.last {
            return false;
        }
        self.tells(point + 1, r, value)
    }

    /// Whether the same is known of a register other than x0 at a point and at the one after it.
    fn is_same_after(&self, point: u32, r: Reg) -> bool
        requires point { point < self.now.last }
        requires named { 0 < r }
        ensures { IsTrue result ↔ IsSameAfter self.now.log point r }
    {
        // for the proof alone
        let _last = self.last;
        self.same[slot(point, r)]
    }

    /// The first register from one on, other than x0, of which not the same is known at a point and
    /// at the one after it, if there is one.
    pub fn next_differing(&self, point: u32, least: u8) -> Option<Reg>
        requires point { point < self.now.last }
        requires named { 0 < least }
        ensures { IsNextDiffering self.now.log point least result }
    {
        for number in least..32u8 {
            let r = register(number);
            if !self.is_same_after(point, r) {
                return Some(r);
            }
        }
        None
    }
}
