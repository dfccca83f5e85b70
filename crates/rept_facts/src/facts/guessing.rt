//! Guesses at how many facts of the log, from the oldest on, are enough for a byte's fact. A guess
//! only says where a search begins: any number would do.

ghost use Rattle.std.specs.Prelude.{◌<◌};

use super::CrashFacts;
use rept_isa::{Reg, StepRow, reads, writes};
use rept_reason::{Cell, RowRules, When};
use rept_span::Transfer;
use rept_timeline::row_between;
use rept_versions::ByteFacts;
use std::alloc::{AllocError as OutOfMemory, Global};

/// No number of facts is enough.
const NEVER: u32 = u32::MAX;

/// Over so many rows it is looked for the one that wrote a register.
const BACK: u32 = 64;

/// A list of this many numbers, each of them `NEVER`.
fn nevers(alloc: Global, count: usize) -> Result<Vec<u32>, OutOfMemory> {
    vec![in alloc; NEVER; count]
}

/// Sets the number at an index, where there is one.
fn set_at(numbers: &mut Vec<u32>, at: usize, number: u32) {
    if at < numbers.len() {
        numbers[at] = number;
    }
}

/// The number at an index; `NEVER` where there is none.
fn at(numbers: &[u32], index: usize) -> u32 {
    if index < numbers.len() {
        numbers[index]
    } else {
        NEVER
    }
}

impl<'a, B: ByteFacts, W: Transfer, R: RowRules> CrashFacts<'a, B, W, R> {
    /// How many facts tell the value of a register at a point; `NEVER` where none do.
    fn value_need(&self, point: u32, r: Reg) -> u32 {
        if r.number() == 0 || point > self.count() {
            return 0;
        }
        match self.place_at(point, r) {
            None => NEVER,
            Some(place) => place.saturating_add(1),
        }
    }

    /// Whether a row writes a register.
    fn is_written(&self, i: u32, r: Reg) -> bool {
        match self.row(i) {
            None => true,
            Some(row) => writes(&row.instr) == Some(r),
        }
    }

    /// How many tell the value that a register has had since it was written last before a point,
    /// and the row that wrote it; `None` where that isn't seen. A set that is exact at one point
    /// stays so up to the next row that writes the register.
    fn kept_need(&self, point: u32, r: Reg) -> (u32, Option<u32>) {
        let mut least = NEVER;
        for k in 0..BACK.min(point) {
            let here = point.saturating_sub(k);
            least = self.value_need(here, r).min(least);
            let row = here.saturating_sub(1);
            if self.is_written(row, r) {
                return (least, Some(row));
            }
        }
        (least, None)
    }

    /// Whether a row leaves what it writes in a range, whatever its operands are.
    fn is_bounded(&self, row: &StepRow) -> bool {
        let any = W::apply(&row.instr, row.from(), W::unknown(), W::unknown());
        R::places(row) > 0 || any.lo() > 0 || any.hi() < u32::MAX
    }

    /// How many tell an operand of row i.
    fn operand_need(&self, i: u32, r: Option<Reg>) -> u32 {
        let Some(register) = r else {
            return 0;
        };
        let (need, from) = self.kept_need(i, register);
        if need < NEVER {
            return need;
        }
        match from {
            Some(row) if self.is_range(row) => 0,
            _ => NEVER,
        }
    }

    /// Whether row i leaves what it writes in a range.
    fn is_range(&self, i: u32) -> bool {
        match self.row(i) {
            None => false,
            Some(row) => self.is_bounded(&row),
        }
    }

    /// How many tell what row i writes, by its operands.
    fn written_need(&self, i: u32) -> u32 {
        let Some(row) = self.row(i) else {
            return NEVER;
        };
        if R::places(&row) > 0 {
            return NEVER;
        }
        let (first, second) = reads(&row.instr);
        self.operand_need(i, first)
            .max(self.operand_need(i, second))
    }

    /// How many tell in which range a register lies at a point: those of its own values since it
    /// was written last, or those of the operands of the row that wrote it.
    fn register_need(&self, point: u32, r: Reg) -> u32 {
        let (own, row) = self.kept_need(point, r);
        let need = match row {
            None => own,
            Some(i) => self.written_need(i).min(own),
        };
        if need < NEVER { need } else { 0 }
    }

    /// How many tell the registers by which row i may write a byte or not.
    fn row_need(&self, i: u32, row: &StepRow) -> u32 {
        let tells = R::tells(self.alloc, row);
        let mut most = 0;
        for tell in tells.as_slice() {
            let point = match tell.when {
                When::Before => i,
                When::After => i.saturating_add(1),
            };
            most = self.register_need(point, tell.register).max(most);
        }
        most
    }

    /// How many tell whether the row between two moments may write a byte.
    fn need_between(&self, from: u32, to: u32) -> u32 {
        let Some(i) = row_between(self.paths, from, to) else {
            return 0;
        };
        match self.row(i) {
            None => 0,
            Some(row) => self.row_need(i, &row),
        }
    }

    /// By its moment how many facts have a byte's fact among them; none are needed for the dump's.
    fn byte_needs(&self, a: u32) -> Result<Vec<u32>, OutOfMemory> {
        let end = self.end() as usize;
        let mut needs = nevers(self.alloc, end.saturating_add(1))?;
        for place in 0..self.len() {
            let fact = self.known.entry(place);
            if fact.cell == Cell::Byte(a) {
                set_at(&mut needs, fact.point as usize, place.saturating_add(1));
            }
        }
        if self.dump_byte(a).is_some() {
            set_at(&mut needs, end, 0);
        }
        Ok(needs)
    }

    /// The least number of facts by which a byte comes from a moment or a later one up to `last`.
    fn need_onward(&self, needs: &[u32], moment: u32, last: u32) -> u32 {
        let mut best = NEVER;
        let mut way = 0;
        for m in moment..last.saturating_add(1) {
            best = at(needs, m as usize).max(way).min(best);
            way = self.need_between(m, m.saturating_add(1)).max(way);
            if best <= way {
                return best;
            }
        }
        best
    }

    /// The least number by which it comes from one before it down to `first`.
    fn need_back(&self, needs: &[u32], moment: u32, first: u32) -> u32 {
        let mut best = NEVER;
        let mut way = 0;
        for k in 0..moment.saturating_sub(first) {
            let m = moment.saturating_sub(k);
            let before = m.saturating_sub(1);
            way = self.need_between(before, m).max(way);
            if best <= way {
                return best;
            }
            best = at(needs, before as usize).max(way).min(best);
        }
        best
    }

    /// How many facts may be enough for a byte's fact at a moment. `OutOfMemory` says that the room
    /// for one number for each moment can't be had.
    pub fn guess(&self, moment: u32, a: u32) -> Result<u32, OutOfMemory> {
        let needs = self.byte_needs(a)?;
        let (first, last) = match self.stretch(a, moment) {
            None => (moment, self.end()),
            Some(stretch) => (stretch.first, stretch.last),
        };
        let onward = self.need_onward(&needs, moment, last);
        let back = self.need_back(&needs, moment, first);
        Ok(onward.min(back))
    }
}
