//! How many of a row's registers and bytes are known.

ghost use Rattle.rept_timeline.specs.Paths.{timeline};
ghost use Rattle.std.specs.Prelude.{◌≡◌, ◌*◌, ◌<◌, ◌≤◌, is_some, IsSome};
ghost use Rattle.rept_log.specs.Around.{around};
ghost use Rattle.rept_log.specs.Known.{known_of};
ghost use Rattle.rept_facts.specs.Cells.{operand_known, byte_known, bytes_from, bytes_known, base_known, cells_known};
ghost use Rattle.rept_facts.specs.Sums.{one_if};
ghost use Rattle.rept_isa.specs.Operands.{first_read};

use super::CrashFacts;
use crate::rows::address;
use rept_isa::{Reg, StepRow, reads, writes};
use rept_log::views::point_at;
use rept_partial::Flat;
use rept_reason::{RowRules, When};
use rept_span::Transfer;
use rept_versions::ByteFacts;

impl<'a, B: ByteFacts, W: Transfer, R: RowRules> CrashFacts<'a, B, W, R> {
    /// The value of the register in the place of rs1 before row i, from which on its rules look at
    /// bytes; none where there is no such register, or its value isn't known.
    pub fn row_base(&self, i: u32, row: &StepRow) -> Option<u32>
        requires { i < (timeline self.now.paths).legs.count }
        ensures { result ≡ base_known (first_read row.now.instr) (around (timeline self.now.paths).moments (known_of B.store self.now.known) i) }
    {
        let (first, _) = reads(&row.instr);
        // for the proof alone
        let _count = self.count();
        match first {
            None => None,
            Some(r) => match self.known(i, r) {
                Flat::Known(base) => Some(base),
                Flat::Unknown => None,
            },
        }
    }

    /// 1 where there is a register and it is known before row i or after it.
    fn operand_cell(&self, i: u32, when: When, r: Option<Reg>) -> u32
        requires { i < (timeline self.now.paths).legs.count }
        ensures value { result ≡ operand_known (around (timeline self.now.paths).moments (known_of B.store self.now.known) i) when r }
        ensures few { result ≤ 1 }
    {
        // for the proof alone
        let _count = self.count();
        let point = point_at(i, when);
        match r {
            None => 0,
            Some(r) => match self.known(point, r) {
                Flat::Known(_) => 1,
                Flat::Unknown => 0,
            },
        }
    }

    /// 1 where the byte at an address is known at a moment.
    fn byte_at_point(&self, point: u32, a: u32) -> u32
        ensures value { result ≡ one_if (is_some ((known_of B.store self.now.known).store.fact point a)) }
        ensures few { result ≤ 1 }
    {
        match self.known_byte(point, a) {
            Some(_) => 1,
            None => 0,
        }
    }

    /// At how many of the two moments around row i the byte at an address is known.
    fn byte_cells(&self, i: u32, a: u32) -> u32
        requires { IsSome ((timeline self.now.paths).legs.row i) }
        ensures value { result ≡ byte_known (around (timeline self.now.paths).moments (known_of B.store self.now.known) i) a }
        ensures few { result ≤ 2 }
    {
        let before = self.moment_at(i, When::Before);
        let after = self.moment_at(i, When::After);
        self.byte_at_point(before, a) + self.byte_at_point(after, a)
    }

    /// At how many of the two moments around row i up to four bytes from an address on are known,
    /// in all.
    fn byte_cells_from(&self, i: u32, start: u32, count: u32) -> u32
        requires row { IsSome ((timeline self.now.paths).legs.row i) }
        requires four { count ≤ 4 }
        ensures value { result ≡ bytes_from (around (timeline self.now.paths).moments (known_of B.store self.now.known) i) start count }
        ensures few { result ≤ 2 * count }
    {
        let mut sum = 0;
        for k in 0..count {
            sum += self.byte_cells(i, start.wrapping_add(k));
        }
        sum
    }

    /// At how many of the two moments around row i the bytes that its rules look at are known, in
    /// all.
    fn row_byte_cells(&self, i: u32, row: &StepRow) -> u32
        requires inside { i < (timeline self.now.paths).legs.count }
        requires row { IsSome ((timeline self.now.paths).legs.row i) }
        ensures value { result ≡ bytes_known R.rules row.now (around (timeline self.now.paths).moments (known_of B.store self.now.known) i) (base_known (first_read row.now.instr) (around (timeline self.now.paths).moments (known_of B.store self.now.known) i)) }
        ensures few { result ≤ 8 }
    {
        match self.row_base(i, row) {
            None => 0,
            Some(base) => {
                let count = R::places(row).min(4);
                self.byte_cells_from(i, address(base, &row.instr), count)
            }
        }
    }

    /// How many of the registers and bytes that row i's rules look at are known.
    pub fn cells(&self, i: u32, row: &StepRow) -> u32
        requires inside { i < (timeline self.now.paths).legs.count }
        requires row { IsSome ((timeline self.now.paths).legs.row i) }
        ensures value { result ≡ cells_known R.rules row.now (around (timeline self.now.paths).moments (known_of B.store self.now.known) i) }
        ensures few { result ≤ 11 }
    {
        let (first, second) = reads(&row.instr);
        let before = self.operand_cell(i, When::Before, first)
            + self.operand_cell(i, When::Before, second);
        let after = self.operand_cell(i, When::After, writes(&row.instr));
        before + after + self.row_byte_cells(i, row)
    }
}
