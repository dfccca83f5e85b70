//! The bytes that a row's rules look at, as they stand in a prefix of a log.

ghost use Rattle.rept_timeline.specs.Paths.{timeline};
ghost use Rattle.std.specs.Prelude.{◌≡◌, ◌<◌, ◌≤◌, min, IsSome, IfOk, Some};
ghost use Rattle.rept_reason.specs.Facts.{told, register_known};
ghost use Rattle.rept_isa.specs.Operands.{first_read};
ghost use Rattle.rept_log.specs.Fronts.{basis_of, front_of, seen_in};
ghost use Rattle.rept_log.specs.RowBytes.{row_byte, bytes_from, bytes_from_base, base_seen, row_bytes};

use super::Front;
use crate::row_bytes::RowByte;
use rept_isa::number::plus;
use rept_isa::{Instr, StepRow, reads};
use rept_partial::Partial;
use rept_reason::{RowRules, When, offset_of};
use rept_span::Transfer;
use rept_versions::ByteFacts;
use smallvec::SmallVec;
use std::alloc::{AllocError as OutOfMemory, Global};

impl<'k, 'd, B: ByteFacts, W: Transfer, R: RowRules> Front<'k, 'd, B, W, R> {
    /// A byte before and after row i.
    fn row_byte(&self, alloc: Global, i: u32, a: u32) -> Result<RowByte, OutOfMemory>
        requires { IsSome ((timeline self.now.paths).legs.row i) }
        ensures { IfOk result (λ b. b ≡ row_byte (seen_in (front_of W.sets W.moves R.rules (basis_of self.now)) i) a) }
    {
        let byte = self.logged(alloc, a)?;
        let before = self.standing(alloc, &byte, self.moment(i, When::Before))?;
        let after = self.standing(alloc, &byte, self.moment(i, When::After))?;
        Ok(RowByte {
            address: a,
            before,
            after,
        })
    }

    /// The bytes from a base on, this many.
    fn bytes_from(
        &self,
        alloc: Global,
        i: u32,
        base: u32,
        count: u32,
    ) -> Result<SmallVec<RowByte, 4>, OutOfMemory>
        requires { IsSome ((timeline self.now.paths).legs.row i) }
        ensures { IfOk result (λ v. v.items ≡ bytes_from (seen_in (front_of W.sets W.moves R.rules (basis_of self.now)) i) base count) }
    {
        let mut bytes = SmallVec::new(alloc);
        for k in 0..count {
            let byte = self.row_byte(alloc, i, base.wrapping_add(k))?;
            bytes.push(byte)?;
        }
        Ok(bytes)
    }

    /// What is known before row i of the register in the place of rs1.
    fn base(&self, i: u32, instr: &Instr) -> Option<u32>
        requires { IsSome ((timeline self.now.paths).legs.row i) }
        ensures { result ≡ base_seen (first_read instr.now) (seen_in (front_of W.sets W.moves R.rules (basis_of self.now)) i) }
    {
        // for the proof alone
        let _count = self.count();
        let register = reads(instr).0?;
        self.known(i, register).as_exact()
    }

    /// The bytes that row i's rules look at. `OutOfMemory` says that their room can't be had.
    pub(super) fn row_bytes(
        &self,
        alloc: Global,
        i: u32,
        row: &StepRow,
    ) -> Result<SmallVec<RowByte, 4>, OutOfMemory>
        requires { IsSome ((timeline self.now.paths).legs.row i) }
        ensures { IfOk result (λ v. v.items ≡ row_bytes R.rules row.now (seen_in (front_of W.sets W.moves R.rules (basis_of self.now)) i)) }
    {
        match self.base(i, &row.instr) {
            None => Ok(SmallVec::new(alloc)),
            Some(base) => {
                let first = plus(base, offset_of(&row.instr));
                let count = R::places(row).min(4);
                self.bytes_from(alloc, i, first, count)
            }
        }
    }
}
