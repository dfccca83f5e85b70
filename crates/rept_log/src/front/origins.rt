//! The bytes that stand in a prefix of a log, and the moments from which they are carried.

ghost use Rattle.rept_timeline.specs.Paths.{timeline};
ghost use Rattle.std.specs.Prelude.{◌≡◌, ◌<◌, ◌≤◌, ◌^◌, ℕ, Some, IfOk};
ghost use Rattle.rept_reason.specs.declared.fact.Cell.TheVariants.{Byte};
ghost use Rattle.rept_report.specs.Spots.{spot};
ghost use Rattle.rept_report.specs.Nearest.Nets.{IsNearest};
ghost use Rattle.rept_report.specs.Origin.Logs.{links_in};
ghost use Rattle.rept_log.specs.Bytes.{AreTold};
ghost use Rattle.rept_reason.specs.Facts.{told};
ghost use Rattle.rept_log.specs.Fronts.{basis_of, front_of, stands, IsCarriedBy, setting_in};

use super::Front;
use rept_reason::RowRules;
use rept_report::{Carriage, NearestValue, Sources};
use rept_span::Transfer;
use rept_timeline::{nearer, nearest_origin};
use rept_versions::ByteFacts;
use std::alloc::{AllocError as OutOfMemory, Global};

/// A byte of the memory, as the facts and the dump have it by themselves.
#[derive(Drop)]
pub(super) struct LoggedByte<'f, 'k, 'd, B: ByteFacts, W: Transfer, R: RowRules> {
    /// the prefix
    front: &'f Front<'k, 'd, B, W, R>,
    /// its address
    address: u32,
    /// by moments the byte, where the facts tell it
    table: Vec<Option<u8>>,
    ghost small: { address < 2 ^ 32 },
    ghost known: { AreTold front.now.facts (timeline front.now.paths).moments.end address table.items },
    ghost early: { (m v : ℕ) → told front.now.facts m (Byte address) ≡ Some v → m ≤ (timeline front.now.paths).moments.end },
}

impl<'f, 'k, 'd, B: ByteFacts, W: Transfer, R: RowRules> Sources
    for LoggedByte<'f, 'k, 'd, B, W, R> {
    ghost use Rattle.rept_report.specs.Origin.Logs.{byte_in};
    ghost use Rattle.rept_log.specs.Fronts.{basis_of, front_of, setting_in};

    ghost byte = { λ s. byte_in (setting_in (front_of W.sets W.moves R.rules (basis_of s.front.now))) s.front.now.facts s.address };

    fn source(&self, number: u32) -> Option<u8> {
        let end = self.front.end();
        if number > end {
            return None;
        }
        match self.table[number as usize] {
            Some(byte) => Some(byte),
            None => if number == end {
                self.front.dump_byte(self.address)
            } else {
                None
            },
        }
    }

    fn may_write(&self, row: u32) -> bool {
        self.front.may_write(row, self.address)
    }
}

impl<'k, 'd, B: ByteFacts, W: Transfer, R: RowRules> Front<'k, 'd, B, W, R> {
    /// The byte at an address, as the facts and the dump have it by themselves.
    pub(super) fn logged<'f>(
        &'f self,
        alloc: Global,
        a: u32,
    ) -> Result<LoggedByte<'f, 'k, 'd, B, W, R>, OutOfMemory>
        ensures front { IfOk result (λ byte. byte.front.now ≡ self.now) }
        ensures address { IfOk result (λ byte. byte.address ≡ a) }
    {
        let end = self.end();
        let table = self.facts.bytes_below(alloc, self.limit, end, a)?;
        Ok(LoggedByte {
            front: self,
            address: a,
            table,
        })
    }

    /// The nearest moment from which the byte is carried to this one, in steps from a moment to a
    /// next one, on or back.
    pub(super) fn nearest(
        &self,
        alloc: Global,
        byte: &LoggedByte<'_, 'k, 'd, B, W, R>,
        number: u32,
    ) -> Result<Option<NearestValue>, OutOfMemory>
        requires same { byte.now.front.now ≡ self.now }
        requires inside { number ≤ (timeline self.now.paths).moments.end }
        ensures { IfOk result (λ found. IsNearest (links_in (setting_in (front_of W.sets W.moves R.rules (basis_of self.now))) self.now.facts byte.now.address) number found) }
    {
        nearest_origin(alloc, self.paths, byte, number)
    }

    /// The step by which the byte is carried to a moment from one that is nearer to the nearest
    /// from which it is.
    pub(super) fn step_to(
        &self,
        alloc: Global,
        byte: &LoggedByte<'_, 'k, 'd, B, W, R>,
        number: u32,
        found: NearestValue,
    ) -> Result<Carriage, OutOfMemory>
        requires same { byte.now.front.now ≡ self.now }
        requires inside { number ≤ (timeline self.now.paths).moments.end }
        requires nearest { IsNearest (links_in (setting_in (front_of W.sets W.moves R.rules (basis_of self.now))) self.now.facts byte.now.address) number (Some found) }
        requires far { 0 < found.links }
        ensures { IfOk result (λ step. IsCarriedBy (front_of W.sets W.moves R.rules (basis_of self.now)) (spot number byte.now.address) step) }
    {
        // for the proof alone
        let _count = self.count();
        nearer(alloc, self.paths, byte, number, found)
    }

    /// The byte that stands at a moment. `OutOfMemory` says that the room for the search, one
    /// number for each moment, can't be had.
    pub fn byte(&self, alloc: Global, number: u32, a: u32) -> Result<Option<u8>, OutOfMemory>
        requires { number ≤ (timeline self.now.paths).moments.end }
        ensures { IfOk result (λ byte. byte ≡ stands (front_of W.sets W.moves R.rules (basis_of self.now)) number (Byte a)) }
    {
        let byte = self.logged(alloc, a)?;
        self.standing(alloc, &byte, number)
    }

    /// The place from which a byte that was found before stands at a moment.
    pub(super) fn standing(
        &self,
        alloc: Global,
        byte: &LoggedByte<'_, 'k, 'd, B, W, R>,
        number: u32,
    ) -> Result<Option<u8>, OutOfMemory>
        requires same { byte.now.front.now ≡ self.now }
        requires inside { number ≤ (timeline self.now.paths).moments.end }
        ensures { IfOk result (λ found. found ≡ stands (front_of W.sets W.moves R.rules (basis_of self.now)) number (Byte byte.now.address)) }
    {
        // for the proof alone
        let _end = self.end();
        let _count = self.count();
        let nearest = self.nearest(alloc, byte, number)?;
        match nearest {
            None => Ok(None),
            Some(found) => Ok(Some(found.value)),
        }
    }
}
