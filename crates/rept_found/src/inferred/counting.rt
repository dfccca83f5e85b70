//! How much was inferred beyond a report.

ghost use Rattle.std.specs.Prelude.{◌≡◌, ◌+◌, ◌*◌, ◌<◌, ◌≤◌, length};
ghost use Rattle.rept_facts.specs.Sums.{sum_to};
ghost use Rattle.rept_infer.specs.Path.{path_reader, told_in};
ghost use Rattle.rept_found.specs.Inferred.Added.{added_at, bytes_added, is_added, is_byte_added, load_added, step_added, value_by};

use crate::inferred::narrowing::{is_added, value_by};
use crate::inferred::overlay::InferredCrash;
use rept_findings::Findings;
use rept_isa::number::plus;
use rept_isa::{Instr, Reg, register};
use rept_narrow::{KnownPath, PathPremises, load_width};

impl<'a, F: Findings, K: KnownPath, P: PathPremises> InferredCrash<'a, F, K, P> {
    /// Whether the value of a register at a point only was inferred.
    fn is_value_added(&self, point: u32, register: Reg) -> bool
        requires { point < (F.shown self.now.found.now).points }
        ensures { result ≡ is_added ((F.shown self.now.found.now).register point register) ((told_in (path_reader K.set K.byte P.premises) self.now.inferred).set point register) }
    {
        match self.found.reg(point, register) {
            Some(_) => false,
            None => is_added(None, self.inferred.set(point, register)),
        }
    }

    /// How many values of registers at a point only were inferred.
    fn values_at(&self, point: u32) -> u32
        requires { point < (F.shown self.now.found.now).points }
        ensures value { result ≡ added_at (told_in (path_reader K.set K.byte P.premises) self.now.inferred) (F.shown self.now.found.now) point }
        ensures few { result ≤ 32 }
    {
        let mut sum = 0;
        for r in 0..32u8 {
            if self.is_value_added(point, register(r)) {
                sum += 1;
            }
        }
        sum
    }

    /// How many values of registers at all points only were inferred.
    pub(crate) fn values_added(&self) -> u32
        ensures { result ≡ sum_to (added_at (told_in (path_reader K.set K.byte P.premises) self.now.inferred) (F.shown self.now.found.now)) (F.shown self.now.found.now).points }
    {
        let points = self.found.points();
        let mut sum = 0;
        for point in 0..points {
            sum += self.values_at(point);
        }
        sum
    }

    /// Whether the byte at a moment and an address only was inferred.
    fn is_byte_added(&self, moment: u32, address: u32) -> bool
        requires { moment < (F.shown self.now.found.now).moments }
        ensures { result ≡ is_byte_added (told_in (path_reader K.set K.byte P.premises) self.now.inferred) (F.shown self.now.found.now) moment address }
    {
        self.found.byte(moment, address).is_none() && self.inferred.byte(moment, address).is_some()
    }

    /// How many of a load's bytes at a moment only were inferred.
    fn loaded_bytes(&self, moment: u32, width: u32, address: u32) -> u32
        requires moment { moment < (F.shown self.now.found.now).moments }
        requires width { width ≤ 4 }
        ensures value { result ≡ bytes_added (told_in (path_reader K.set K.byte P.premises) self.now.inferred) (F.shown self.now.found.now) moment width (Some address) }
        ensures few { result ≤ 4 }
    {
        let mut sum = 0;
        for k in 0..width {
            if self.is_byte_added(moment, address.wrapping_add(k)) {
                sum += 1;
            }
        }
        sum
    }

    /// How many of the bytes that an instruction loads at a point only were inferred.
    fn load_bytes(&self, point: u32, instr: &Instr) -> u32
        requires { point < (F.shown self.now.found.now).points }
        ensures value { result ≡ load_added (told_in (path_reader K.set K.byte P.premises) self.now.inferred) (F.shown self.now.found.now) point instr.now }
        ensures few { result ≤ 4 }
    {
        match *instr {
            Instr::Load { op, rs1, imm, .. } => {
                let base = value_by(self.found.reg(point, rs1), self.inferred.set(point, rs1));
                match base {
                    Some(base) => self.loaded_bytes(
                        self.found.moment(point),
                        load_width(op),
                        plus(base, imm),
                    ),
                    None => 0,
                }
            }
            _ => 0,
        }
    }

    /// How many of the bytes that a step of the first thread loads only were inferred.
    fn step_bytes(&self, index: u32) -> u32
        requires { index < length ((F.shown self.now.found.now).rows 0) }
        ensures value { result ≡ step_added (told_in (path_reader K.set K.byte P.premises) self.now.inferred) (F.shown self.now.found.now) index }
        ensures few { result ≤ 4 }
    {
        // for the proof alone
        let _some = self.found.threads();
        let row = self.found.rows(0)[index as usize];
        // for the proof alone
        let _few = self.found.points();
        self.load_bytes(self.found.first(0) + index, &row.instr)
    }

    /// How many steps the first thread has.
    pub(crate) fn steps(&self) -> u32
        ensures value { result ≡ length ((F.shown self.now.found.now).rows 0) }
        ensures few { length ((F.shown self.now.found.now).rows 0) ≤ 65536 }
    {
        // for the proof alone
        let _some = self.found.threads();
        self.found.rows(0).len() as u32
    }

    /// How many of the bytes that the steps of the first thread load only were inferred.
    pub(crate) fn bytes_added(&self) -> u32
        ensures { result ≡ sum_to (step_added (told_in (path_reader K.set K.byte P.premises) self.now.inferred) (F.shown self.now.found.now)) (length ((F.shown self.now.found.now).rows 0)) }
    {
        let steps = self.steps();
        // for the proof alone
        let _few = self.found.points();
        let mut sum = 0;
        for index in 0..steps {
            sum += self.step_bytes(index);
        }
        sum
    }
}
