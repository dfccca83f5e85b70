//! Which steps may have written a byte, by a report and by what was inferred beyond it.

ghost use Rattle.std.specs.Prelude.{◌≡◌, ◌+◌, ◌<◌, ◌≤◌, true, length, slice_get, IfNone, IfSome};
ghost use Rattle.rept_known.specs.Bits.{bits_has};
ghost use Rattle.rept_known.specs.Both.{both_has};
ghost use Rattle.rept_infer.specs.Path.{path_reader, told_in};
ghost use Rattle.rept_found.specs.Inferred.Writing.{all_below, base_for, counts_by, instr_reaches, is_exact, is_exact_store, is_line, is_lined_at, is_store_told, names_step, refined_row, refined_step, row_stores, set_reaches, sharpened, step_below, stores_told, is_base_known, writer_beyond, writer_by};

use rept_findings::Findings;
use rept_infer::InferredPath;
use rept_isa::number::word;
use rept_isa::{Instr, Reg};
use rept_known::{Bits, Both};
use rept_machine::store_width;
use rept_narrow::{KnownPath, PathPremises};
use rept_partial::Partial;
use rept_report::{Counts, Writer};
use rept_span::Transfer;

/// Whether a word agrees with known bits.
fn bits_have(bits: Bits, v: u32) -> bool
    ensures { result ≡ bits_has bits v }
{
    v & !bits.loose() == bits.value()
}

/// Whether a word is in a set.
fn set_has(set: Both, v: u32) -> bool
    ensures { result ≡ both_has set v }
{
    let range = set.range();
    range.lo() <= v && v <= range.hi() && bits_have(set.bits(), v)
}

/// The base from which byte `k` of an access at this offset from it is at an address.
fn base_for(offset: u32, address: u32, k: u32) -> u32
    requires { k < 4 }
    ensures { result ≡ base_for offset address k }
{
    address.wrapping_sub(k).wrapping_sub(offset)
}

/// Whether one of the first bytes of an access from a base of the set can be at an address.
fn set_reaches(base: Both, offset: u32, address: u32, width: u32) -> bool
    requires { width ≤ 4 }
    ensures { result ≡ set_reaches base offset address width }
{
    for k in 0..width {
        if set_has(base, base_for(offset, address, k)) {
            return true;
        }
    }
    false
}

/// Whether a step is named.
fn names_step(writer: Writer, step: u32) -> bool
    ensures { result ≡ names_step writer step }
{
    match writer {
        Writer::Writes(named) | Writer::MayWrite(named) => named == step,
        Writer::Several | Writer::None => false,
    }
}

/// The step at which to look for what is told at a point: the one that is named, if it is before the
/// point; else the one before the point. None where none may have written the byte.
fn step_below(writer: Writer, point: u32) -> Option<u32>
    requires { 0 < point }
    ensures value { result ≡ step_below writer point }
    ensures before { IfSome result (λ j. j < point) }
{
    match writer {
        Writer::Writes(step) | Writer::MayWrite(step) => Some(step.min(point - 1)),
        Writer::Several => Some(point - 1),
        Writer::None => None,
    }
}

/// Whether a point has its own number, and its moment too.
fn is_lined_at<F: Findings>(found: &F, point: u32) -> bool
    requires { point < (F.shown found.now).points }
    ensures { result ≡ is_lined_at (F.shown found.now) point }
{
    let at = found.point(point);
    found.moment(point) == point && at.thread == 0 && at.point == point
}

/// Whether all points before one have.
fn are_lined<F: Findings>(found: &F, count: u32) -> bool
    requires { count ≤ (F.shown found.now).points }
    ensures { result ≡ all_below (is_lined_at (F.shown found.now)) count }
{
    for point in 0..count {
        if !is_lined_at(found, point) {
            return false;
        }
    }
    true
}

/// Whether the points of the first thread are, which is the only one.
pub(crate) fn is_line<F: Findings>(found: &F) -> bool
    ensures { result ≡ is_line (F.shown found.now) }
{
    // for the proof alone
    let _some = found.points();
    found.threads() == 1 && found.first(0) == 0 && are_lined(found, found.rows(0).len() as u32 + 1)
}

/// What is told of a step that reaches a byte: where its address is known, that it writes it.
fn sharpened(is_exact: bool, step: u32, told: Writer) -> Writer
    ensures { result ≡ sharpened is_exact step told }
{
    if is_exact { Writer::Writes(step) } else { told }
}

/// Findings of one path, and what was inferred of it beyond them: together they tell which steps may
/// have written a byte.
#[derive(Clone, Copy)]
pub(crate) struct PossibleWriters<'r, 'a, F: Findings, K: KnownPath, P: PathPremises> {
    pub(crate) found: &'r F,
    pub(crate) inferred: &'r InferredPath<'a, K, P>,
}

impl<'r, 'a, F: Findings, K: KnownPath, P: PathPremises> PossibleWriters<'r, 'a, F, K, P> {
    /// Whether a step may have the byte at an address, by the set of a store's base; any other
    /// instruction may.
    fn instr_reaches(&self, step: u32, address: u32, instr: &Instr) -> bool
        ensures { result ≡ instr_reaches (told_in (path_reader K.set K.byte P.premises) self.now.inferred.now) address step instr.now }
    {
        match *instr {
            Instr::Store { op, rs1, imm, .. } => {
                set_reaches(
                    self.inferred.set(step, rs1),
                    word(imm),
                    address,
                    store_width(op),
                )
            }
            _ => true,
        }
    }

    /// Whether the set of a register at a point has one value.
    fn is_exact(&self, point: u32, register: Reg) -> bool
        ensures { result ≡ is_exact ((told_in (path_reader K.set K.byte P.premises) self.now.inferred.now).set point register) }
    {
        self.inferred.set(point, register).as_exact().is_some()
    }

    /// Whether a step is a store whose address is known.
    fn is_exact_store(&self, step: u32, instr: &Instr) -> bool
        ensures { result ≡ is_exact_store (told_in (path_reader K.set K.byte P.premises) self.now.inferred.now) step instr.now }
    {
        match *instr {
            Instr::Store { rs1, .. } => self.is_exact(step, rs1),
            _ => false,
        }
    }

    /// What is left of what the report tells of a step, which may write the byte at an address.
    fn refine(&self, step: u32, address: u32, told: Writer) -> Option<Writer>
        requires { step < length ((F.shown self.now.found.now).rows 0) }
        ensures { result ≡ refined_row (told_in (path_reader K.set K.byte P.premises) self.now.inferred.now) address step (slice_get ((F.shown self.now.found.now).rows 0) step) told }
    {
        // for the proof alone
        let _some = self.found.threads();
        let row = self.found.rows(0)[step as usize];
        if self.instr_reaches(step, address, &row.instr) {
            Some(sharpened(self.is_exact_store(step, &row.instr), step, told))
        } else {
            None
        }
    }

    /// What is told of a step, by the report and by what was inferred.
    fn refined_step(&self, step: u32, address: u32) -> Option<Writer>
        requires step { step < length ((F.shown self.now.found.now).rows 0) }
        requires moment { step + 1 < (F.shown self.now.found.now).moments }
        ensures { result ≡ refined_step (told_in (path_reader K.set K.byte P.premises) self.now.inferred.now) (F.shown self.now.found.now) address step }
    {
        // for the proof alone
        let _few = self.steps();
        let told = self.found.writer(step + 1, address);
        if names_step(told, step) {
            self.refine(step, address, told)
        } else {
            None
        }
    }

    /// What is told of the next step below a point, if it may write the byte at an address, and the
    /// point from which to go on if it may not.
    fn walk_from(&self, point: u32, address: u32) -> (Option<Writer>, u32)
        requires line { is_line (F.shown self.now.found.now) ≡ true }
        requires some { 0 < point }
        requires moment { point < (F.shown self.now.found.now).moments }
        requires point { point ≤ length ((F.shown self.now.found.now).rows 0) }
        ensures found { IfSome result.0 (λ w. writer_by (told_in (path_reader K.set K.byte P.premises) self.now.inferred.now) (F.shown self.now.found.now) point address ≡ w) }
        ensures onward { IfNone result.0 ((result.1 < point) × (writer_by (told_in (path_reader K.set K.byte P.premises) self.now.inferred.now) (F.shown self.now.found.now) point address ≡ writer_by (told_in (path_reader K.set K.byte P.premises) self.now.inferred.now) (F.shown self.now.found.now) result.1 address)) }
    {
        match step_below(self.found.writer(point, address), point) {
            None => (Some(Writer::None), 0),
            Some(step) => (self.refined_step(step, address), step),
        }
    }

    /// What is told of the greatest step before a point that may write the byte at an address, by
    /// the report and by what was inferred.
    fn writer_before(&self, moment: u32, address: u32) -> Writer
        requires line { is_line (F.shown self.now.found.now) ≡ true }
        requires moment { moment < (F.shown self.now.found.now).moments }
        requires point { moment ≤ length ((F.shown self.now.found.now).rows 0) }
        ensures { result ≡ writer_by (told_in (path_reader K.set K.byte P.premises) self.now.inferred.now) (F.shown self.now.found.now) moment address }
    {
        let mut point = moment;
        'walk: while point > 0 {
            let (told, next) = self.walk_from(point, address);
            match told {
                Some(writer) => return writer,
                None => point = next,
            }
        }
        Writer::None
    }

    /// What is told of the last writer of the byte at an address before a moment.
    pub(crate) fn last_writer(&self, moment: u32, address: u32) -> Writer
        requires line { is_line (F.shown self.now.found.now) ≡ true }
        requires moment { moment < (F.shown self.now.found.now).moments }
        ensures { result ≡ writer_beyond (told_in (path_reader K.set K.byte P.premises) self.now.inferred.now) (F.shown self.now.found.now) moment address }
    {
        if moment <= self.steps() {
            self.writer_before(moment, address)
        } else {
            self.found.writer(moment, address)
        }
    }

    /// How many steps there are, of which kind, and how much the report knows of them.
    pub(crate) fn counts(&self) -> Counts
        ensures { result ≡ counts_by (told_in (path_reader K.set K.byte P.premises) self.now.inferred.now) (F.shown self.now.found.now) }
    {
        let counts = self.found.counts();
        Counts {
            steps: counts.steps,
            calls: counts.calls,
            registers: counts.registers,
            exact: self.stores(true),
            inexact: self.stores(false),
        }
    }

    /// Whether the value of a register at a point is known by the report or the holding.
    fn is_base_known(&self, point: u32, register: Reg) -> bool
        requires { point < (F.shown self.now.found.now).points }
        ensures { result ≡ is_base_known (told_in (path_reader K.set K.byte P.premises) self.now.inferred.now) (F.shown self.now.found.now) point register }
    {
        self.found.reg(point, register).is_some() || self.is_exact(point, register)
    }

    /// Whether an instruction is a store whose address is known at a point, or isn't.
    fn is_store_told(&self, known: bool, point: u32, instr: &Instr) -> bool
        requires { point < (F.shown self.now.found.now).points }
        ensures { result ≡ is_store_told known (told_in (path_reader K.set K.byte P.premises) self.now.inferred.now) (F.shown self.now.found.now) point instr.now }
    {
        match *instr {
            Instr::Store { rs1, .. } => {
                let base = self.is_base_known(point, rs1);
                if known { base } else { !base }
            }
            _ => false,
        }
    }

    /// Whether a step of the first thread is a store whose address is known, or isn't.
    fn is_store(&self, index: u32, known: bool) -> bool
        requires { index < length ((F.shown self.now.found.now).rows 0) }
        ensures { result ≡ row_stores known (told_in (path_reader K.set K.byte P.premises) self.now.inferred.now) (F.shown self.now.found.now) ((F.shown self.now.found.now).first 0 + index) (slice_get ((F.shown self.now.found.now).rows 0) index) }
    {
        // for the proof alone
        let _some = self.found.threads();
        let row = self.found.rows(0)[index as usize];
        // for the proof alone
        let _few = self.found.points();
        let point = self.found.first(0) + index;
        self.is_store_told(known, point, &row.instr)
    }

    /// How many steps the first thread has.
    fn steps(&self) -> u32
        ensures value { result ≡ length ((F.shown self.now.found.now).rows 0) }
        ensures few { length ((F.shown self.now.found.now).rows 0) ≤ 65536 }
    {
        // for the proof alone
        let _some = self.found.threads();
        self.found.rows(0).len() as u32
    }

    /// How many steps of the first thread are stores whose address is known, or isn't.
    pub(crate) fn stores(&self, known: bool) -> u32
        ensures { result ≡ stores_told known (told_in (path_reader K.set K.byte P.premises) self.now.inferred.now) (F.shown self.now.found.now) }
    {
        let steps = self.steps();
        let mut sum = 0;
        for index in 0..steps {
            if self.is_store(index, known) {
                sum += 1;
            }
        }
        sum
    }
}
