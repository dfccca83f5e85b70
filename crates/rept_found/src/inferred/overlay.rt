//! The findings of a report with what was inferred beyond it.

ghost use Rattle.std.specs.Prelude.{◌≡◌, ◌<◌};
ghost use Rattle.rept_found.specs.Inferred.Writing.{is_line};

use crate::inferred::narrowing::{note_by, range_by, value_by};
use crate::inferred::writing::{PossibleWriters, is_line};
use rept_elf::Symbol;
use rept_findings::{BeyondRule, Findings, KnownBeyond, PremisesTaken, ThreadPlace, ThreadPoint};
use rept_infer::InferredPath;
use rept_isa::{Reg, StepRow};
use rept_narrow::{KnownPath, NarrowRule, PathPremises};
use rept_partial::Range;
use rept_reason::{Cell, Fact, Reason};
use rept_report::{Counts, Writer};
use rept_word::OutOfMemory;
use std::alloc::Global;

/// The findings of a run that is one path, what was inferred of the path beyond them, and by which
/// premises. What is told of registers, bytes, writers and stores is narrowed; all else is that of
/// the findings. A value that only was inferred has no reason.
#[derive(Drop)]
pub struct InferredCrash<'a, F: Findings, K: KnownPath, P: PathPremises> {
    pub found: &'a F,
    pub inferred: InferredPath<'a, K, P>,
    pub taken: PremisesTaken,
    pub(crate) line: bool,
    ghost lined: { line ≡ is_line (F.shown found.now) },
}

impl<'a, F: Findings, K: KnownPath, P: PathPremises> InferredCrash<'a, F, K, P> {
    /// These findings, with what was inferred beyond them by these premises.
    pub fn new(
        found: &'a F,
        inferred: InferredPath<'a, K, P>,
        taken: PremisesTaken,
    ) -> InferredCrash<'a, F, K, P>
        ensures found { result.found.now ≡ found.now }
        ensures inferred { result.inferred ≡ inferred.entry }
        ensures taken { result.taken ≡ taken }
    {
        let line = is_line(found);
        InferredCrash {
            found,
            inferred,
            taken,
            line,
        }
    }

    /// Which steps may have written a byte.
    fn writers(&self) -> PossibleWriters<'_, 'a, F, K, P>
        ensures found { result.found.now ≡ self.now.found.now }
        ensures inferred { result.inferred.now ≡ self.now.inferred }
    {
        PossibleWriters {
            found: self.found,
            inferred: &self.inferred,
        }
    }
}

impl<'a, F: Findings, K: KnownPath, P: PathPremises> Findings for InferredCrash<'a, F, K, P> {
    ghost use Rattle.rept_infer.specs.Path.{path_reader, told_in};
    ghost use Rattle.rept_found.specs.Inferred.Narrowed.{beyond_of, narrowed};

    ghost shown = { λ f. narrowed (beyond_of (told_in (path_reader K.set K.byte P.premises) f.inferred) f.taken) (F.shown f.found.now) };

    ghost reasons = { λ f fact why. F.reasons f.found.now fact why };

    fn threads(&self) -> u32 {
        self.found.threads()
    }

    fn process(&self, thread: u32) -> u32 {
        self.found.process(thread)
    }

    fn rows(&self, thread: u32) -> &[StepRow] {
        self.found.rows(thread)
    }

    fn end_pc(&self, thread: u32) -> u32 {
        self.found.end_pc(thread)
    }

    fn first(&self, thread: u32) -> u32 {
        self.found.first(thread)
    }

    fn points(&self) -> u32 {
        self.found.points()
    }

    fn point(&self, number: u32) -> ThreadPoint {
        self.found.point(number)
    }

    fn moment(&self, point: u32) -> u32 {
        self.found.moment(point)
    }

    fn place(&self, moment: u32) -> ThreadPlace {
        self.found.place(moment)
    }

    fn reg(&self, point: u32, register: Reg) -> Option<u32> {
        value_by(
            self.found.reg(point, register),
            self.inferred.set(point, register),
        )
    }

    fn range(&self, point: u32, register: Reg) -> Range {
        range_by(
            self.found.range(point, register),
            self.inferred.set(point, register),
        )
    }

    fn note(&self, point: u32, register: Reg) -> Option<(u32, u32)> {
        note_by(
            self.found.note(point, register),
            self.inferred.set(point, register),
        )
    }

    fn byte(&self, moment: u32, address: u32) -> Option<u8> {
        match self.found.byte(moment, address) {
            Some(value) => Some(value),
            None => self.inferred.byte(moment, address),
        }
    }

    fn code(&self, address: u32) -> Option<u8> {
        self.found.code(address)
    }

    fn writer(&self, moment: u32, address: u32) -> Writer {
        let told = self.found.writer(moment, address);
        if self.line {
            self.writers().last_writer(moment, address)
        } else {
            told
        }
    }

    fn counts(&self) -> Counts {
        self.writers().counts()
    }

    fn symbols(
        &self,
        alloc: Global,
        addresses: &[u32],
    ) -> Result<Vec<Option<Symbol<'_>>>, OutOfMemory> {
        self.found.symbols(alloc, addresses)
    }

    fn beyond(&self) -> Option<KnownBeyond> {
        Some(KnownBeyond {
            registers: self.values_added(),
            bytes: self.bytes_added(),
            premises: self.taken,
        })
    }

    fn rule(&self, number: u32, cell: Cell) -> BeyondRule {
        match cell {
            Cell::Register(register) => rule_of(self.inferred.set_rule(number, register)),
            Cell::Byte(address) => self.byte_rule(number, address),
        }
    }

    fn address_named(&self, name: &[u8]) -> Option<u32> {
        self.found.address_named(name)
    }

    fn is_inferred(&self, number: u32, cell: Cell) -> bool {
        let known = match cell {
            Cell::Register(register) => self.found.reg(number, register).is_some(),
            Cell::Byte(address) => self.found.byte(number, address).is_some(),
        };
        if known {
            self.found.is_inferred(number, cell)
        } else {
            true
        }
    }

    fn why(&self, alloc: Global, fact: Fact) -> Result<Option<Reason>, OutOfMemory> {
        self.found.why(alloc, fact)
    }
}

impl<'a, F: Findings, K: KnownPath, P: PathPremises> InferredCrash<'a, F, K, P> {
    /// The rule by which a byte was inferred: a step that is known to have stored it tells its
    /// value.
    fn byte_rule(&self, moment: u32, address: u32) -> BeyondRule
        requires { moment < (F.shown self.now.found.now).moments }
    {
        match self.found.writer(moment, address) {
            Writer::Writes(_) => BeyondRule::Value,
            _ => rule_of(self.inferred.byte_rule(moment, address)),
        }
    }
}

/// A rule, as a session names it.
fn rule_of(rule: NarrowRule) -> BeyondRule {
    match rule {
        NarrowRule::Value => BeyondRule::Value,
        NarrowRule::Call => BeyondRule::Call,
        NarrowRule::Class => BeyondRule::Class,
        NarrowRule::Miss => BeyondRule::Miss,
        NarrowRule::ReadOnly => BeyondRule::ReadOnly,
        NarrowRule::FirstMemory => BeyondRule::FirstMemory,
    }
}
