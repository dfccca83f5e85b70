//! How much an analysis answers.
#![tactic(auto, using(rept_timeline::specs::Paths::lawful))]

ghost use Rattle.rept_timeline.specs.Paths.{timeline};
ghost use Rattle.std.specs.Prelude.{◌≡◌, ◌+◌, ◌*◌, ◌<◌, ◌≤◌, true, is_some};
ghost use Rattle.rept_reason.specs.Facts.{told};
ghost use Rattle.rept_report.specs.Log.{oldest};
ghost use Rattle.rept_facts.specs.State.{setting_of, state_of};
ghost use Rattle.rept_facts.specs.Kept.{answers};
ghost use Rattle.rept_isa.specs.Operands.{is_call};
ghost use Rattle.rept_facts.specs.Counts.{base_of, is_store, row_is, rows_below, calls_below, stores_below, known_at, known_below, IsCounted};

use super::Analysis;
use rept_isa::{Instr, Reg, is_call, reads, register};
use rept_reason::RowRules;
use rept_report::Counts;
use rept_span::Transfer;
use rept_versions::ByteFacts;

/// The register of a store's base.
fn base(instr: &Instr) -> Option<Reg>
    ensures { result ≡ base_of instr.now }
{
    match *instr {
        Instr::Store { .. } => reads(instr).0,
        _ => None,
    }
}

impl<'a, B: ByteFacts, W: Transfer, R: RowRules> Analysis<'a, B, W, R> {
    /// How many registers other than x0 are answered at a point.
    fn told_at(&self, point: u32) -> u32
        requires { point ≤ (timeline self.now.propagation.facts.paths).legs.count }
        ensures value { result ≡ known_at (told (oldest self.now.propagation.facts.shown self.now.propagation.facts.known.log)) point 32 }
        ensures few { result ≤ 32 }
    {
        let mut sum = 0;
        for r in 0..32u8 {
            if self.propagation.facts.is_told(point, register(r)) {
                sum += 1;
            }
        }
        sum
    }

    /// How many are at all points.
    fn told(&self) -> u32
        ensures { result ≡ known_below (told (oldest self.now.propagation.facts.shown self.now.propagation.facts.known.log)) ((timeline self.now.propagation.facts.paths).legs.count + 1) }
    {
        let count = self.propagation.facts.count();
        let mut sum = 0;
        for point in 0..count + 1 {
            sum += self.told_at(point);
        }
        sum
    }

    /// Whether a row leads from a point.
    fn is_row(&self, i: u32) -> bool
        ensures { result ≡ is_some ((timeline self.now.propagation.facts.paths).legs.row i) }
    {
        self.propagation.facts.row(i).is_some()
    }

    /// How many rows there are.
    fn steps(&self) -> u32
        ensures { result ≡ rows_below (timeline self.now.propagation.facts.paths).legs ((timeline self.now.propagation.facts.paths).legs.count) }
    {
        let count = self.propagation.facts.count();
        let mut sum = 0;
        for i in 0..count {
            if self.is_row(i) {
                sum += 1;
            }
        }
        sum
    }

    /// Whether row i, if there is one, is an environment call.
    fn is_call_row(&self, i: u32) -> bool
        ensures { result ≡ row_is ((timeline self.now.propagation.facts.paths).legs.row i) is_call }
    {
        match self.propagation.facts.row(i) {
            None => false,
            Some(row) => is_call(&row.instr),
        }
    }

    /// How many rows are environment calls.
    fn calls(&self) -> u32
        ensures { result ≡ calls_below (timeline self.now.propagation.facts.paths).legs ((timeline self.now.propagation.facts.paths).legs.count) }
    {
        let count = self.propagation.facts.count();
        let mut sum = 0;
        for i in 0..count {
            if self.is_call_row(i) {
                sum += 1;
            }
        }
        sum
    }

    /// Whether row i is a store whose base is known, or isn't.
    fn is_store(&self, known: bool, i: u32) -> bool
        requires { i < (timeline self.now.propagation.facts.paths).legs.count }
        ensures { result ≡ row_is ((timeline self.now.propagation.facts.paths).legs.row i) (is_store known (told (oldest self.now.propagation.facts.shown self.now.propagation.facts.known.log)) i) }
    {
        match self.propagation.facts.row(i) {
            None => false,
            Some(row) => match base(&row.instr) {
                Some(r) => self.propagation.facts.is_base_known(i, r) == known,
                None => false,
            },
        }
    }

    /// How many rows are such stores.
    fn stores(&self, known: bool) -> u32
        ensures { result ≡ stores_below (timeline self.now.propagation.facts.paths).legs (told (oldest self.now.propagation.facts.shown self.now.propagation.facts.known.log)) known ((timeline self.now.propagation.facts.paths).legs.count) }
    {
        let count = self.propagation.facts.count();
        let mut sum = 0;
        for i in 0..count {
            if self.is_store(known, i) {
                sum += 1;
            }
        }
        sum
    }

    /// How many rows there are, of which kind, and how much is answered.
    pub fn counts(&self) -> Counts
        ensures shown { IsCounted (setting_of W.sets W.moves R.rules self.now.propagation.facts) (told (oldest self.now.propagation.facts.shown self.now.propagation.facts.known.log)) result }
        ensures ended { self.now.propagation.facts.complete ≡ true → IsCounted (setting_of W.sets W.moves R.rules self.now.propagation.facts) (answers (state_of W.sets W.moves R.rules B.store self.now.propagation.facts)) result }
    {
        // for the proof alone
        let _ended = self.propagation.facts.ended();
        Counts {
            steps: self.steps(),
            calls: self.calls(),
            registers: self.told(),
            exact: self.stores(true),
            inexact: self.stores(false),
        }
    }
}
