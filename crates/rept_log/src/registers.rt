//! Reasons of registers' values that rest on registers alone, in a prefix of a log.

ghost use Rattle.rept_timeline.specs.Paths.{timeline};
ghost use Rattle.std.specs.Prelude.{◌≡◌, ◌+◌, ◌<◌, ◌≤◌, ◌^◌, ◌↔◌, ℕ, length, Some, IsSome, IsTrue};
ghost use Rattle.rept_dump.specs.Dump.{exe_of, core_of};
ghost use Rattle.rept_reason.specs.declared.fact.Cell.TheVariants.{Register};
ghost use Rattle.rept_reason.specs.Facts.{told, flat, register_known};
ghost use Rattle.rept_report.specs.Setting.{HasLaws};
ghost use Rattle.rept_report.specs.Conclusions.{HasWords};
ghost use Rattle.rept_report.specs.Log.{oldest};
ghost use Rattle.rept_timeline.specs.Ends.{last_values_in};
ghost use Rattle.rept_log.specs.Fronts.{basis_of, front_of, setting_in};

mod own;
mod rows;

use crate::fact_log::FactLog;
use crate::fact_log::comparing::has;
use rept_dump::Dump;
use rept_isa::{Reg, StepRow};
use rept_partial::Flat;
use rept_reason::RowRules;
use rept_span::Transfer;
use rept_timeline::{RunPaths, ThreadEnds};
use rept_versions::ByteFacts;
use std::marker::{Model, PhantomData};

/// What the facts of a log at places below a limit tell of registers.
#[derive(Drop)]
pub struct RegisterFront<'k, 'd, B: ByteFacts, W: Transfer, R: RowRules> {
    facts: &'k FactLog<B>,
    paths: &'k RunPaths<'k>,
    last: &'k ThreadEnds<'k>,
    dump: &'k Dump<'d>,
    limit: u32,
    sets: PhantomData<W>,
    rules: PhantomData<R>,
}

impl<'k, 'd, B: ByteFacts, W: Transfer, R: RowRules> Model for RegisterFront<'k, 'd, B, W, R> {
    ghost use Rattle.rept_timeline.specs.Paths.{timeline};
    ghost use Rattle.rept_dump.specs.Dump.{exe_of, core_of};
    ghost use Rattle.rept_reason.specs.Facts.{told};
    ghost use Rattle.rept_report.specs.Conclusions.{HasWords};
    ghost use Rattle.rept_report.specs.Log.{oldest};
    ghost use Rattle.std.specs.Prelude.{◌≡◌};
    ghost use Rattle.rept_log.specs.Fronts.{Stored};

    ghost Value = { Stored };

    ghost view = { λ f. record { paths = f.paths.now; last = f.last.now; exe = exe_of f.dump.now; core = core_of f.dump.now; facts = oldest f.limit f.facts.now.log } };

    ghost invariant = { λ f. (f.facts.now.last ≡ (timeline f.paths.now).legs.count) × HasWords (told (oldest f.limit f.facts.now.log)) };
}

impl<'k, 'd, B: ByteFacts, W: Transfer, R: RowRules> RegisterFront<'k, 'd, B, W, R> {
    /// The facts at places below the limit, on these rows, which end in these register values and
    /// this dump.
    pub fn new(
        facts: &'k FactLog<B>,
        limit: u32,
        paths: &'k RunPaths<'k>,
        last: &'k ThreadEnds<'k>,
        dump: &'k Dump<'d>,
    ) -> RegisterFront<'k, 'd, B, W, R>
        requires last { facts.now.last ≡ (timeline paths.now).legs.count }
        requires words { HasWords (told (oldest limit facts.now.log)) }
        ensures { result ≡ record { paths = paths.now; last = last.now; exe = exe_of dump.now; core = core_of dump.now; facts = oldest limit facts.now.log } }
    {
        RegisterFront {
            facts,
            paths,
            last,
            dump,
            limit,
            sets: PhantomData,
            rules: PhantomData,
        }
    }

    /// The last point of all.
    fn count(&self) -> u32
        ensures value { result ≡ (timeline self.now.paths).legs.count }
        ensures few { result ≤ 66560 }
        ensures words { (p r v : ℕ) → told self.now.facts p (Register r) ≡ Some v → v < 2 ^ 32 }
        ensures inside { (i : ℕ) → IsSome ((timeline self.now.paths).legs.row i) → i < result }
        ensures laws { HasLaws (setting_in (front_of W.sets W.moves R.rules (basis_of self.now))) }
    {
        self.paths.last_point()
    }

    /// The row that leads from a point, if one does.
    fn row(&self, point: u32) -> Option<StepRow>
        ensures { result ≡ (timeline self.now.paths).legs.row point }
    {
        self.paths.row(point)
    }

    /// Whether a register has this value at a last point.
    fn is_last(&self, point: u32, r: Reg, value: u32) -> bool
        ensures { IsTrue result ↔ (last_values_in self.now.last point r ≡ Some value) }
    {
        has(self.last.value(point, r), value)
    }

    /// What is known of a register at a point.
    fn known(&self, point: u32, r: Reg) -> Flat
        requires { point ≤ (timeline self.now.paths).legs.count }
        ensures value { result ≡ flat (register_known (told self.now.facts) point r) }
        ensures in_file { r < 32 }
    {
        self.facts.known_below(self.limit, point, r)
    }
}
