//! What a session asks of an analysis that has ended.

ghost use Rattle.rept_timeline.specs.Paths.{timeline};
ghost use Rattle.std.specs.Prelude.{◌≡◌, ◌≤◌, true, Some};
ghost use Rattle.rept_reason.specs.Facts.{register_known};
ghost use Rattle.rept_facts.specs.Kept.{answers};
ghost use Rattle.rept_facts.specs.State.{state_of};

use crate::code::code_byte;
use crate::found::AnalysedCrash;
use crate::places::{place_of, point_of};
use rept_analysis::Analysis;
use rept_elf::Symbol;
use rept_findings::{BeyondRule, Findings, KnownBeyond, ThreadPlace, ThreadPoint};
use rept_isa::{Reg, StepRow};
use rept_moments::NumberedRun;
use rept_partial::{Partial, Range};
use rept_reason::{Cell, Fact, Reason, RowRules};
use rept_report::{Counts, Writer, bounds};
use rept_span::Transfer;
use rept_versions::ByteFacts;
use rept_word::OutOfMemory;
use std::alloc::Global;

impl<'a, W: Transfer, R: RowRules> AnalysedCrash<'a, W, R> {
    ghost use Rattle.std.specs.Prelude.{◌<◌, ◌≤◌, length};
    ghost use Rattle.rept_moments.specs.Courses.{seen_in, IsCourseOf};
    ghost use Rattle.rept_moments.specs.Points.{points_in};
    ghost use Rattle.rept_report.specs.Moments.{AreMoments};
    ghost use Rattle.rept_facts.specs.Kept.{answers};
    ghost use Rattle.rept_found.specs.Telling.{shown_on};
    ghost use Rattle.rept_found.specs.Crash.{means};
    ghost use Rattle.rept_found.specs.View.{scene_in, set_in, state_in, trip_in};

    /// The rows and moments of the run, by their numbers.
    fn course(&self) -> &NumberedRun<'a>
        ensures course { IsCourseOf self.now.ends.course result.now }
        ensures laws { AreMoments (seen_in result.now).legs (seen_in result.now).moments }
        ensures some { 0 < length self.now.ends.course.threads }
        ensures few { points_in self.now.ends.course ≤ 66560 }
    {
        self.ends.account();
        self.paths.ways().course()
    }

    /// The set of values that is left of a register at a point.
    pub fn set(&self, point: u32, register: Reg) -> W
        requires { point < (shown_on (trip_in (means W.sets W.moves R.rules) self.now) (answers (state_in (means W.sets W.moves R.rules) self.now)) (scene_in self.now)).points }
        ensures { set_in (means W.sets W.moves R.rules) self.now point register ≡ Some result }
    {
        self.analysis.range(point, register)
    }
}

impl<'a, W: Transfer, R: RowRules> Findings for AnalysedCrash<'a, W, R> {
    ghost use Rattle.rept_report.specs.Why.{IsReason};
    ghost use Rattle.rept_facts.specs.Kept.{answers};
    ghost use Rattle.rept_found.specs.Trip.Trip.{setting_on};
    ghost use Rattle.rept_found.specs.Telling.{shown_on};
    ghost use Rattle.rept_found.specs.Crash.{means};
    ghost use Rattle.rept_found.specs.View.{scene_in, state_in, trip_in};

    ghost shown = { λ f. shown_on (trip_in (means W.sets W.moves R.rules) f) (answers (state_in (means W.sets W.moves R.rules) f)) (scene_in f) };

    ghost reasons = { λ f fact why. IsReason (setting_on (trip_in (means W.sets W.moves R.rules) f)) (state_in (means W.sets W.moves R.rules) f).known.log fact why };

    fn threads(&self) -> u32 {
        self.course().threads()
    }

    fn process(&self, thread: u32) -> u32 {
        self.ends.status(thread).pid
    }

    fn rows(&self, thread: u32) -> &[StepRow] {
        self.ends.rows(thread)
    }

    fn end_pc(&self, thread: u32) -> u32 {
        self.ends.status(thread).pc
    }

    fn first(&self, thread: u32) -> u32 {
        self.course().first(thread)
    }

    fn points(&self) -> u32 {
        self.course().last_point() + 1
    }

    fn point(&self, number: u32) -> ThreadPoint {
        point_of(self.course(), number)
    }

    fn moment(&self, point: u32) -> u32 {
        self.course().moment_at(point)
    }

    fn place(&self, moment: u32) -> ThreadPlace {
        place_of(self.course(), moment)
    }

    fn reg(&self, point: u32, register: Reg) -> Option<u32> {
        known_register(&self.analysis, point, register)
    }

    fn range(&self, point: u32, register: Reg) -> Range {
        bounds(self.analysis.range(point, register))
    }

    fn note(&self, point: u32, register: Reg) -> Option<(u32, u32)> {
        self.analysis.range(point, register).note()
    }

    fn byte(&self, moment: u32, address: u32) -> Option<u8> {
        self.analysis.byte(moment, address)
    }

    fn code(&self, address: u32) -> Option<u8> {
        code_byte(self.ends.run(), self.dump, address)
    }

    fn writer(&self, moment: u32, address: u32) -> Writer {
        self.analysis.writer(moment, address)
    }

    fn counts(&self) -> Counts {
        self.analysis.counts()
    }

    fn symbols(
        &self,
        alloc: Global,
        addresses: &[u32],
    ) -> Result<Vec<Option<Symbol<'_>>>, OutOfMemory> {
        self.dump.symbols(alloc, addresses)
    }

    fn beyond(&self) -> Option<KnownBeyond> {
        None
    }

    fn rule(&self, _number: u32, _cell: Cell) -> BeyondRule {
        BeyondRule::Value
    }

    fn address_named(&self, name: &[u8]) -> Option<u32> {
        self.dump.address_named(name)
    }

    fn is_inferred(&self, _number: u32, _cell: Cell) -> bool {
        false
    }

    fn why(&self, alloc: Global, fact: Fact) -> Result<Option<Reason>, OutOfMemory> {
        self.analysis.why(alloc, fact)
    }
}

/// What an analysis that has ended knows of a register at a point.
fn known_register<B: ByteFacts, W: Transfer, R: RowRules>(
    analysis: &Analysis<'_, B, W, R>,
    point: u32,
    register: Reg,
) -> Option<u32>
    requires { point ≤ (timeline analysis.now.propagation.facts.paths).legs.count }
    ensures { analysis.now.propagation.facts.complete ≡ true → result ≡ register_known (answers (state_of W.sets W.moves R.rules B.store analysis.now.propagation.facts)) point register }
{
    analysis.account();
    analysis.reg(point, register).as_exact()
}
