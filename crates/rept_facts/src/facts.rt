//! What is known of a run and the dump in which it ends, and what one fact more does.
//!
//! A line such as `let _paths = self.paths;` or `let _count = self.count();`, here and in the
//! modules below, changes nothing: what always holds of a field (the invariant of its type), or
//! what a call ensures, can be cited in a proof only where the code has read it.
ghost use Rattle.rept_timeline.specs.Paths.{timeline};
ghost use Rattle.std.specs.Prelude.{◌≡◌, ◌+◌, ◌*◌, ◌<◌, ◌≤◌, ℕ, length, false, IfOk, IfSome, IsSome, Some, None, Ok, slice_get, ◌==◌, ◌↔◌, IsTrue};
ghost use Rattle.rept_isa.specs.declared.row.StepRow.{StepRow};
ghost use Rattle.rept_dump.specs.Dump.{exe_of, core_of};
ghost use Rattle.rept_reason.specs.Facts.{told, flat, register_known};
ghost use Rattle.rept_span.specs.Filled.{entry_at};
ghost use Rattle.rept_dump.specs.Memory.{crash_byte};
ghost use Rattle.rept_dump.specs.Program.{contents};
ghost use Rattle.rept_log.specs.Compared.{IsNextDiffering};
ghost use Rattle.rept_report.specs.declared.conflict.ConflictKind.{ConflictKind};
ghost use Rattle.rept_facts.specs.Begun.{LearnsEndsFirst};
ghost use Rattle.rept_facts.specs.State.{given_of, state_of};
ghost use Rattle.rept_report.specs.Views.{moment_of};
ghost use Rattle.rept_facts.specs.Kept.{IsKept, register_answer};
ghost use Rattle.rept_facts.specs.Sums.{sum_to};
ghost use Rattle.rept_facts.specs.Room.{places_of};
ghost use Rattle.rept_versions.specs.Facts.{Nexts};

mod applying;
mod asking;
mod cells;
mod ending;
mod fronts;
mod guessing;
mod latest;
mod learning;
mod listing;
mod looking;
mod since;
mod ways;
mod writes;

use crate::CrashInput;
use crate::tables::AnalysisTables;
use rept_dump::Dump;
use rept_isa::{Reg, StepRow};
use rept_log::FactLog;
use rept_partial::Flat;
use rept_reason::{RowRules, When};
use rept_report::ConflictKind;
use rept_span::{Spans, Transfer};
use rept_timeline::{RunPaths, ThreadEnds};
use rept_versions::{ByteFacts, ValueStretch};
use rept_writing::{RuleProgress, StoreIndex};
use std::alloc::{AllocError as OutOfMemory, Global};
use std::marker::Model;

/// What is known of a run and the dump in which it ends.
#[derive(Drop)]
pub struct CrashFacts<'a, B: ByteFacts, W: Transfer, R: RowRules> {
    /// where memory is taken
    alloc: Global,
    /// the rows and moments of the run
    paths: &'a RunPaths<'a>,
    /// the register values at the last point of each thread
    last: &'a ThreadEnds<'a>,
    /// the program and the memory at the end
    dump: Dump<'a>,
    /// the facts that were learnt, in their order
    known: FactLog<B>,
    /// the sets of the registers at each point, by the first `filled` of these facts
    spans: Spans<W>,
    /// how many of the facts the sets are of
    filled: u32,
    /// what rows let one conclude
    rules: R,
    /// how many of the facts are answered, from the first one on
    shown: u32,
    /// whether all that follows was learnt
    complete: bool,
    /// the conflict that was found, if one was
    conflict: Option<ConflictKind>,
    /// the rows that may write, and what each may
    writing: StoreIndex,
    /// how far the rules of each row were applied
    inferred: RuleProgress,
    /// whether a row was put in the list anew since the last store of unknown address that was
    /// looked at
    is_freed: bool,
    /// whether one was since the last pass over all rows began
    has_put: bool,
}

impl<'a, B: ByteFacts, W: Transfer, R: RowRules> Model for CrashFacts<'a, B, W, R> {
    ghost use Rattle.rept_dump.specs.Dump.{exe_of, core_of};
    ghost use Rattle.rept_facts.specs.State.{Whole, state_of};
    ghost use Rattle.rept_facts.specs.Kept.{IsKept};
    ghost use Rattle.rept_facts.specs.Work.{work_of};

    ghost Value = { Whole B W R };

    ghost view = { λ a. record { paths = a.paths.now; last = a.last.now; exe = exe_of a.dump; core = core_of a.dump; known = a.known; spans = a.spans; filled = a.filled; rules = a.rules; shown = a.shown; complete = a.complete; conflict = a.conflict; work = work_of B.JOINS (R.infers a.rules) a.writing a.inferred } };

    ghost invariant = { λ a. IsKept (state_of W.sets W.moves R.rules B.store (record { paths = a.paths.now; last = a.last.now; exe = exe_of a.dump; core = core_of a.dump; known = a.known; spans = a.spans; filled = a.filled; rules = a.rules; shown = a.shown; complete = a.complete; conflict = a.conflict; work = work_of B.JOINS (R.infers a.rules) a.writing a.inferred })) };
}

/// How many bytes the row that leads from a point, if one does, lets one conclude at most.
fn row_places<R: RowRules>(paths: &RunPaths<'_>, point: u32) -> u32
    ensures value { result ≡ places_of R.rules ((timeline paths.now).legs.row point) }
    ensures few { result ≤ 8 }
{
    match paths.row(point) {
        None => 0,
        Some(row) => R::places(&row),
    }
}

/// How many bytes the rows let one conclude at most.
fn access_bytes<R: RowRules>(paths: &RunPaths<'_>) -> u32
    requires { (timeline paths.now).legs.count ≤ 66560 }
    ensures few { result ≤ 532480 }
    ensures sum { result ≡ sum_to (λ i. places_of R.rules ((timeline paths.now).legs.row i)) (timeline paths.now).legs.count }
{
    let mut sum = 0;
    for point in 0..paths.last_point() {
        sum += row_places::<R>(paths, point);
    }
    sum
}

impl<'a, B: ByteFacts, W: Transfer, R: RowRules> CrashFacts<'a, B, W, R> {
    /// What is known of a run that ends in a dump: nothing yet. `OutOfMemory` says that its room
    /// can't be had.
    pub fn prepare(
        alloc: Global,
        input: CrashInput<'a, R>,
    ) -> Result<CrashFacts<'a, B, W, R>, OutOfMemory>
        requires few { (timeline input.paths.now).legs.count ≤ 66560 }
        ensures path { IfOk result (λ a. (a.paths ≡ input.entry.paths.now) × (a.last ≡ input.entry.last.now)) }
        ensures memory { IfOk result (λ a. (a.exe ≡ exe_of input.entry.dump.now) × (a.core ≡ core_of input.entry.dump.now)) }
        ensures begins { IfOk result (λ a. LearnsEndsFirst (state_of W.sets W.moves R.rules B.store a)) }
        ensures calm { IfOk result (λ a. a.conflict ≡ None) }
    {
        let CrashInput {
            paths,
            last,
            dump,
            rules,
        } = input;
        last.account();
        let bytes = access_bytes::<R>(paths);
        let count = paths.last_point();
        let tables = AnalysisTables::new(alloc, count, paths.end(), bytes)?;
        let AnalysisTables {
            known,
            spans,
            writing,
            inferred,
        } = tables;
        Ok(CrashFacts {
            alloc,
            paths,
            last,
            dump: *dump,
            known,
            spans,
            filled: 0,
            rules,
            shown: 0,
            complete: false,
            conflict: None,
            writing,
            inferred,
            is_freed: false,
            has_put: false,
        })
    }

    /// The last point of all.
    pub fn count(&self) -> u32
        ensures value { result ≡ (timeline self.now.paths).legs.count }
        ensures few { result ≤ 66560 }
        ensures last { self.now.known.last ≡ (timeline self.now.paths).legs.count }
        ensures sized { self.now.spans.points ≡ (timeline self.now.paths).legs.count + 1 }
        ensures filled { self.now.filled ≤ length self.now.known.log }
    {
        self.paths.last_point()
    }

    /// The number of the end.
    pub fn end(&self) -> u32
        ensures value { result ≡ (timeline self.now.paths).moments.end }
    {
        self.paths.end()
    }

    /// The number of the moment before or after a row.
    pub fn moment_at(&self, row: u32, when: When) -> u32
        requires { IsSome ((timeline self.now.paths).legs.row row) }
        ensures value { result ≡ moment_of (timeline self.now.paths).moments row when }
        ensures early { result ≤ (timeline self.now.paths).moments.end }
    {
        match when {
            When::Before => self.paths.before(row),
            When::After => self.paths.after(row),
        }
    }

    /// The row that leads from a point, if one does.
    pub fn row(&self, i: u32) -> Option<StepRow>
        ensures row { result ≡ (timeline self.now.paths).legs.row i }
        ensures inside { IfSome result (λ _. i < (timeline self.now.paths).legs.count) }
    {
        self.paths.row(i)
    }

    /// The value of a register at the last point of a thread, if it has one.
    pub fn last_value(&self, point: u32, r: Reg) -> Option<u32>
        ensures { result ≡ (given_of self.now).last point r }
    {
        self.last.value(point, r)
    }

    /// How many facts there are in the log.
    pub fn len(&self) -> u32
        ensures value { result ≡ length self.now.known.log }
    {
        self.known.len()
    }

    /// What is known of a register at a point.
    pub fn known(&self, point: u32, r: Reg) -> Flat
        requires point { point ≤ (timeline self.now.paths).legs.count }
        ensures value { result ≡ flat (register_known (told self.now.known.log) point r) }
        ensures in_file { r < 32 }
    {
        // for the proof alone
        let _paths = self.paths;
        self.known.known(point, r)
    }

    /// The first register from one on, other than x0, of which not the same is known at a point and
    /// at the one after it, if there is one.
    pub fn next_differing(&self, point: u32, least: u8) -> Option<Reg>
        requires point { point < (timeline self.now.paths).legs.count }
        requires named { 0 < least }
        ensures { IsNextDiffering self.now.known.log point least result }
    {
        // for the proof alone
        let _paths = self.paths;
        self.known.next_differing(point, least)
    }

    /// What is known of a byte at a point, or nothing where it isn't tracked.
    pub fn known_byte(&self, point: u32, a: u32) -> Option<u8>
        ensures { result ≡ (B.store self.now.known.bytes).fact point a }
    {
        self.known.byte(point, a)
    }

    /// What always holds.
    pub fn held(&self)
        ensures { IsKept (state_of W.sets W.moves R.rules B.store self.now) }
    {
        // for the proof alone
        let _paths = self.paths;
    }

    /// How many addresses are tracked.
    pub fn tracked_count(&self) -> usize
        ensures { result ≡ length (B.store self.now.known.bytes).tracked }
    {
        self.known.count()
    }

    /// The tracked address at an index.
    pub fn address(&self, k: usize) -> u32
        requires { k < length (B.store self.now.known.bytes).tracked }
        ensures { slice_get (B.store self.now.known.bytes).tracked k ≡ Some result }
    {
        self.known.address(k)
    }

    /// The byte of the dump at an address.
    pub fn dump_byte(&self, a: u32) -> Option<u8>
        ensures { result ≡ crash_byte (contents self.now.exe) self.now.core a }
    {
        self.dump.byte(a)
    }

    /// The byte of the dump at an address, after which those near it are found at once.
    pub fn last_byte(&mut self, a: u32) -> Option<u8>
        ensures byte { result ≡ crash_byte (contents self.old.exe) self.old.core a }
        ensures same { self.new ≡ self.old }
    {
        self.dump = self.dump.near_byte(a);
        self.dump.byte(a)
    }

    /// The set of a register, as the sets were filled.
    fn span(&self, point: u32, r: Reg) -> W
        requires point { point ≤ (timeline self.now.paths).legs.count }
        ensures { entry_at self.now.spans point r ≡ Some result }
    {
        // for the proof alone
        let _paths = self.paths;
        self.spans.at(point, r)
    }

    /// What is known of a register at a point by the facts that are answered.
    pub fn shown_below(&self, point: u32, r: Reg) -> Flat
        requires point { point ≤ (timeline self.now.paths).legs.count }
        ensures { result ≡ flat (register_answer (state_of W.sets W.moves R.rules B.store self.now) point r) }
    {
        // for the proof alone
        let _paths = self.paths;
        self.known.known_below(self.shown, point, r)
    }

    /// How often rules were applied is so of the rules that are kept, and whether bytes that stand
    /// side by side are joined is so of the store.
    pub fn counted(&self)
        ensures infers { self.now.work.infers ≡ R.infers self.now.rules }
        ensures joins { self.now.work.joins ≡ B.JOINS }
    {
        // for the proof alone
        let _paths = self.paths;
    }

    /// The rows and moments.
    pub fn paths(&self) -> &RunPaths<'_>
        ensures { result.now ≡ self.now.paths }
    {
        self.paths
    }

    /// Whether all is learnt.
    pub fn ended(&self) -> bool
        ensures value { result ≡ self.now.complete }
        ensures kept { IsKept (state_of W.sets W.moves R.rules B.store self.now) }
    {
        self.complete
    }

    /// The conflict that was found, if one was.
    pub fn found_conflict(&self) -> Option<ConflictKind>
        ensures value { result ≡ self.now.conflict }
        ensures kept { IsKept (state_of W.sets W.moves R.rules B.store self.now) }
    {
        self.conflict
    }

    /// The first stretch of a byte that ends at a point or later.
    pub fn stretch(&self, a: u32, point: u32) -> Option<ValueStretch>
        ensures { Nexts (B.store self.now.known.bytes).fact a point result }
    {
        self.known.next_stretch(a, point)
    }

    /// Whether this is the first round: the sets are those of no facts. The addresses of most
    /// stores become known in it, so that bytes are carried only after it, and not in pieces.
    pub fn is_first_round(&self) -> bool
        ensures { IsTrue result ↔ (self.now.filled ≡ 0) }
    {
        self.filled == 0
    }
}
