//! What follows from a path and the dump in which it ends, learnt step by step.
#![tactic(auto, using(rept_timeline::specs::Paths::lawful))]

ghost use Rattle.rept_timeline.specs.Paths.{timeline};
ghost use Rattle.std.specs.Prelude.{◌≡◌, ◌+◌, ◌*◌, ◌<◌, ◌≤◌, ℕ, length, true, false, IsOk, IfOk, OnOk, Some, None, Ok, Err};
ghost use Rattle.rept_dump.specs.Dump.{exe_of, core_of};
ghost use Rattle.rept_reason.specs.declared.fact.Cell.TheVariants.{Register};
ghost use Rattle.rept_reason.specs.Facts.{told, flat};
ghost use Rattle.rept_report.specs.declared.conflict.ConflictKind.{ConflictKind};
ghost use Rattle.rept_report.specs.Conflicts.{IsQuiet};
ghost use Rattle.rept_report.specs.Log.{oldest};
ghost use Rattle.rept_facts.specs.Begun.{ends_told, KnowsEnds, LearnsEndsFirst};
ghost use Rattle.rept_facts.specs.State.{IsLined, path_of, setting_of, state_of};
ghost use Rattle.rept_report.specs.Why.{fact_of};
ghost use Rattle.rept_facts.specs.Kept.{register_answer, answers};
ghost use Rattle.rept_facts.specs.Refined.{KeepsAnswers, KeepsKnown, ShowsTo};
ghost use Rattle.rept_report.specs.Closure.{InClosure, ClosureHas, IsConsistent, IsReport};
ghost use Rattle.rept_report.specs.Soundness.{AlwaysHolds, IsSound, HasNoExecution};
ghost use Rattle.rept_report.specs.Spots.{spot};
ghost use Rattle.rept_report.specs.Timeline.{IsBegun};
ghost use Rattle.rept_report.specs.Writers.{IsWriter};
ghost use Rattle.rept_report.specs.Last.Latest.{IsPossibleWriter};

mod account;
mod answering;
mod counting;
mod inferring;
mod refining;
mod since;
mod stopping;
mod sweeping;
mod why;

use crate::fresh::StepWorklist;
use rept_dump::Dump;
use rept_facts::{CrashFacts, CrashInput, Stop};
use rept_isa::Reg;
use rept_partial::Flat;
use rept_propagate::Propagation;
use rept_reason::RowRules;
use rept_report::{ConflictKind, Writer};
use rept_span::Transfer;
use rept_timeline::RunPaths;
use rept_versions::ByteFacts;
use std::alloc::{AllocError as OutOfMemory, Global};

/// What follows from a path and the dump in which it ends. Its clauses speak of what is known,
/// `propagation.facts`: the table only saves work.
#[derive(Drop)]
pub struct Analysis<'a, B: ByteFacts, W: Transfer, R: RowRules> {
    /// what is known, and where bytes are taken
    pub propagation: Propagation<'a, B, W, R>,
    /// the rows beside which something was learnt since they were looked at
    fresh: StepWorklist,
}

impl<'a, B: ByteFacts, W: Transfer, R: RowRules> Analysis<'a, B, W, R> {
    /// An analysis of a run that ends in a dump. Nothing is known yet. `OutOfMemory` says that its
    /// room can't be had.
    pub fn prepare(
        alloc: Global,
        input: CrashInput<'a, R>,
    ) -> Result<Analysis<'a, B, W, R>, OutOfMemory>
        requires few { (timeline input.paths.now).legs.count ≤ 66560 }
        ensures path { IfOk result (λ a. (a.propagation.facts.paths ≡ input.entry.paths.now) × (a.propagation.facts.last ≡ input.entry.last.now)) }
        ensures memory { IfOk result (λ a. (a.propagation.facts.exe ≡ exe_of input.entry.dump.now) × (a.propagation.facts.core ≡ core_of input.entry.dump.now)) }
        ensures begins { IfOk result (λ a. LearnsEndsFirst (state_of W.sets W.moves R.rules B.store a.propagation.facts)) }
        ensures calm { IfOk result (λ a. a.propagation.facts.conflict ≡ None) }
    {
        match CrashFacts::<'a, B, W, R>::prepare(alloc, input) {
            Ok(facts) => Analysis::<'a, B, W, R>::over(alloc, facts),
            Err(error) => Err(error),
        }
    }

    /// Over these facts, no row of which was looked at yet. `OutOfMemory` says that the room of its
    /// tables can't be had.
    fn over(
        alloc: Global,
        facts: CrashFacts<'a, B, W, R>,
    ) -> Result<Analysis<'a, B, W, R>, OutOfMemory>
        ensures { IfOk result (λ a. a.propagation.facts ≡ facts.entry) }
    {
        let fresh = StepWorklist::new(alloc, facts.end())?;
        match Propagation::<'a, B, W, R>::new(alloc, facts) {
            Ok(propagation) => Ok(Analysis { propagation, fresh }),
            Err(error) => Err(error),
        }
    }

    /// Learns all that follows from the path and the dump. Ok: what the analysis answers is then
    /// the report, exactly the facts of the closure, which has no conflict; another call changes
    /// nothing. `Stop::Conflict`: the closure has this conflict, and another call answers the same
    /// one; `reg` and `byte` then answer the oldest facts that show the conflict, of which no fewer
    /// show any. `Stop::OutOfMemory`: memory ran out, all that was learnt is answered, and another
    /// call goes on from there; this never comes where the store joins bytes that stand side by
    /// side and the moments are one line, since `prepare` took all memory. So it is then Ok exactly
    /// where the closure has no conflict. What was known is known still, and what was answered of
    /// registers is answered still.
    pub fn refine(&mut self) -> Result<(), Stop>
        ensures path { (path_of W.sets W.moves R.rules self.new.propagation.facts) ≡ (path_of W.sets W.moves R.rules self.old.propagation.facts) }
        ensures kept { KeepsAnswers (state_of W.sets W.moves R.rules B.store self.old.propagation.facts) (state_of W.sets W.moves R.rules B.store self.new.propagation.facts) }
        ensures more { KeepsKnown (state_of W.sets W.moves R.rules B.store self.old.propagation.facts) (state_of W.sets W.moves R.rules B.store self.new.propagation.facts) }
        ensures report { OnOk result (IsReport (setting_of W.sets W.moves R.rules self.new.propagation.facts) (answers (state_of W.sets W.moves R.rules B.store self.new.propagation.facts))) }
        ensures complete { OnOk result (self.new.propagation.facts.complete ≡ true) }
        ensures consistent { OnOk result (IsConsistent (setting_of W.sets W.moves R.rules self.old.propagation.facts)) }
        ensures conflict { (kind : ConflictKind) → result ≡ Err (Stop.Conflict kind) → ClosureHas (setting_of W.sets W.moves R.rules self.old.propagation.facts) kind }
        ensures recorded { (kind : ConflictKind) → result ≡ Err (Stop.Conflict kind) → self.new.propagation.facts.conflict ≡ Some kind }

        // How far it is answered after a stop: all facts of the log where memory ran out, and those
        // that show the conflict.
        ensures whole { result ≡ Err Stop.OutOfMemory → self.new.propagation.facts.shown ≡ length self.new.propagation.facts.known.log }
        ensures shown { self.old.propagation.facts.conflict ≡ None → (kind : ConflictKind) → result ≡ Err (Stop.Conflict kind) → ShowsTo (state_of W.sets W.moves R.rules B.store self.new.propagation.facts) self.new.propagation.facts.shown kind }

        // Where the last register values of all threads alone leave no set empty and no turn wrong,
        // all of them are among the facts that are answered after a conflict.
        ensures begins { LearnsEndsFirst (state_of W.sets W.moves R.rules B.store self.old.propagation.facts) → LearnsEndsFirst (state_of W.sets W.moves R.rules B.store self.new.propagation.facts) }
        ensures ends { self.old.propagation.facts.conflict ≡ None → LearnsEndsFirst (state_of W.sets W.moves R.rules B.store self.old.propagation.facts) → IsQuiet (setting_of W.sets W.moves R.rules self.old.propagation.facts) (ends_told (setting_of W.sets W.moves R.rules self.old.propagation.facts)) → (kind : ConflictKind) → result ≡ Err (Stop.Conflict kind) → KnowsEnds (setting_of W.sets W.moves R.rules self.old.propagation.facts) (told (oldest self.new.propagation.facts.shown self.new.propagation.facts.known.log)) }

        // Where the store joins bytes and the moments are one line, no memory is taken: it is Ok
        // exactly where the closure has no conflict.
        ensures joins { B.JOINS ≡ true → IsLined (timeline self.old.propagation.facts.paths) → result ≡ Err Stop.OutOfMemory → ⊥ }
        ensures exact { B.JOINS ≡ true → IsLined (timeline self.old.propagation.facts.paths) → IsConsistent (setting_of W.sets W.moves R.rules self.old.propagation.facts) → IsOk result }
        ensures refused { B.JOINS ≡ true → IsLined (timeline self.old.propagation.facts.paths) → (kind : ConflictKind) → ClosureHas (setting_of W.sets W.moves R.rules self.old.propagation.facts) kind → (named : ConflictKind) × (result ≡ Err (Stop.Conflict named)) }

        // Over all executions of the path that end in the dump.
        ensures sound { OnOk result (IsSound (setting_of W.sets W.moves R.rules self.new.propagation.facts) (answers (state_of W.sets W.moves R.rules B.store self.new.propagation.facts))) }
        ensures impossible { (kind : ConflictKind) → result ≡ Err (Stop.Conflict kind) → HasNoExecution (setting_of W.sets W.moves R.rules self.old.propagation.facts) }

        // It applies the rules of each row at most 12 times: once at first, and once for each of
        // the row's cells that becomes known.
        ensures infers { R.infers self.new.propagation.facts.rules ≤ R.infers self.old.propagation.facts.rules + 12 * (timeline self.old.propagation.facts.paths).legs.count }

        // A second call answers as the first did.
        ensures again { (kind : ConflictKind) → self.old.propagation.facts.conflict ≡ Some kind → (result ≡ Err (Stop.Conflict kind)) × ((state_of W.sets W.moves R.rules B.store self.new.propagation.facts) ≡ (state_of W.sets W.moves R.rules B.store self.old.propagation.facts)) }
        ensures settled { self.old.propagation.facts.complete ≡ true → self.old.propagation.facts.conflict ≡ None → IsOk result × ((state_of W.sets W.moves R.rules B.store self.new.propagation.facts) ≡ (state_of W.sets W.moves R.rules B.store self.old.propagation.facts)) }
    {
        self.propagation.facts.counted();
        let outcome = self.outcome();
        self.propagation.facts.counted();
        outcome
    }

    /// What is known of a register at a point. x0 is 0. Each known value stands in the closure,
    /// also before `refine` and after it answered a stop; after it answered Ok, `Unknown` comes
    /// exactly where the closure has no value.
    pub fn reg(&self, point: u32, r: Reg) -> Flat
        requires point { point ≤ (timeline self.now.propagation.facts.paths).legs.count }
        ensures value { result ≡ flat (register_answer (state_of W.sets W.moves R.rules B.store self.now.propagation.facts) point r) }
        ensures derived { (v : ℕ) → result ≡ Flat.Known v → 0 < r → InClosure (setting_of W.sets W.moves R.rules self.now.propagation.facts) (fact_of point (Register r) v) }
        ensures sound { (v : ℕ) → result ≡ Flat.Known v → AlwaysHolds (setting_of W.sets W.moves R.rules self.now.propagation.facts) point (Register r) v }
    {
        self.propagation.facts.held();
        self.propagation.facts.shown_below(point, r)
    }

    /// What is said of the row that last wrote a byte before a moment. Unless all is learnt, each
    /// row may have written it.
    pub fn writer(&self, moment: u32, a: u32) -> Writer
        requires { moment ≤ (timeline self.now.propagation.facts.paths).moments.end }
        ensures ended { self.now.propagation.facts.complete ≡ true → IsWriter (setting_of W.sets W.moves R.rules self.now.propagation.facts) (answers (state_of W.sets W.moves R.rules B.store self.now.propagation.facts)) (spot moment a) result }
        ensures open { self.now.propagation.facts.complete ≡ false → IsPossibleWriter (timeline self.now.propagation.facts.paths).moments (IsBegun (timeline self.now.propagation.facts.paths) moment) result }
    {
        self.propagation.facts.writer(moment, a)
    }

    /// The rows and moments.
    pub fn paths(&self) -> &RunPaths<'_>
        ensures { result.now ≡ self.now.propagation.facts.paths }
    {
        self.propagation.facts.paths()
    }
}
