//! An analysis that has ended.

ghost use Rattle.rept_timeline.specs.Paths.{timeline};
ghost use Rattle.std.specs.Prelude.{◌≡◌, true, IfOk, IsOk, Err};
ghost use Rattle.rept_report.specs.Closure.{ClosureHas, IsConsistent, IsReport};
ghost use Rattle.rept_report.specs.Soundness.{HasNoExecution};
ghost use Rattle.rept_report.specs.declared.conflict.ConflictKind.{ConflictKind};
ghost use Rattle.rept_found.specs.Trip.Executed.{HasNoHistory};
ghost use Rattle.rept_found.specs.Trip.Trip.{setting_on};
ghost use Rattle.rept_facts.specs.Kept.{answers};
ghost use Rattle.rept_analysis.specs.Logged.{IsLogOf};
ghost use Rattle.rept_facts.specs.State.{IsLined, path_of, setting_of, state_of};
ghost use Rattle.rept_found.specs.Crash.{means};
ghost use Rattle.rept_found.specs.View.{IsFoundIn, scene_in, trip_in};

use crate::prepared::Prepared;
use rept_analysis::Analysis;
use rept_dump::Dump;
use rept_facts::Stop;
use rept_reason::RowRules;
use rept_span::Transfer;
use rept_timeline::{RunPaths, ThreadEnds};
use rept_versions::{ByteFacts, SpanFacts};
use std::marker::Model;

/// What an analysis found out: the report of a run and the dump in which it ends, by one kind of
/// sets of values and of rules.
#[derive(Drop)]
pub struct AnalysedCrash<'a, W: Transfer, R: RowRules> {
    pub(crate) analysis: Analysis<'a, SpanFacts, W, R>,
    pub(crate) paths: &'a RunPaths<'a>,
    pub(crate) ends: &'a ThreadEnds<'a>,
    pub(crate) dump: &'a Dump<'a>,
}

impl<'a, W: Transfer, R: RowRules> Model for AnalysedCrash<'a, W, R> {
    ghost use Rattle.std.specs.Prelude.{◌≡◌, true};
    ghost use Rattle.rept_dump.specs.Dump.{exe_of, core_of};
    ghost use Rattle.rept_moments.specs.Courses.{IsCourseOf};
    ghost use Rattle.rept_found.specs.View.{CrashView, IsOfRun};

    ghost Value = { CrashView W R };

    ghost view = { λ f. record { analysis = f.analysis.propagation.facts; ends = f.ends.now; program = exe_of f.dump.now; core = core_of f.dump.now } };

    ghost invariant = { λ f. (f.analysis.propagation.facts.complete ≡ true) × IsOfRun (record { analysis = f.analysis.propagation.facts; ends = f.ends.now; program = exe_of f.dump.now; core = core_of f.dump.now }) × IsCourseOf f.ends.now.course f.paths.now.ways };
}

/// Learns all that follows. Where each moment leads on to the one of the next number alone, as of
/// one thread in one slice, all of which is told, that takes no memory: it is Ok exactly where the
/// closure of the rules has no conflict. Of any other run memory may run out. A conflict that is
/// told is one of the closure, and then no execution of all threads ends in the dump.
pub fn search<'a, W: Transfer, R: RowRules>(
    prepared: Prepared<'a, W, R>,
) -> Result<AnalysedCrash<'a, W, R>, Stop>
    ensures found { IfOk result (IsFoundIn (means W.sets W.moves R.rules) (trip_in (means W.sets W.moves R.rules) prepared.entry) (scene_in prepared.entry)) }
    ensures conflict { (kind : ConflictKind) → result ≡ Err (Stop.Conflict kind) → ClosureHas (setting_on (trip_in (means W.sets W.moves R.rules) prepared.entry)) kind }
    ensures impossible { (kind : ConflictKind) → result ≡ Err (Stop.Conflict kind) → HasNoHistory (trip_in (means W.sets W.moves R.rules) prepared.entry) }
    ensures whole { IsLined (timeline prepared.entry.analysis.paths) → result ≡ Err Stop.OutOfMemory → ⊥ }
    ensures exact { IsLined (timeline prepared.entry.analysis.paths) → IsConsistent (setting_on (trip_in (means W.sets W.moves R.rules) prepared.entry)) → IsOk result }
{
    let Prepared {
        analysis,
        paths,
        ends,
        dump,
    } = prepared;
    match refined(analysis) {
        Ok(analysis) => Ok(AnalysedCrash {
            analysis,
            paths,
            ends,
            dump,
        }),
        Err(stop) => Err(stop),
    }
}

/// The analysis when all that follows is learnt. Where learning stops, it is let go.
fn refined<'a, B: ByteFacts, W: Transfer, R: RowRules>(
    analysis: Analysis<'a, B, W, R>,
) -> Result<Analysis<'a, B, W, R>, Stop>
    ensures path { IfOk result (λ a. path_of W.sets W.moves R.rules a.propagation.facts ≡ path_of W.sets W.moves R.rules analysis.entry.propagation.facts) }
    ensures complete { IfOk result (λ a. a.propagation.facts.complete ≡ true) }
    ensures report { IfOk result (λ a. IsReport (setting_of W.sets W.moves R.rules a.propagation.facts) (answers (state_of W.sets W.moves R.rules B.store a.propagation.facts))) }
    ensures log { IfOk result (λ a. IsLogOf (setting_of W.sets W.moves R.rules a.propagation.facts) (answers (state_of W.sets W.moves R.rules B.store a.propagation.facts)) a.propagation.facts.known.log) }
    ensures conflict { (kind : ConflictKind) → result ≡ Err (Stop.Conflict kind) → ClosureHas (setting_of W.sets W.moves R.rules analysis.entry.propagation.facts) kind }
    ensures impossible { (kind : ConflictKind) → result ≡ Err (Stop.Conflict kind) → HasNoExecution (setting_of W.sets W.moves R.rules analysis.entry.propagation.facts) }
    ensures joins { B.JOINS ≡ true → IsLined (timeline analysis.entry.propagation.facts.paths) → result ≡ Err Stop.OutOfMemory → ⊥ }
    ensures exact { B.JOINS ≡ true → IsLined (timeline analysis.entry.propagation.facts.paths) → IsConsistent (setting_of W.sets W.moves R.rules analysis.entry.propagation.facts) → IsOk result }
{
    let mut analysis = analysis;
    match analysis.refine() {
        Ok(()) => {
            analysis.account();
            Ok(analysis)
        }
        Err(stop) => Err(stop),
    }
}
