//! An analysis that has the memory with which it begins.

ghost use Rattle.std.specs.Prelude.{◌≡◌, ℕ, List, length, IfOk};
ghost use Rattle.rept_dump.specs.Dump.{exe_of};
ghost use Rattle.rept_steps.specs.Course.{IsSoundCourse};
ghost use Rattle.rept_moments.specs.Courses.{IsCourseOf};
ghost use Rattle.rept_found.specs.Crash.{crash_of, means, route, scene_of};
ghost use Rattle.rept_timeline.specs.Ends.{AreNoted};
ghost use Rattle.rept_found.specs.View.{IsPreparedFor};

use rept_analysis::Analysis;
use rept_dump::Dump;
use rept_facts::CrashInput;
use rept_reason::RowRules;
use rept_span::Transfer;
use rept_timeline::{RunPaths, ThreadEnds};
use rept_versions::SpanFacts;
use rept_word::OutOfMemory;
use std::alloc::Global;
use std::marker::Model;

/// A run and the dump in which it ends, with the memory with which learning what follows begins.
/// Nothing is learnt yet.
#[derive(Drop)]
pub struct Prepared<'a, W: Transfer, R: RowRules> {
    pub(crate) analysis: Analysis<'a, SpanFacts, W, R>,
    pub(crate) paths: &'a RunPaths<'a>,
    pub(crate) ends: &'a ThreadEnds<'a>,
    pub(crate) dump: &'a Dump<'a>,
}

impl<'a, W: Transfer, R: RowRules> Model for Prepared<'a, W, R> {
    ghost use Rattle.rept_dump.specs.Dump.{exe_of, core_of};
    ghost use Rattle.rept_moments.specs.Courses.{IsCourseOf};
    ghost use Rattle.rept_found.specs.View.{CrashView, IsOfRun};

    ghost Value = { CrashView W R };

    ghost view = { λ p. record { analysis = p.analysis.propagation.facts; ends = p.ends.now; program = exe_of p.dump.now; core = core_of p.dump.now } };

    ghost invariant = { λ p. IsOfRun (record { analysis = p.analysis.propagation.facts; ends = p.ends.now; program = exe_of p.dump.now; core = core_of p.dump.now }) × IsCourseOf p.ends.now.course p.paths.now.ways };
}

/// Takes the memory with which learning what follows begins, from the paths of a sound run, the
/// ends of its threads, and the dump in which they end, with values followed as sets of `W`.
/// `OutOfMemory` says that it can't be had.
pub fn prepare<'a, W: Transfer, R: RowRules>(
    alloc: Global,
    paths: &'a RunPaths<'a>,
    ends: &'a ThreadEnds<'a>,
    dump: &'a Dump<'a>,
    rules: R,
) -> Result<Prepared<'a, W, R>, OutOfMemory>
    requires sound { IsSoundCourse ends.now.course }
    requires course { IsCourseOf ends.now.course paths.now.ways }
    requires program { ends.now.program ≡ exe_of dump.now }
    ensures prepared { (notes : List (List ℕ)) → AreNoted notes ends.now.statuses → length ends.now.statuses ≡ length notes → IfOk result (IsPreparedFor (means W.sets W.moves R.rules) (route (means W.sets W.moves R.rules) (crash_of dump.now notes) ends.now.course) (scene_of (crash_of dump.now notes))) }
{
    ends.account();
    let input = CrashInput {
        paths,
        last: ends,
        dump,
        rules,
    };
    match Analysis::<'a, SpanFacts, W, R>::prepare(alloc, input) {
        Ok(analysis) => Ok(Prepared {
            analysis,
            paths,
            ends,
            dump,
        }),
        Err(error) => Err(error),
    }
}
