//! Laws of the definitions, for callers whose contracts speak of any run and crash. The calls do
//! nothing.

ghost use Rattle.std.specs.Prelude.{◌≡◌, ◌<◌, ℕ, List, [], ◌∷◌, length, Some};
ghost use Rattle.rept_isa.specs.declared.row.StepRow.{StepRow};
ghost use Rattle.rept_steps.specs.Course.{Course, IsSoundCourse};
ghost use Rattle.rept_order.specs.History.{Ending};
ghost use Rattle.rept_moments.specs.Seen.{alone_by};
ghost use Rattle.rept_reason.specs.Facts.{Knowledge};
ghost use Rattle.rept_report.specs.declared.conflict.ConflictKind.{ConflictKind};
ghost use Rattle.rept_report.specs.Closure.{ClosureHas, IsReport};
ghost use Rattle.rept_report.specs.OneThread.{ThreadPath, path_setting};
ghost use Rattle.rept_steps.specs.Runs.{course_of, run_of_one};
ghost use Rattle.rept_findings.specs.LastWriters.{AreLastWriters};
ghost use Rattle.rept_found.specs.Trip.Alone.{trip_of};
ghost use Rattle.rept_found.specs.Trip.Trip.{setting_on};
ghost use Rattle.rept_found.specs.Trip.Executed.{HasNoHistory};
ghost use Rattle.rept_found.specs.Crash.{Crash, Scene, means, path_of, route, setting, trip_by};
ghost use Rattle.rept_found.specs.Histories.{IsTrueTrip};
ghost use Rattle.rept_found.specs.Single.{IsOneThread};
ghost use Rattle.rept_found.specs.Telling.{shown_of, shown_on};
ghost use Rattle.rept_found.specs.Truth.{HasNoExecutionOfPath, IsTrueReport};

use crate::places::places_are_names;
use crate::trip::points_are_moments;
use rept_reason::RowRules;
use rept_report::{facts_have_reasons, reports_are_sound};
use rept_span::Transfer;

/// What a session tells of a report holds in every execution of the path that ends in the crash,
/// and its reasons rest on the report. No chain of them leads back to its own fact. Where the
/// closure has a conflict, there is no such execution. The run of one thread is the trip of its
/// path, so that the same is found and shown of it.
pub fn reports_are_true<W: Transfer, R: RowRules>()
    ensures report { (crash : Crash) (rows : List StepRow) (K : Knowledge) → IsReport (path_setting (path_of (means W.sets W.moves R.rules) crash rows)) K → IsTrueReport (path_of (means W.sets W.moves R.rules) crash rows) K }
    ensures impossible { (crash : Crash) (rows : List StepRow) (kind : ConflictKind) → ClosureHas (path_setting (path_of (means W.sets W.moves R.rules) crash rows)) kind → HasNoExecutionOfPath (path_of (means W.sets W.moves R.rules) crash rows) }
    ensures trip { (crash : Crash) (note : List ℕ) (rows : List StepRow) (skipped : ℕ) → crash.notes ≡ note ∷ [] → route (means W.sets W.moves R.rules) crash (course_of (run_of_one rows skipped)) ≡ trip_of (path_of (means W.sets W.moves R.rules) crash rows) }
{
    reports_are_sound::<W, R>();
    facts_have_reasons::<W, R>();
}

/// Of a sound run of any number of threads: what a session tells of a report holds in every
/// execution of all threads that ends so, and its reasons rest on the report. No chain of them leads
/// back to its own fact. Where the closure has a conflict, there is no such execution. A row that is
/// told as the last writer at a point of a thread came before it, and is told at each point since it
/// came.
pub fn trips_are_true<W: Transfer, R: RowRules>()
    ensures report { (C : Course) (D : Ending) (K : Knowledge) → IsSoundCourse C → 0 < length C.threads → IsReport (setting_on (trip_by (means W.sets W.moves R.rules) C D)) K → IsTrueTrip (trip_by (means W.sets W.moves R.rules) C D) K }
    ensures conflict { (C : Course) (D : Ending) (kind : ConflictKind) → IsSoundCourse C → 0 < length C.threads → ClosureHas (setting_on (trip_by (means W.sets W.moves R.rules) C D)) kind → HasNoHistory (trip_by (means W.sets W.moves R.rules) C D) }
    ensures writers { (C : Course) (D : Ending) (K : Knowledge) (scene : Scene) (thread address : ℕ) → IsSoundCourse C → AreLastWriters (shown_on (trip_by (means W.sets W.moves R.rules) C D) K scene) thread address }
{
    reports_are_sound::<W, R>();
    facts_have_reasons::<W, R>();
    places_are_names();
    points_are_moments();
}

/// What is shown of a path is what its one thread's own words say: its points and moments are one.
pub fn paths_are_one_thread<W: Transfer>()
    ensures { (P : ThreadPath W) (K : Knowledge) (scene : Scene) → IsOneThread P K (shown_of P K scene) }
{}

/// A run that is one path, of one thread in one slice, all of which is told, has the setting of
/// that path, and the same is shown of it, in whichever slice of time it ran.
pub fn runs_are_paths<W: Transfer, R: RowRules>()
    ensures setting { (crash : Crash) (C : Course) (rows : List StepRow) → alone_by C.threads C.untraced ≡ Some rows → 0 < length crash.notes → setting (means W.sets W.moves R.rules) crash C ≡ path_setting (path_of (means W.sets W.moves R.rules) crash rows) }
    ensures shown { (crash : Crash) (C : Course) (rows : List StepRow) (K : Knowledge) (scene : Scene) → alone_by C.threads C.untraced ≡ Some rows → 0 < length crash.notes → shown_on (route (means W.sets W.moves R.rules) crash C) K scene ≡ shown_of (path_of (means W.sets W.moves R.rules) crash rows) K scene }
{}
