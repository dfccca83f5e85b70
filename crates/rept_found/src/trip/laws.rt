//! Laws of the definitions. The calls do nothing.

ghost use Rattle.std.specs.Prelude.{◌≡◌, ◌<◌, ◌≤◌, ℕ, length};
ghost use Rattle.rept_machine.specs.State.{State};
ghost use Rattle.rept_machine.specs.Execution.{Execution};
ghost use Rattle.rept_steps.specs.Course.{Course, IsSoundCourse, rows_of};
ghost use Rattle.rept_order.specs.History.{History};
ghost use Rattle.rept_order.specs.Points.{moment_of_point};
ghost use Rattle.rept_order.specs.Legs.{number_of};
ghost use Rattle.rept_order.specs.Alone.{IsShared};
ghost use Rattle.rept_order.specs.Writers as order;
ghost use Rattle.rept_moments.specs.Seen.{seen, moment_in};
ghost use Rattle.rept_found.specs.Places.Places.{last_on, place_on};
ghost use Rattle.rept_reason.specs.Facts.{Knowledge};
ghost use Rattle.rept_span.specs.Ranges.{AreLegs};
ghost use Rattle.rept_report.specs.declared.writer.Writer.{Writer};
ghost use Rattle.rept_report.specs.Setting.{Setting, Uses};
ghost use Rattle.rept_report.specs.OneThread.{ThreadPath, path_setting};
ghost use Rattle.rept_report.specs.Spots.{spot};
ghost use Rattle.rept_report.specs.Runs.{Runs};
ghost use Rattle.rept_report.specs.Writers.{IsWriter};
ghost use Rattle.rept_report.specs.Soundness.{WriterHolds};
ghost use Rattle.rept_found.specs.Trip.Trip.{Trip, setting_on};
ghost use Rattle.rept_found.specs.Trip.Alone.{trip_of};
ghost use Rattle.rept_found.specs.Trip.Executed.{IsHistoryOf, moment_named, run_on, spot_on, writer_on};
ghost use Rattle.rept_found.specs.Trip.Last.{writer_found};

use rept_reason::RowRules;
use rept_span::Transfer;

/// The setting of a trip with a sound course keeps the laws that the report asks for. Each
/// execution of it is a run of that setting, by the registers at points and the memory at the last
/// of the moments that have a number; and what the report says of a byte's writer in that run is so
/// of the execution, in the words of its order.
pub fn executions_are_runs<W: Transfer, R: RowRules>()
    ensures uses { (t : Trip W) → IsSoundCourse t.course → t.sets ≡ W.sets → t.moves ≡ W.moves → t.rules ≡ R.rules → Uses (setting_on t) W.sets W.moves R.rules }
    ensures runs { (t : Trip W) (h : History) → IsSoundCourse t.course → 0 < length t.course.threads → IsHistoryOf t h → Runs (setting_on t) (run_on t.course h) }
    ensures writers { (t : Trip W) (K : Knowledge) (h : History) (m a : ℕ) (writer : Writer) → IsSoundCourse t.course → IsHistoryOf t h → m ≤ (setting_on t).moments.end → IsWriter (setting_on t) K (spot m a) writer → WriterHolds (setting_on t) (run_on t.course h) (spot m a) writer → order.WriterHoldsInHistory t.course t.ending h (spot_on t.course m a) (writer_on t.course writer) }
{}

/// A path of one thread is the trip of that thread in one slice, all of which is told: both have
/// one setting, and each execution of the path by itself is one of the trip, with the same states
/// at points and moments.
pub fn paths_are_trips<W: Transfer>()
    ensures setting { (P : ThreadPath W) → setting_on (trip_of P) ≡ path_setting P }
    ensures sound { (P : ThreadPath W) → IsSoundCourse (trip_of P).course }
    ensures shared { (P : ThreadPath W) (run : ℕ → State) → Execution P.given.image_end P.given.rows P.given.last P.given.dump run → IsShared (trip_of P).course (trip_of P).ending run }
{}

/// The number of the moment at a point of a thread stands for that moment: the one before the
/// thread's row, or the end after its last one. The place by which a session names a number is the
/// moment that it stands for.
pub fn points_are_moments()
    ensures places { (C : Course) (m : ℕ) → IsSoundCourse C → m ≤ (seen C).moments.end → moment_named C (place_on C m) ≡ last_on C m }
    ensures points { (C : Course) (t p : ℕ) → IsSoundCourse C → t < length C.threads → p ≤ length (rows_of C t) → last_on C (moment_in (seen C) (number_of C t p)) ≡ moment_of_point C t p }
{}

/// What is found of the writer of a byte at a moment is what is said of it. There is no other such
/// answer.
pub fn writers_are_found<W: Transfer>()
    ensures { (S : Setting W) (K : Knowledge) (m a : ℕ) → AreLegs S.legs → IsWriter S K (spot m a) (writer_found S K (spot m a)) }
{}
