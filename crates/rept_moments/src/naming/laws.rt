//! Laws of the definitions, over any names of the moments. The calls do nothing.

ghost use Rattle.std.specs.Prelude.{◌≡◌, ◌<◌, ◌↔◌, ◌&&◌, not, ℕ, true, List, length, Some};
ghost use Rattle.rept_steps.specs.Course.{Course, Row, IsRow, IsSoundCourse};
ghost use Rattle.rept_order.specs.Moments.{Moment, IsMoment, Act, WhollyBefore, WhollyAfter, Stretch, stretch, stores, IsUntouchedStep};
ghost use Rattle.rept_order.specs.History.{History, Ending, IsExecution};
ghost use Rattle.rept_order.specs.Interleaved.{CourseRun, IsCourseRun, run_of_history};
ghost use Rattle.rept_reason.specs.Facts.{Knowledge};
ghost use Rattle.rept_span.specs.Ranges.{AreLegs};
ghost use Rattle.rept_report.specs.Moments.{AreMoments};
ghost use Rattle.rept_report.specs.Setting.{Uses};
ghost use Rattle.rept_report.specs.Spots.{passage};
ghost use Rattle.rept_report.specs.Views.{Carries};
ghost use Rattle.rept_report.specs.Runs.{Runs};
ghost use Rattle.rept_moments.specs.Naming.Names.{MomentNames, IsLink, AreNames, NoOwn};
ghost use Rattle.rept_moments.specs.Naming.Carried.{may_in, CarriedAlong};
ghost use Rattle.rept_moments.specs.Naming.Making.{IsListing, names_by, names_in};
ghost use Rattle.rept_moments.specs.Naming.Numbered.{legs_on, row_on, moments_of, setting_of, run_seen};

use rept_reason::RowRules;
use rept_span::Transfer;

/// Over any names of the moments of a sound course, its points are legs, its names are moments, and
/// both keep their laws.
pub fn names_are_moments<W: Transfer, R: RowRules>()
    ensures legs { (C : Course) → AreLegs (legs_on C) }
    ensures moments { (C : Course) (N : MomentNames) → IsSoundCourse C → AreNames C N → AreMoments (legs_on C) (moments_of C N) }
    ensures uses { (C : Course) (D : Ending) (N : MomentNames) → IsSoundCourse C → AreNames C N → Uses (setting_of W.sets W.moves R.rules C D N) W.sets W.moves R.rules }
{}

/// Each execution of a course that has a thread is a run of its setting, by registers at points and
/// the memory at names; and so is each run as the course's definitions have it.
pub fn executions_are_seen<W: Transfer, R: RowRules>()
    ensures runs { (C : Course) (D : Ending) (N : MomentNames) (run : CourseRun) → IsSoundCourse C → AreNames C N → 0 < length C.threads → IsCourseRun C D run → Runs (setting_of W.sets W.moves R.rules C D N) (run_seen N run) }
    ensures executions { (C : Course) (D : Ending) (N : MomentNames) (h : History) → IsSoundCourse C → AreNames C N → 0 < length C.threads → IsExecution C D h → Runs (setting_of W.sets W.moves R.rules C D N) (run_seen N (run_of_history C h)) }
{}

/// Each sound course has names for its moments: by any list of them, and so by that of all, thread
/// by thread.
pub fn courses_have_names()
    ensures by { (C : Course) (L : List Moment) → IsSoundCourse C → IsListing C L → AreNames C (names_by C L) }
    ensures all { (C : Course) → IsSoundCourse C → AreNames C (names_in C) }
{}

/// A byte that is quiet between two moments, by what is known, is carried step by step from the
/// name of the one to that of the other. What is carried between two names is quiet between two of
/// their moments, if the rules let no row write that is no store and no call.
pub fn quiet_is_carried<W: Transfer, R: RowRules>()
    ensures carried { (C : Course) (D : Ending) (N : MomentNames) (K : Knowledge) (a : ℕ) (m w : Moment) → IsSoundCourse C → AreNames C N → IsMoment C m → IsMoment C w → IsUntouchedStep C (may_in (setting_of W.sets W.moves R.rules C D N) K C) (stretch m w) a → (ns : List ℕ) × CarriedAlong (setting_of W.sets W.moves R.rules C D N) K a (N.name m) ns (N.name w) }
    ensures quiet { (C : Course) (D : Ending) (N : MomentNames) (K : Knowledge) (a m w : ℕ) → IsSoundCourse C → AreNames C N → ((r : Row) → may_in (setting_of W.sets W.moves R.rules C D N) K C r a ≡ true → stores C r ≡ true) → Carries (setting_of W.sets W.moves R.rules C D N) K (passage a m w) → (x : Stretch) × IsLink C N m w x × IsUntouchedStep C (may_in (setting_of W.sets W.moves R.rules C D N) K C) x a }
{}

/// What the record of moments says of rows that may write, and of the untraced prefix, is the order
/// of the course: what lies wholly before a name, or wholly after it, does so of each of its
/// moments.
pub fn names_keep_the_order()
    ensures past { (C : Course) (N : MomentNames) (i : ℕ) (m : Moment) → IsSoundCourse C → AreNames C N → IsMoment C m → stores C (row_on C i) ≡ true → ((moments_of C N).past i (N.name m) ≡ true) ↔ WhollyBefore C (Act.row (row_on C i)) m }
    ensures ahead { (C : Course) (N : MomentNames) (i : ℕ) (m : Moment) → IsSoundCourse C → AreNames C N → IsMoment C m → stores C (row_on C i) ≡ true → ((moments_of C N).ahead i (N.name m) ≡ true) ↔ WhollyAfter C (Act.row (row_on C i)) m }
    ensures later { (C : Course) (N : MomentNames) (i j : ℕ) → IsSoundCourse C → AreNames C N → IsRow C (row_on C i) → IsRow C (row_on C j) → ((moments_of C N).later i j ≡ true) ↔ WhollyAfter C (Act.row (row_on C i)) (Moment.after (row_on C j)) }
    ensures untraced_past { (C : Course) (N : MomentNames) (d : ℕ) (m : Moment) → IsSoundCourse C → AreNames C N → IsMoment C m → C.untraced ≡ Some d → ((moments_of C N).untraced_past (N.name m) ≡ true) ↔ WhollyBefore C Act.untraced m }
    ensures untraced_before { (C : Course) (N : MomentNames) (d i : ℕ) → IsSoundCourse C → AreNames C N → IsRow C (row_on C i) → C.untraced ≡ Some d → ((moments_of C N).untraced_before i ≡ true) ↔ WhollyBefore C Act.untraced (Moment.before (row_on C i)) }
{}

/// What may act between a name and one that is next to it is told by its two ends, unless they are
/// the moments of one row that is no call: a row that may write may act there that lies neither
/// wholly before the one name nor wholly after the other, and what isn't told where it doesn't lie
/// wholly before the one. What may write and lies wholly after a name lies wholly after each to
/// which that one is next.
pub fn ends_tell_what_may_act()
    ensures rows { (C : Course) (N : MomentNames) (i m w : ℕ) → IsSoundCourse C → AreNames C N → (moments_of C N).next m w ≡ true → NoOwn C N m w → (moments_of C N).may_act i m w ≡ (stores C (row_on C i) && (not ((moments_of C N).past i m) && not ((moments_of C N).ahead i w))) }
    ensures untraced { (C : Course) (N : MomentNames) (m w : ℕ) → IsSoundCourse C → AreNames C N → (moments_of C N).next m w ≡ true → NoOwn C N m w → (moments_of C N).untraced m w ≡ not ((moments_of C N).untraced_past m) }
    ensures ahead { (C : Course) (N : MomentNames) (i m w : ℕ) → IsSoundCourse C → AreNames C N → stores C (row_on C i) ≡ true → (moments_of C N).next m w ≡ true → (moments_of C N).ahead i w ≡ true → (moments_of C N).ahead i m ≡ true }
{}
