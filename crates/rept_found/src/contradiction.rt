//! A conflict by the names of a session.

ghost use Rattle.std.specs.Prelude.{◌≡◌};
ghost use Rattle.rept_steps.specs.Course as runs;
ghost use Rattle.rept_moments.specs.Courses.{IsCourseOf};
ghost use Rattle.rept_found.specs.Contradictions.{conflict_place, contradiction_on, point_place};

use crate::places::{place_of, point_of};
use rept_findings::{Place, ThreadPlace};
use rept_moments::NumberedRun;
use rept_reason::Cell;
use rept_report::ConflictKind;

/// A contradiction among what follows from a run and a dump, and where it is, as a session names
/// it.
#[derive(Clone, Copy)]
pub struct Contradiction {
    /// how many threads the run has
    pub threads: u32,
    /// the thread, and its point, or the moment of the byte that has two values
    pub at: ThreadPlace,
    /// what is contradicted
    pub kind: ConflictKind,
}

/// The place of the point of a number.
fn place_at(course: &NumberedRun<'_>, number: u32) -> ThreadPlace
    ensures { (C : runs.Course) → IsCourseOf C course.now → result ≡ point_place C number }
{
    let point = point_of(course, number);
    ThreadPlace {
        thread: point.thread,
        place: Place::Point(point.point),
    }
}

/// Where a conflict is.
fn place_of_kind(course: &NumberedRun<'_>, kind: &ConflictKind) -> ThreadPlace
    ensures { (C : runs.Course) → IsCourseOf C course.now → result ≡ conflict_place C kind.now }
{
    match kind {
        ConflictKind::TwoValues { point, cell, .. } => match cell {
            Cell::Register(_) => place_at(course, *point),
            Cell::Byte(_) => place_of(course, *point),
        },
        ConflictKind::EmptyRange { point, .. } => place_at(course, *point),
        ConflictKind::WrongTurn { step } => place_at(course, *step),
    }
}

/// A conflict of the closure of a run's rules, with its place by name.
pub fn name_conflict(course: &NumberedRun<'_>, kind: ConflictKind) -> Contradiction
    ensures { (C : runs.Course) → IsCourseOf C course.now → result ≡ contradiction_on C kind }
{
    Contradiction {
        threads: course.threads(),
        at: place_of_kind(course, &kind),
        kind,
    }
}
