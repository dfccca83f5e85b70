//! Whether a run is small enough.

ghost use Rattle.std.specs.Prelude.{◌↔◌, ◌≤◌, IsTrue};
ghost use Rattle.rept_steps.specs.Runs.{course_of};
ghost use Rattle.rept_moments.specs.Points.{points_in};

use crate::points::row_count;
use rept_steps::Run;

/// The most points of a run: those of 65,536 rows and 1,024 threads.
const MOST_POINTS: u32 = 66560;

/// Whether the run has so few points that its moments can be numbered.
pub fn has_room(run: &Run) -> bool
    ensures { IsTrue result ↔ (points_in (course_of run.now) ≤ 66560) }
{
    let mut points = 0;
    for thread in 0..run.threads.all().len() {
        points += row_count(run, thread) + 1;
        if points > MOST_POINTS {
            return false;
        }
    }
    true
}
