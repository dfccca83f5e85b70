//! Whether a run is small enough for an analysis.

ghost use Rattle.std.specs.Prelude.{◌≡◌, ◌≤◌, ◌<◌, ◌↔◌, length, IsTrue};
ghost use Rattle.rept_steps.specs.Course.{rows_of};
ghost use Rattle.rept_steps.specs.Runs.{course_of};
ghost use Rattle.rept_timeline.specs.Small.{IsSmall};

use rept_steps::Run;

/// The most rows of all threads.
const MOST_ROWS: u32 = 65536;

/// The most threads.
const MOST_THREADS: usize = 1024;

/// How many rows a thread has.
fn row_count(run: &Run, thread: usize) -> u32
    requires { thread < length run.now.threads }
    ensures value { result ≡ length (rows_of (course_of run.now) thread) }
    ensures few { result ≤ 65536 }
{
    run.threads.all()[thread].steps.len()
}

/// Whether a run has so few rows and threads that an analysis takes it: at most 65,536 rows of all
/// threads together, and at most 1,024 threads.
pub fn is_small(run: &Run) -> bool
    ensures { IsTrue result ↔ IsSmall (course_of run.now) }
{
    let count = run.threads.all().len();
    if count > MOST_THREADS {
        return false;
    }
    let mut rows = 0;
    for thread in 0..count {
        rows += row_count(run, thread);
        if rows > MOST_ROWS {
            return false;
        }
    }
    true
}
