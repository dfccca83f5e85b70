//! Whether the slices of a run fit its rows and keep time, as all that is said of its order asks.

ghost use Rattle.std.specs.Prelude.{◌≡◌, ◌↔◌, length, IsTrue};
ghost use Rattle.rept_steps.specs.Course.{IsSoundCourse};
ghost use Rattle.rept_steps.specs.Runs.{course_of};
ghost use Rattle.rept_steps.specs.Tested.{call_ends, calls_end, fits, fit_to, end_to, is_alone, is_sound};

mod slices;

use crate::run::Run;
use crate::threads::ThreadRows;
use slices::{ends_slice, keep_time, take_rows};

/// Whether the row is no call, or the last one of its slice.
fn call_ends(thread: &ThreadRows, step: u32) -> bool
    ensures { result ≡ call_ends thread.now step }
{
    let call = thread.is_call(step);
    let last = ends_slice(thread.slices.all(), step);
    !call || last
}

/// Whether each row is.
fn calls_end(thread: &ThreadRows) -> bool
    ensures { result ≡ calls_end thread.now }
{
    let mut kept = true;
    for step in 0..thread.steps.len() {
        let here = call_ends(thread, step);
        kept = kept && here;
    }
    kept
}

/// Whether the slices of a thread take its rows, and keep time.
fn fits(thread: &ThreadRows) -> bool
    ensures { result ≡ fits thread.now }
{
    let slices = thread.slices.all();
    let taken = take_rows(slices, thread.steps.len());
    let kept = keep_time(slices);
    taken && kept
}

/// Whether those of each thread do.
fn all_fit(run: &Run) -> bool
    ensures { result ≡ fit_to (course_of run.now) (length run.now.threads) }
{
    let threads = run.threads.all();
    let mut kept = true;
    for number in 0..threads.len() {
        let here = fits(&threads[number]);
        kept = kept && here;
    }
    kept
}

/// Whether each call is the last row of its slice.
fn all_end(run: &Run) -> bool
    ensures { result ≡ end_to (course_of run.now) (length run.now.threads) }
{
    let threads = run.threads.all();
    let mut kept = true;
    for number in 0..threads.len() {
        let here = calls_end(&threads[number]);
        kept = kept && here;
    }
    kept
}

/// Whether it is one thread in one slice, all of which is told.
fn is_alone(run: &Run) -> bool
    ensures { result ≡ is_alone (course_of run.now) }
{
    let threads = run.threads.all();
    if run.untraced.is_some() || threads.len() != 1 {
        return false;
    }
    threads[0].slices.all().len() == 1
}

/// Whether those of each thread fit, and each call is the last row of its slice or it is one thread
/// alone.
fn keeps_all(run: &Run) -> bool
    ensures { result ≡ is_sound (course_of run.now) }
{
    let fit = all_fit(run);
    let alone = is_alone(run);
    let end = all_end(run);
    fit && (alone || end)
}

/// Whether the slices of each thread take its rows, each once and in order, and keep time, and
/// each call is the last row of its slice. Of one thread alone, in one slice, all of which is told,
/// calls may stand anywhere. It takes time for each call and each slice of its thread.
pub fn is_sound(run: &Run) -> bool
    ensures { IsTrue result ↔ IsSoundCourse (course_of run.now) }
{
    keeps_all(run)
}
