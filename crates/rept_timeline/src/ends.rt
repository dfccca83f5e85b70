//! How the threads of a run ended.

ghost use Rattle.std.specs.Prelude.{◌≡◌, ◌<◌, ◌≤◌, ℕ, List, length, Some, IfOk, slice_get};
ghost use Rattle.rept_dump.specs.Dump.{HasThreads, exe_of, threads_of};
ghost use Rattle.rept_steps.specs.Course.{rows_of};
ghost use Rattle.rept_steps.specs.Runs.{course_of};
ghost use Rattle.rept_moments.specs.Points.{points_in};
ghost use Rattle.rept_timeline.specs.Ends.{thread_on};
ghost use Rattle.rept_timeline.specs.Ends.{is_restarted, left_by};
ghost use Rattle.rept_timeline.specs.Ends.{AreEnds, AreNoted, AreWhole, last_values_in};

use rept_dump::{Dump, Status};
use rept_isa::{Reg, StepRow};
use rept_steps::Run;
use rept_word::OutOfMemory;
use std::alloc::Global;
use std::marker::Model;

/// The word of an ECALL.
const ECALL: u32 = 0x0000_0073;

/// The number of `restart_syscall`.
const RESTART_SYSCALL: u32 = 128;

/// How each thread of a run ended: its process, and its registers. Contracts see the course of the
/// run, the list of these, and the program.
#[derive(Drop)]
pub struct ThreadEnds<'a> {
    run: &'a Run,
    dump: &'a Dump<'a>,
    statuses: Vec<Status>,
}

impl<'a> Model for ThreadEnds<'a> {
    ghost use Rattle.std.specs.Prelude.{◌<◌, ◌≤◌, length};
    ghost use Rattle.rept_dump.specs.Dump.{exe_of};
    ghost use Rattle.rept_steps.specs.Runs.{course_of};
    ghost use Rattle.rept_moments.specs.Points.{points_in};
    ghost use Rattle.rept_timeline.specs.Ends.{Ends, AreEnds};

    ghost Value = { Ends };

    ghost view = { λ e. record { course = course_of e.run.now; statuses = e.statuses.items; program = exe_of e.dump.now } };

    ghost invariant = { λ e. AreEnds (record { course = course_of e.run.now; statuses = e.statuses.items; program = exe_of e.dump.now }) × (0 < length e.run.now.threads) × (points_in (course_of e.run.now) ≤ 66560) };
}

/// How many rows a thread has.
fn row_count(run: &Run, thread: usize) -> u32
    requires { thread < length run.now.threads }
    ensures value { result ≡ length (rows_of (course_of run.now) thread) }
    ensures few { result ≤ 65536 }
{
    run.threads.all()[thread].steps.len()
}

/// The thread of a point, found thread by thread; of a number that is no point's the first one.
fn thread_of(run: &Run, point: u32) -> usize
    requires { points_in (course_of run.now) ≤ 66560 }
    ensures { result ≡ thread_on (course_of run.now) point }
{
    let mut first = 0;
    for thread in 0..run.threads.all().len() {
        let rows = row_count(run, thread);
        if point <= first + rows {
            return thread;
        }
        first += rows + 1;
    }
    0
}

/// The process and the registers of each thread of a dump.
fn statuses(alloc: Global, dump: &Dump<'_>) -> Result<Vec<Status>, OutOfMemory>
    ensures count { IfOk result (λ v. length v.items ≡ threads_of dump.now) }
    ensures whole { IfOk result (λ v. AreWhole v.items) }
    ensures noted { (descs : List (List ℕ)) → HasThreads dump.now descs → IfOk result (λ v. AreNoted descs v.items) }
{
    let mut statuses = Vec::new(alloc);
    for thread in 0..dump.threads() {
        statuses.push(dump.status_of(thread))?;
    }
    Ok(statuses)
}

/// Whether a thread at this program counter, with this value in x17, sleeps in a call that Linux
/// will begin anew: an ECALL stands there, and the value is the number of `restart_syscall`.
fn is_restarted(dump: &Dump<'_>, pc: u32, number: u32) -> bool
    ensures { result ≡ is_restarted (exe_of dump.now) pc number }
{
    if number != RESTART_SYSCALL {
        return false;
    }
    match dump.word_of_code(pc) {
        Some(spelled) => spelled == ECALL,
        None => false,
    }
}

/// The last value of a register of a thread that ended so, if it has one.
fn left_of(dump: &Dump<'_>, status: &Status, r: Reg) -> Option<u32>
    ensures { result ≡ left_by (exe_of dump.now) status.now.pc status.now.regs r }
{
    if r.number() == 17 && is_restarted(dump, status.pc, status.regs[17]) {
        return None;
    }
    Some(status.regs[r.number() as usize])
}

impl<'a> ThreadEnds<'a> {
    /// The ends of the threads of a run, which are those of the notes of a dump. It takes memory
    /// for one entry a thread.
    pub fn new(
        alloc: Global,
        run: &'a Run,
        dump: &'a Dump<'a>,
    ) -> Result<ThreadEnds<'a>, OutOfMemory>
        requires threads { threads_of dump.now ≡ length run.now.threads }
        requires some { 0 < length run.now.threads }
        requires few { points_in (course_of run.now) ≤ 66560 }
        ensures course { IfOk result (λ e. e.course ≡ course_of run.now) }
        ensures program { IfOk result (λ e. e.program ≡ exe_of dump.now) }
        ensures count { IfOk result (λ e. length e.statuses ≡ length run.now.threads) }
        ensures noted { (descs : List (List ℕ)) → HasThreads dump.now descs → IfOk result (λ e. AreNoted descs e.statuses) }
    {
        let statuses = statuses(alloc, dump)?;
        Ok(ThreadEnds {
            run,
            dump,
            statuses,
        })
    }

    /// For callers whose contracts speak of the ends: there is one of each thread, and at least one
    /// thread, and there are few points. The call does nothing.
    pub fn account(&self)
        ensures ends { AreEnds self.now }
        ensures some { 0 < length self.now.course.threads }
        ensures few { points_in self.now.course ≤ 66560 }
    {
        // for the proof alone
        let _run = self.run;
    }

    /// The run.
    pub fn run(&self) -> &'a Run
        ensures { course_of result.now ≡ self.now.course }
    {
        self.run
    }

    /// The rows of a thread.
    pub fn rows(&self, thread: u32) -> &[StepRow]
        requires { thread < length self.now.course.threads }
        ensures list { result.now ≡ rows_of self.now.course thread }
        ensures few { length result.now ≤ 65536 }
    {
        self.run.threads.all()[thread as usize].steps.rows()
    }

    /// The process and the registers of a thread.
    pub fn status(&self, thread: u32) -> Status
        requires { thread < length self.now.course.threads }
        ensures { slice_get self.now.statuses thread ≡ Some result }
    {
        self.statuses[thread as usize]
    }

    /// The last value of a register of the thread of a point. x17 of a thread whose call Linux will
    /// begin anew has none.
    pub fn value(&self, point: u32, r: Reg) -> Option<u32>
        ensures { result ≡ last_values_in self.now point r }
    {
        let thread = thread_of(self.run, point);
        left_of(self.dump, &self.statuses[thread], r)
    }
}
