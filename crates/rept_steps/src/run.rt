//! Runs of a program up to its crash.

ghost use Rattle.std.specs.Prelude.{◌≡◌, IfOk};
ghost use Rattle.rept_steps.specs.Course.{IsSoundCourse};
ghost use Rattle.rept_steps.specs.Runs.{course_of, run_of_one};

use crate::slice::{Slice, Slices};
use crate::steps::Steps;
use crate::threads::{ThreadRows, Threads};
use std::alloc::{AllocError as OutOfMemory, Global};

/// A run of a program up to its crash.
#[derive(Drop)]
pub struct Run {
    /// What each thread executed, in the order of the core file's notes.
    pub threads: Threads,
    /// Where something of the begin isn't told: the time until which anything may have happened.
    pub untraced: Option<u64>,
    /// How many packets of the trace tell of what was before the run.
    pub skipped: u32,
}

impl Run {
    /// The run of one thread: one slice of all steps, at no known time, without an untraced prefix.
    /// It is sound. It takes memory for two lists of one entry.
    pub fn one(alloc: Global, steps: Steps, skipped: u32) -> Result<Run, OutOfMemory>
        ensures ok { IfOk result (λ run. run ≡ run_of_one steps skipped) }
        ensures sound { IfOk result (λ run. IsSoundCourse (course_of run)) }
    {
        let mut slices = Slices::new(alloc);
        slices.push(Slice {
            stream: 0,
            begin: 0,
            end: u64::MAX,
            first: 0,
            count: steps.len(),
        })?;
        let mut threads = Threads::new(alloc);
        threads.push(ThreadRows { steps, slices })?;
        Ok(Run {
            threads,
            untraced: None,
            skipped,
        })
    }
}
