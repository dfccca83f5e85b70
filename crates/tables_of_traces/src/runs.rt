//! Streams of several harts, and the runs that they tell.

ghost use Rattle.std.specs.Prelude.{◌<◌, ◌^◌, length};
ghost use Rattle.rept_steps.specs.Linked.{EndBefore};

use crate::files::Files;
use crate::rows::{ToldStep, told};
use rept_isa::{Instr, StepRow};
use rept_moments::one_path;
use rept_path::PathFault;
use rept_steps::{PushFault, Run, Steps, Threads};
use rept_streams::slices::survey::survey_all;
use rept_streams::slices::untraced::untraced;
use rept_streams::{end_untraced, is_several, read_run};
use rept_trace::Streams;
use std::alloc::{AllocError, Global};
use test_kit::Numbers;
use test_kit::threads::woven::reading::rebuild_trace;

/// The time from which on these streams tell, and how many slices they tell and leave, of the
/// processes 1 and 2.
fn times(alloc: Global, bytes: &[u8], from: u32) -> Result<(u64, usize, usize), PathFault>
    requires { length bytes.now < 2 ^ 32 }
{
    let streams = match Streams::open(bytes) {
        Ok(streams) => streams,
        Err(fault) => return Err(PathFault::Packet(fault)),
    };
    let told = survey_all(alloc, &streams, &[1, 2], from)?;
    Ok((told.time, told.windows.len(), told.slices.len()))
}

pub fn survey(alloc: Global, bytes: &[u8], from: u32) -> Result<String, AllocError>
    requires { length bytes.now < 2 ^ 32 }
{
    let times = times(alloc, bytes, from);
    format!(in alloc; "{times:?}")
}

/// Until when the prefix is untraced that these streams tell, and its last time, of the processes 1
/// and 2.
fn ends(alloc: Global, bytes: &[u8], from: u32) -> Result<(Option<u64>, Option<u64>), PathFault>
    requires { length bytes.now < 2 ^ 32 }
{
    let streams = match Streams::open(bytes) {
        Ok(streams) => streams,
        Err(fault) => return Err(PathFault::Packet(fault)),
    };
    let mut told = survey_all(alloc, &streams, &[1, 2], from)?;
    let (time, several, skipped) = (told.time, told.several, told.skipped);
    let end = untraced(&mut told.windows, time, several)?;
    let run = Run {
        threads: Threads::new(alloc),
        untraced: end,
        skipped,
    };
    let ended = end_untraced(alloc, run, bytes, from)?;
    Ok((end, ended.untraced))
}

pub fn last(alloc: Global, bytes: &[u8], from: u32) -> Result<String, AllocError>
    requires { length bytes.now < 2 ^ 32 }
{
    let ends = ends(alloc, bytes, from);
    format!(in alloc; "{ends:?}")
}

/// What a trace tells of the program and its threads, from a thread on; or the fault.
pub fn run(
    alloc: Global,
    files: &Files,
    bytes: &[u8],
    first: Option<u32>,
) -> Result<String, AllocError>
    requires { length bytes.now < 2 ^ 32 }
{
    let Some(Ok(dump)) = files.dump(true) else {
        return String::from_str(alloc, "no dump");
    };
    match rebuild_trace(alloc, bytes, &dump) {
        Err(fault) => format!(in alloc; "{fault:?}"),
        Ok(run) => threads(alloc, &run, first),
    }
}

/// Whether a trace is one of several streams; and what the files of a crash tell, with how many
/// steps the one path has; or the fault of the core file's notes or of the trace.
pub fn opened(alloc: Global, files: &Files, trace: &[u8]) -> Result<String, AllocError>
    requires { length trace.now < 2 ^ 32 }
{
    let several = is_several(trace);
    match files.dump(true) {
        None => String::from_str(alloc, "no dump"),
        Some(Err(fault)) => format!(in alloc; "{several} Core({fault:?})"),
        Some(Ok(dump)) => match read_run(alloc, trace, &dump, 0) {
            Err(fault) => format!(in alloc; "{several} Trace({fault:?})"),
            Ok(run) => {
                let path = one_path(&run).map(|steps| steps.len());
                let told = threads(alloc, &run, None)?;
                format!(in alloc; "{several} path {path:?}, {told}")
            }
        },
    }
}

/// Until when a run is untraced, how many packets are skipped, how many threads there are, and two
/// of them: without their steps from a number on, or the first two with their first eight steps.
fn threads(alloc: Global, run: &Run, first: Option<u32>) -> Result<String, AllocError> {
    let (k, shown) = match first {
        None => (0, 8),
        Some(k) => (k as usize, 0),
    };
    let first = thread(alloc, run, k, shown)?;
    let second = thread(alloc, run, k.wrapping_add(1), shown)?;
    format!(in alloc;
        "dark {:?}, {} skipped, {} threads; {first}; {second}",
        run.untraced,
        run.skipped,
        run.threads.all().len()
    )
}

/// The slices of a thread, how many steps it has, and so many of them.
fn thread(alloc: Global, run: &Run, k: usize, shown: usize) -> Result<String, AllocError> {
    let Some(thread) = run.threads.all().get(k) else {
        return String::from_str(alloc, "none");
    };
    let steps = thread.steps.rows();
    let first = told(alloc, steps.get(..shown).unwrap_or(steps))?;
    format!(in alloc;
        "{:?}, {} steps {:?}",
        thread.slices.all(),
        steps.len(),
        first.as_slice()
    )
}

/// Adds so many steps of an instruction that does nothing, each from an address of the line to the
/// one after it, and at last from the last one to itself.
fn push_rows(steps: &mut Steps, first: u32, n: &Numbers) -> Result<(), PushFault>
    requires { EndBefore steps.old first }
{
    let mut at = first;
    for k in 0..n.word(0) {
        let place = (k as usize).saturating_add(2);
        let next = n.word(place.min(n.count().saturating_sub(1)));
        let row = StepRow {
            at,
            instr: Instr::Fence,
            next,
            call: false,
            short: false,
        };
        if let Err(fault) = steps.push(row) {
            return Err(fault);
        }
        at = next;
    }
    Ok(())
}

/// How pushing so many steps ends, how many stand then, where they lead and which the second one
/// is; and the run that they are as those of one thread after three skipped packets. And the texts
/// of both faults.
pub fn pushed(alloc: Global, n: &Numbers) -> Result<String, AllocError> {
    let mut steps = Steps::new(alloc);
    let outcome = push_rows(&mut steps, n.word(1), n);
    let count = steps.len();
    let end = if count == 0 {
        None
    } else {
        Some(steps.end_pc())
    };
    let second = match steps.rows().get(1) {
        None => None,
        Some(row) => Some(ToldStep(*row)),
    };
    let run = Run::one(alloc, steps, 3)?;
    let told = threads(alloc, &run, None)?;
    let [full, memory] = [PushFault::Full, PushFault::OutOfMemory];
    format!(in alloc; "{outcome:?} {count} {end:?} {second:?}; {told}; {full}; {memory}")
}
