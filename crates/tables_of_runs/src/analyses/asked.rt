//! What an analysis answers.

ghost use Rattle.rept_timeline.specs.Paths.{timeline};
ghost use Rattle.std.specs.Prelude.{◌≡◌, ◌≤◌, true};
ghost use Rattle.rept_steps.specs.Course.{IsSoundCourse};
ghost use Rattle.rept_steps.specs.Runs.{course_of};

use rept_amo::Atomic;
use rept_analysis::Analysis;
use rept_dump::Dump;
use rept_facts::{CrashInput, Stop};
use rept_isa::Reg;
use rept_partial::{Partial, Range};
use rept_reason::{Cell, Fact, Reason, RowRules};
use rept_steps::Run;
use rept_timeline::{RunPaths, ThreadEnds, is_small};
use rept_versions::ByteFacts;
use std::alloc::{AllocError, Global};
use test_kit::Numbers;

/// The word that says what is asked, and its numbers.
#[derive(Clone, Copy)]
pub struct Asked<'a> {
    pub word: &'a str,
    pub n: &'a Numbers,
}

/// What is answered over such a store of bytes, and whether an answer that was known changed while
/// more was learnt.
pub fn over_dump<B: ByteFacts>(
    alloc: Global,
    run: &Run,
    dump: &Dump<'_>,
    asked: Asked<'_>,
) -> Result<String, AllocError>
    requires { IsSoundCourse (course_of run.now) }
{
    if !is_small(run) {
        return String::from_str(alloc, "too many steps");
    }
    let threads = run.threads.all().len();
    if threads == 0 || dump.threads() as usize != threads {
        return String::from_str(alloc, "other threads");
    }
    let paths = RunPaths::new(alloc, run)?;
    let ends = ThreadEnds::new(alloc, run, dump)?;
    let input = CrashInput {
        paths: &paths,
        last: &ends,
        dump,
        rules: Atomic::new(),
    };
    over_rows::<B>(alloc, input, asked)
}

/// What is answered over the rows and moments of a run, of which there are few enough.
fn over_rows<B: ByteFacts>(
    alloc: Global,
    input: CrashInput<'_, Atomic>,
    asked: Asked<'_>,
) -> Result<String, AllocError> {
    if input.paths.last_point() > 66_560 {
        return String::from_str(alloc, "too many points");
    }
    let mut analysis: Analysis<B, Range, Atomic> = Analysis::prepare(alloc, input)?;
    let changed = asked.word != "first" && learn(alloc, &mut analysis, asked)?;
    let text = finally(alloc, &mut analysis, asked)?;
    if changed {
        return format!(in alloc; "{text}, changed");
    }
    Ok(text)
}

/// Learns all that follows, however often memory runs out, and answers whether an answer that was
/// known changed.
fn learn<B: ByteFacts>(
    alloc: Global,
    analysis: &mut Analysis<B, Range, Atomic>,
    asked: Asked<'_>,
) -> Result<bool, AllocError> {
    let mut changed = false;
    for _ in 0..100u8 {
        let before = answer(alloc, analysis, asked)?;
        let stop = analysis.refine();
        let after = answer(alloc, analysis, asked)?;
        changed = changed || (is_known(asked.word, before.as_str()) && before != after);
        if !matches!(stop, Err(Stop::OutOfMemory)) {
            break;
        }
    }
    Ok(changed)
}

/// Whether the answer to a word tells the value of a register or a byte.
fn is_known(word: &str, answer: &str) -> bool {
    (word == "reg" && answer != "Unknown") || (word == "byte" && answer != "None")
}

/// The answer in the end: whether `refine` finds no conflict and no want of memory, which conflict
/// it finds, a reason, or what is answered before too.
fn finally<B: ByteFacts>(
    alloc: Global,
    analysis: &mut Analysis<B, Range, Atomic>,
    asked: Asked<'_>,
) -> Result<String, AllocError> {
    match asked.word {
        "first" | "consistent" => format!(in alloc; "{}", analysis.refine().is_ok()),
        "conflict" => match analysis.refine() {
            Err(Stop::Conflict(kind)) => format!(in alloc; "{kind:?}"),
            _ => String::from_str(alloc, "no conflict"),
        },
        "why-byte" => why(alloc, analysis, Some(Cell::Byte(asked.n.word(1))), asked.n),
        "why-reg" => {
            let cell = Reg::new(asked.n.byte(1)).map(Cell::Register);
            why(alloc, analysis, cell, asked.n)
        }
        _ => answer(alloc, analysis, asked),
    }
}

/// The reason of a fact: its rule, its premises, and the ranges that were looked at.
fn why<B: ByteFacts>(
    alloc: Global,
    analysis: &mut Analysis<B, Range, Atomic>,
    cell: Option<Cell>,
    n: &Numbers,
) -> Result<String, AllocError> {
    let (point, value) = (n.word(0), n.word(2));
    if analysis.refine().is_err() {
        return String::from_str(alloc, "no report");
    }
    match cell {
        Some(cell) if is_there(analysis, point) => {
            match analysis.why(alloc, Fact { point, cell, value })? {
                None => String::from_str(alloc, "no reason"),
                Some(reason) => told(alloc, &reason),
            }
        }
        _ => String::from_str(alloc, "no cell"),
    }
}

fn told(alloc: Global, reason: &Reason) -> Result<String, AllocError> {
    let (premises, ranges) = (reason.premises.as_slice(), reason.ranges.as_slice());
    format!(in alloc; "rule {} {premises:?} {ranges:?}", reason.rule)
}

/// Whether a number is that of a point and of a moment.
fn is_there<B: ByteFacts>(analysis: &Analysis<B, Range, Atomic>, point: u32) -> bool
    ensures point { result ≡ true → point ≤ (timeline analysis.now.propagation.facts.paths).legs.count }
    ensures moment { result ≡ true → point ≤ (timeline analysis.now.propagation.facts.paths).moments.end }
{
    point <= analysis.paths().last_point() && point <= analysis.paths().end()
}

/// What is known of a register or a byte at a point, or which row wrote it last; or how much is
/// known in all.
fn answer<B: ByteFacts>(
    alloc: Global,
    analysis: &Analysis<B, Range, Atomic>,
    asked: Asked<'_>,
) -> Result<String, AllocError> {
    let (point, address) = (asked.n.word(0), asked.n.word(1));
    if !is_there(analysis, point) {
        return String::from_str(alloc, "no point");
    }
    match asked.word {
        "byte" => format!(in alloc; "{:?}", analysis.byte(point, address)),
        "writer" => format!(in alloc; "{:?}", analysis.writer(point, address)),
        "counts" => format!(in alloc; "{:?}", analysis.counts()),
        _ => register(alloc, analysis, asked),
    }
}

fn register<B: ByteFacts>(
    alloc: Global,
    analysis: &Analysis<B, Range, Atomic>,
    asked: Asked<'_>,
) -> Result<String, AllocError> {
    let point = asked.n.word(0);
    match Reg::new(asked.n.byte(1)) {
        Some(r) if point <= analysis.paths().last_point() => {
            if asked.word == "reg" {
                return format!(in alloc; "{:?}", analysis.reg(point, r));
            }
            let range = analysis.range(point, r);
            format!(in alloc; "{:#x} to {:#x}", range.lo(), range.hi())
        }
        _ => String::from_str(alloc, "no register"),
    }
}
