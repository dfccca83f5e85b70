//! Stretches of steps, and the traces that are written of them.

ghost use Rattle.std.specs.Prelude.{IfOk, IfSome};
ghost use Rattle.std.specs.List.{All};
ghost use Rattle.rept_encode.specs.Walkable.{IsWalkable};

use rept_encode::{
    Hart, HartStretch, Harts, Site, WeaveFault, encode, push_step, step_between, weave,
};
use rept_isa::{Instr, decode};
use rept_steps::Steps;
use rept_word::Text;
use std::alloc::{AllocError, Global};
use test_kit::Numbers;

/// A step: which stretch it belongs to, counted from 1, and the numbers of its line.
type Step = (usize, Numbers);

/// Stretches of code that may be compressed or not.
#[derive(Drop)]
pub struct Stretches {
    halves: bool,
    lines: Vec<Numbers>,
    steps: Vec<Step>,
}

impl Stretches {
    /// No stretch.
    pub fn new(alloc: Global) -> Stretches {
        Stretches {
            halves: false,
            lines: Vec::new(alloc),
            steps: Vec::new(alloc),
        }
    }

    /// Begins stretches, or adds one or a step to the last one, and answers whether it was asked
    /// to: `stretches` with 1 where code may be compressed,
    /// `stretch HART PROCESS BEGIN END ADDRESS`, and `step WORD SHORT NEXT`, with 1 where the
    /// instruction of this word or expansion takes two bytes.
    pub fn make(&mut self, asked: &str, n: &Numbers) -> Result<bool, AllocError> {
        match asked {
            "stretches" => {
                self.halves = n.word(0) == 1;
                self.lines.clear();
                self.steps.clear();
            }
            "stretch" => self.lines.push(*n)?,
            "step" => self.steps.push((self.lines.len(), *n))?,
            _ => return Ok(false),
        }
        Ok(true)
    }

    /// The bytes of the trace of the first stretch, or the fault.
    pub fn encoded(&self, alloc: Global) -> Result<String, AllocError> {
        let first = match self.lines.first() {
            None => 0,
            Some(line) => line.word(4),
        };
        match steps_of(alloc, self.halves, self.steps.as_slice(), 1, first)? {
            None => String::from_str(alloc, "no step"),
            Some(steps) => match encode(alloc, self.halves, &steps) {
                Err(fault) => format!(in alloc; "{fault:?}"),
                Ok(trace) => format!(in alloc; "{:?}", trace.bytes()),
            },
        }
    }

    /// The trace of so many harts.
    pub fn woven(&self, alloc: Global, count: u32) -> Result<Result<Text, WeaveFault>, AllocError> {
        let (lines, steps) = (self.lines.as_slice(), self.steps.as_slice());
        trace_of(alloc, self.halves, lines, steps, count)
    }
}

/// The steps of a stretch from an address on, if there are any.
fn steps_of(
    alloc: Global,
    halves: bool,
    listing: &[Step],
    stretch: usize,
    first: u32,
) -> Result<Option<Steps>, AllocError>
    ensures { IfOk result (λ made. IfSome made (λ steps. IsWalkable halves steps)) }
{
    let mut steps = Steps::new(alloc);
    let mut at = first;
    for step in listing {
        let instr = match decode(step.1.word(0)) {
            Some(instr) if step.0 == stretch => instr,
            _ => continue,
        };
        let (short, next) = (step.1.word(1) == 1, step.1.word(2));
        let site = Site { at, instr, short };
        if let Err(_) = push_step(&mut steps, halves, &site, next) {
            return Err(AllocError);
        }
        at = next;
    }
    if steps.len() == 0 {
        return Ok(None);
    }
    Ok(Some(steps))
}

/// What a hart did.
fn hart_of(
    alloc: Global,
    halves: bool,
    lines: &[Numbers],
    listing: &[Step],
    number: u32,
) -> Result<Hart, AllocError>
    ensures { IfOk result (λ hart. All (λ s. IsWalkable halves s.steps) hart) }
{
    let mut hart = Hart::new(alloc);
    let mut stretch: usize = 0;
    for line in lines {
        stretch = stretch.wrapping_add(1);
        if line.word(0) != number {
            continue;
        }
        let Some(steps) = steps_of(alloc, halves, listing, stretch, line.word(4))? else {
            continue;
        };
        hart.push(HartStretch {
            process: line.word(1),
            begin: u64::from(line.word(2)),
            end: u64::from(line.word(3)),
            steps,
        })?;
    }
    Ok(hart)
}

fn trace_of(
    alloc: Global,
    halves: bool,
    lines: &[Numbers],
    listing: &[Step],
    count: u32,
) -> Result<Result<Text, WeaveFault>, AllocError> {
    let mut all = Harts::new(alloc);
    for number in 0..count {
        all.push(hart_of(alloc, halves, lines, listing, number)?)?;
    }
    Ok(weave(alloc, halves, &all))
}

/// Whether an instruction at an address leads to another one, where code has words alone, and where
/// it may be compressed.
pub fn between(alloc: Global, n: &Numbers) -> Result<String, AllocError> {
    let site = Site {
        at: n.word(0),
        instr: Instr::Fence,
        short: n.word(1) == 1,
    };
    let words = step_between(false, &site, n.word(2)).is_some();
    let halves = step_between(true, &site, n.word(2)).is_some();
    format!(in alloc; "{words} {halves}")
}
