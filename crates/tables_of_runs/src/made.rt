//! Runs that lines make.

ghost use Rattle.std.specs.Prelude.{◌≡◌, OnOk};
ghost use Rattle.rept_steps.specs.Linked.{EndBefore};

use rept_isa::{Instr, Reg, StepRow, StoreOp};
use rept_steps::{PushFault, Run, Slice, Slices, Steps, ThreadRows, Threads};
use std::alloc::{AllocError, Global};
use test_kit::Numbers;

/// Rows that a hart ran for a thread, and the times between which it did. A row rests, or it stores
/// (1) or calls the kernel (2).
#[derive(Clone, Copy, Drop)]
struct Part {
    thread: u32,
    begin: u64,
    end: u64,
    rows: [Option<u32>; 3],
}

/// The parts of a run, in the order of its threads.
#[derive(Drop)]
pub struct Made {
    parts: Vec<Part>,
    threads: u32,
    untraced: Option<u32>,
}

impl Made {
    /// No thread.
    pub fn new(alloc: Global) -> Made {
        Made {
            parts: Vec::new(alloc),
            threads: 0,
            untraced: None,
        }
    }

    pub fn threads(&self) -> u32 {
        self.threads
    }

    /// Begins a run that is untraced until a time, a thread, or a part of it,
    /// `part BEGIN END of ROW ..`, and answers whether it was asked to.
    pub fn make(&mut self, asked: &str, n: &Numbers) -> Result<bool, AllocError> {
        match asked {
            "run" => {
                self.parts.clear();
                self.threads = 0;
                self.untraced = n.known(0);
            }
            "thread" => self.threads = self.threads.wrapping_add(1),
            "part" => self.parts.push(Part {
                thread: self.threads,
                begin: time(n.known(0)),
                end: time(n.known(1)),
                rows: [n.known(2), n.known(3), n.known(4)],
            })?,
            _ => return Ok(false),
        }
        Ok(true)
    }

    /// The run.
    pub fn run(&self, alloc: Global) -> Result<Run, AllocError> {
        let mut threads = Threads::new(alloc);
        for thread in 1..self.threads.saturating_add(1) {
            let rows = thread_of(alloc, self.parts.as_slice(), thread)?;
            threads.push(rows)?;
        }
        let untraced = match self.untraced {
            None => None,
            Some(time) => Some(u64::from(time)),
        };
        Ok(Run {
            threads,
            untraced,
            skipped: 0,
        })
    }
}

/// A time; where none is told, the greatest.
fn time(told: Option<u32>) -> u64 {
    match told {
        None => u64::MAX,
        Some(time) => u64::from(time),
    }
}

fn thread_of(alloc: Global, parts: &[Part], thread: u32) -> Result<ThreadRows, AllocError> {
    let mut steps = Steps::new(alloc);
    let mut slices = Slices::new(alloc);
    for part in parts {
        if part.thread == thread {
            let first = steps.len();
            push_rows(&mut steps, &part.rows)?;
            slices.push(Slice {
                stream: 0,
                begin: part.begin,
                end: part.end,
                first,
                count: steps.len().saturating_sub(first),
            })?;
        }
    }
    Ok(ThreadRows { steps, slices })
}

/// Adds rows of a program that stays where it is.
fn push_rows(steps: &mut Steps, rows: &[Option<u32>; 3]) -> Result<(), AllocError>
    requires { EndBefore steps.old 0 }
    ensures { OnOk result (EndBefore steps.new 0) }
{
    for told in rows {
        if let Some(does) = *told {
            if let Err(_) = steps.push(row(does)) {
                return Err(AllocError);
            }
        }
    }
    Ok(())
}

fn row(does: u32) -> StepRow
    ensures at { result.at ≡ 0 }
    ensures next { result.next ≡ 0 }
{
    StepRow {
        at: 0,
        instr: instr(does),
        next: 0,
        call: does == 2,
        short: false,
    }
}

fn instr(does: u32) -> Instr {
    match (does, Reg::new(5)) {
        (1, Some(reg)) => Instr::Store {
            op: StoreOp::Sw,
            rs1: reg,
            rs2: reg,
            imm: 0,
        },
        (2, _) => Instr::Ecall,
        _ => Instr::Fence,
    }
}
