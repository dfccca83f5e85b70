//! Where a value came from.

ghost use Rattle.std.specs.Prelude.{◌≡◌, ◌<◌, ◌≤◌, ◌++◌, length, Some, IfOk, IfSome, OnOk};
ghost use Rattle.std.specs.Option.{option_to_list};
ghost use Rattle.rept_isa.specs.Operands.{written_by};
ghost use Rattle.rept_findings.specs.Shown.{IsThreadPoint};
ghost use Rattle.rept_questions.specs.Trail.{IsGreatest, IsTrail, address_by, atomic_loaded, base_of, byte_source, byte_sources, bytes_from, bytes_read, first_value, greater, is_some_of, loaded, loaded_by, own_step, register_source, register_sources, registers_read, sources_of, unless_zero};

use rept_findings::findings::{moment_of, number_of};
use rept_findings::{Findings, ThreadPoint};
use rept_isa::number::plus;
use rept_isa::{AmoOp, Instr, LoadOp, Reg, StepRow, reads, writes};
use rept_report::Writer;
use rept_word::OutOfMemory;
use std::alloc::Global;

/// The most steps of a trail that are told.
const MOST_STEPS: u32 = 64;

/// The steps that a value came from, from the newest on.
#[derive(Drop)]
pub struct ValueTrail {
    /// the steps, 64 at most
    pub rows: Vec<u32>,
    /// whether there are more of them
    pub more: bool,
}

/// The steps of a thread that lead to what one of them did: that step, those that wrote last what
/// it read, and so on, as far as they are known. The only refusal is out of memory.
pub fn trail_of<F: Findings>(
    alloc: Global,
    findings: &F,
    first: ThreadPoint,
) -> Result<ValueTrail, OutOfMemory>
    requires thread { first.thread < (F.shown findings.now).threads }
    requires step { first.point < length ((F.shown findings.now).rows first.thread) }
    ensures { IfOk result (λ trail. IsTrail (F.shown findings.now) first.thread first.point trail.rows.items trail.more) }
{
    // for the proof alone
    let _rows = findings.rows(first.thread);
    let mut rows = Vec::new(alloc);
    let mut seen = Vec::new(alloc);
    let mut below = first.point + 1;
    seen.push(first.point)?;
    for _ in 0..MOST_STEPS {
        let Some(step) = greatest_below(seen.as_slice(), below) else {
            return Ok(ValueTrail { rows, more: false });
        };
        let here = ThreadPoint {
            thread: first.thread,
            point: step,
        };
        push_sources(&mut seen, findings, here)?;
        rows.push(step)?;
        below = step;
    }
    let more = greatest_below(seen.as_slice(), below).is_some();
    Ok(ValueTrail { rows, more })
}

/// The greatest of these numbers that are below a limit.
fn greatest_below(numbers: &[u32], limit: u32) -> Option<u32>
    ensures { IsGreatest limit numbers.now result }
{
    let mut greatest = None;
    for number in numbers {
        greatest = greater(limit, greatest, *number);
    }
    greatest
}

/// The greater one of two numbers, where the second is below a limit.
fn greater(limit: u32, greatest: Option<u32>, number: u32) -> Option<u32>
    ensures { result ≡ greater limit greatest number }
{
    if number >= limit {
        return greatest;
    }
    match greatest {
        Some(other) if other >= number => Some(other),
        _ => Some(number),
    }
}

/// The steps that wrote last what a step reads.
fn push_sources<F: Findings>(
    steps: &mut Vec<u32>,
    findings: &F,
    at: ThreadPoint,
) -> Result<(), OutOfMemory>
    requires { IsThreadPoint (F.shown findings.now) at }
    ensures { OnOk result (steps.new.items ≡ steps.old.items ++ sources_of (F.shown findings.now) at) }
{
    match findings.rows(at.thread).get(at.point as usize) {
        Some(row) => push_row_sources(steps, findings, at, &row.instr),
        None => Ok(()),
    }
}

/// The steps that wrote last what an instruction takes up at a point.
fn push_row_sources<F: Findings>(
    steps: &mut Vec<u32>,
    findings: &F,
    at: ThreadPoint,
    instr: &Instr,
) -> Result<(), OutOfMemory>
    requires { IsThreadPoint (F.shown findings.now) at }
    ensures { OnOk result (steps.new.items ≡ steps.old.items ++ (register_sources ((F.shown findings.now).rows at.thread) at.point (registers_read instr.now) ++ byte_sources (F.shown findings.now) at (bytes_read (F.shown findings.now) at instr.now))) }
{
    let rows = findings.rows(at.thread);
    push_register_source(steps, rows, at.point, first_value(instr))?;
    push_register_source(steps, rows, at.point, reads(instr).1)?;
    push_byte_sources(steps, findings, at, instr)
}

/// The step that wrote a register last, which isn't x0.
fn push_register_source(
    steps: &mut Vec<u32>,
    rows: &[StepRow],
    point: u32,
    register: Option<Reg>,
) -> Result<(), OutOfMemory>
    requires { point ≤ length rows.now }
    ensures { OnOk result (steps.new.items ≡ steps.old.items ++ register_sources rows.now point (unless_zero register)) }
{
    let Some(register) = register else {
        return Ok(());
    };
    if register.number() == 0 {
        return Ok(());
    }
    push_step(steps, register_source(rows, point, register))
}

/// One more step, if there is one.
pub fn push_step(steps: &mut Vec<u32>, step: Option<u32>) -> Result<(), OutOfMemory>
    ensures { OnOk result (steps.new.items ≡ steps.old.items ++ option_to_list step) }
{
    if let Some(step) = step {
        steps.push(step)?;
    }
    Ok(())
}

/// The last step before a point that writes a register.
pub fn register_source(rows: &[StepRow], point: u32, register: Reg) -> Option<u32>
    requires { point ≤ length rows.now }
    ensures value { result ≡ register_source rows.now point register }
    ensures within { IfSome result (λ step. step < point) }
{
    let mut below = point;
    'back: while below > 0 {
        below -= 1;
        if is_written(&rows[below as usize].instr, register) {
            return Some(below);
        }
    }
    None
}

/// Whether an instruction writes a register.
pub fn is_written(instr: &Instr, register: Reg) -> bool
    ensures { result ≡ is_some_of register (written_by instr.now) }
{
    match writes(instr) {
        Some(written) => written.number() == register.number(),
        None => false,
    }
}

/// The steps that wrote the bytes last that an instruction reads at a point.
fn push_byte_sources<F: Findings>(
    steps: &mut Vec<u32>,
    findings: &F,
    at: ThreadPoint,
    instr: &Instr,
) -> Result<(), OutOfMemory>
    requires { IsThreadPoint (F.shown findings.now) at }
    ensures { OnOk result (steps.new.items ≡ steps.old.items ++ byte_sources (F.shown findings.now) at (bytes_read (F.shown findings.now) at instr.now)) }
{
    let Some(address) = address_at(findings, number_of(findings, at), instr) else {
        return Ok(());
    };
    push_sources_of(steps, findings, at, address, loaded(instr))
}

/// The steps that wrote so many bytes from an address on last.
fn push_sources_of<F: Findings>(
    steps: &mut Vec<u32>,
    findings: &F,
    at: ThreadPoint,
    address: u32,
    count: u32,
) -> Result<(), OutOfMemory>
    requires { IsThreadPoint (F.shown findings.now) at }
    ensures { OnOk result (steps.new.items ≡ steps.old.items ++ byte_sources (F.shown findings.now) at (bytes_from count (Some address))) }
{
    for i in 0..count {
        push_step(steps, byte_source(findings, at, address.wrapping_add(i)))?;
    }
    Ok(())
}

/// The step of the thread that is known to have written a byte last.
pub fn byte_source<F: Findings>(findings: &F, at: ThreadPoint, address: u32) -> Option<u32>
    requires { IsThreadPoint (F.shown findings.now) at }
    ensures value { result ≡ byte_source (F.shown findings.now) at address }
    ensures within { IfSome result (λ step. step < at.point) }
{
    match findings.writer(moment_of(findings, at), address) {
        Writer::Writes(row) => own_step(at, findings.point(row)),
        Writer::MayWrite(_) | Writer::Several | Writer::None => None,
    }
}

/// A step of this thread that came before this point.
pub fn own_step(at: ThreadPoint, step: ThreadPoint) -> Option<u32>
    ensures value { result ≡ own_step at step }
    ensures within { IfSome result (λ step. step < at.point) }
{
    if step.thread == at.thread && step.point < at.point {
        Some(step.point)
    } else {
        None
    }
}

/// The address at which an instruction loads or stores, where it is known at a point.
pub fn address_at<F: Findings>(findings: &F, point: u32, instr: &Instr) -> Option<u32>
    requires { point < (F.shown findings.now).points }
    ensures { result ≡ address_by (F.shown findings.now) point (base_of instr.now) }
{
    let Some((base, offset)) = base_of(instr) else {
        return None;
    };
    match findings.reg(point, base) {
        Some(base) => Some(plus(base, offset)),
        None => None,
    }
}

/// The register of the address at which an instruction loads or stores, and what is added to it.
pub fn base_of(instr: &Instr) -> Option<(Reg, i32)>
    ensures { result ≡ base_of instr.now }
{
    match *instr {
        Instr::Load { rs1, imm, .. } | Instr::Store { rs1, imm, .. } => Some((rs1, imm)),
        Instr::Amo { rs1, .. } => Some((rs1, 0)),
        _ => None,
    }
}

/// The register in the place of rs1, where its value goes into the result. That of a load, a store
/// or a jump tells a place.
pub fn first_value(instr: &Instr) -> Option<Reg>
    ensures { result ≡ first_value instr.now }
{
    match *instr {
        Instr::Imm { rs1, .. } | Instr::Op { rs1, .. } => Some(rs1),
        _ => None,
    }
}

/// How many bytes an instruction loads.
pub fn loaded(instr: &Instr) -> u32
    ensures { result ≡ loaded instr.now }
{
    match *instr {
        Instr::Load { op, .. } => load_width(op),
        Instr::Amo { op, .. } => atomic_width(op),
        _ => 0,
    }
}

fn load_width(op: LoadOp) -> u32
    ensures { result ≡ loaded_by op }
{
    match op {
        LoadOp::Lb | LoadOp::Lbu => 1,
        LoadOp::Lh | LoadOp::Lhu => 2,
        LoadOp::Lw => 4,
    }
}

fn atomic_width(op: AmoOp) -> u32
    ensures { result ≡ atomic_loaded op }
{
    match op {
        AmoOp::Sc => 0,
        _ => 4,
    }
}
