//! From steps to a trace.

ghost use Rattle.std.specs.Prelude.{◌≡◌, ◌+◌, ◌-◌, ◌*◌, ◌<◌, ◌^◌, ℕ, length, ◌&&◌, OnOk, IfOk, IfSome, IfNone, IfErr, Err};
ghost use Rattle.rept_path.specs.Code.{flow_of, jumps_far};
ghost use Rattle.rept_encode.specs.Walkable.{IsWalkable, IsJumpEnd, IsFirstJumpEnd};
ghost use Rattle.rept_encode.specs.Encoded.{TellsRows, TellsAfter, IsRefusal};
ghost use Rattle.rept_encode.specs.State.{AreSendable, IsNear, Sent, Stood, sent_rows, tail_bytes};

use crate::fault::EncodeFault;
use crate::sender::{Sender, begin, header, push_start};
use rept_isa::StepRow;
use rept_path::flow::jumps_far;
use rept_steps::Steps;
use rept_word::{OutOfMemory, Text};
use std::alloc::Global;

/// Whether the one row is an uninferable jump, and the other one a call.
fn ends_jump(jump: &StepRow, call: &StepRow) -> bool
    ensures { result ≡ (call.now.call && jumps_far (flow_of jump.now.instr)) }
{
    call.call && jumps_far(&jump.instr)
}

/// The number of the first call that directly follows an uninferable jump.
fn first_jump_end(rows: &[StepRow]) -> Option<usize>
    ensures some { IfSome result (λ i. IsFirstJumpEnd rows.now i) }
    ensures none { IfNone result ((i : ℕ) → IsJumpEnd rows.now i → ⊥) }
{
    for i in 1..rows.len() {
        if ends_jump(&rows[i - 1], &rows[i]) {
            return Some(i);
        }
    }
    None
}

/// Sends what leads from a row to the one after it.
fn pass(sender: &mut Sender, halves: bool, rows: &[StepRow], i: usize) -> Result<(), OutOfMemory>
    requires within { i + 1 < length rows.now }
    requires given { AreSendable (sent_rows halves rows.now) }
    requires sent { Sent (sent_rows halves rows.now) i sender.old }
    ensures { OnOk result (Sent (sent_rows halves rows.now) (i + 1) sender.new) }
{
    let here = &rows[i];
    let next = &rows[i + 1];
    if here.call {
        sender.restart(halves, next, i + 1)?;
    } else if jumps_far(&here.instr) {
        sender.send(halves, next, false, i + 1)?;
    } else if next.call {
        sender.send(halves, next, true, i + 1)?;
    } else {
        sender.keep(halves, next, i + 1)?;
    }
    Ok(())
}

/// Sends a row alone, from the one before it.
fn single(sender: &mut Sender, halves: bool, rows: &[StepRow], i: usize) -> Result<(), OutOfMemory>
    requires within { i + 1 < length rows.now }
    requires given { AreSendable (sent_rows halves rows.now) }
    requires near { IsNear rows.now i }
    requires stood { Stood (sent_rows halves rows.now) i sender.old (tail_bytes rows.now i) }
    ensures { OnOk result (Stood (sent_rows halves rows.now) (i + 1) sender.new (tail_bytes rows.now (i + 1))) }
{
    sender.send(halves, &rows[i + 1], true, i + 1)?;
    Ok(())
}

/// Sends what leads to the last branch, if the walk hasn't come to it.
fn send_base(
    sender: &mut Sender,
    halves: bool,
    rows: &[StepRow],
    last: usize,
) -> Result<(), OutOfMemory>
    requires last { last + 1 ≡ length rows.now }
    requires given { AreSendable (sent_rows halves rows.now) }
    requires sent { Sent (sent_rows halves rows.now) last sender.old }
    ensures { OnOk result (Stood (sent_rows halves rows.now) sender.old.base sender.new (tail_bytes rows.now sender.old.base)) }
{
    let base = sender.base;
    if base <= sender.walked {
        return Ok(());
    }
    sender.report(halves, rows[base].at, true, base)?;
    Ok(())
}

/// Sends the rows up to the last one.
fn finish(
    sender: &mut Sender,
    halves: bool,
    rows: &[StepRow],
    last: usize,
) -> Result<(), OutOfMemory>
    requires last { last + 1 ≡ length rows.now }
    requires given { AreSendable (sent_rows halves rows.now) }
    requires sent { Sent (sent_rows halves rows.now) last sender.old }
    ensures { OnOk result (Stood (sent_rows halves rows.now) last sender.new (tail_bytes rows.now last)) }
{
    let base = sender.base;
    send_base(sender, halves, rows, last)?;
    for i in base..last {
        single(sender, halves, rows, i)?;
    }
    Ok(())
}

/// The packets after the start packet at the first row.
fn send_all(alloc: Global, halves: bool, rows: &[StepRow]) -> Result<Text, OutOfMemory>
    requires given { AreSendable (sent_rows halves rows.now) }
    ensures tells { IfOk result (λ bytes. TellsAfter halves bytes rows.now) }
    ensures few { IfOk result (λ bytes. length bytes < 2 ^ 31) }
{
    let last = rows.len() - 1;
    let mut sender = begin(alloc, &rows[0]);
    for i in 0..last {
        pass(&mut sender, halves, rows, i)?;
    }
    finish(&mut sender, halves, rows, last)?;
    Ok(sender.text)
}

/// A trace of the rows.
fn write_all(alloc: Global, halves: bool, rows: &[StepRow]) -> Result<Text, OutOfMemory>
    requires given { AreSendable (sent_rows halves rows.now) }
    ensures tells { IfOk result (λ trace. TellsRows halves trace rows.now) }
    ensures few { IfOk result (λ trace. length trace < 2 ^ 32) }
{
    let mut trace = header(alloc, halves)?;
    push_start(&mut trace, halves, &rows[0])?;
    let body = send_all(alloc, halves, rows)?;
    trace.push(body.bytes())?;
    Ok(trace)
}

/// A trace of the steps, as the bytes of a file: `rept_path::rebuild` reads it back as these steps,
/// over each dump whose code has their instructions and whose program counter is where they end.
/// `halves` says whether that code may be compressed: byte 5 of the header is 1 then, and addresses
/// are sent with 31 bits in place of 30. There must be a step, and each must be one that a hart can
/// make, short only where code may be compressed; `JumpEnds` comes exactly at the first call that
/// directly follows an uninferable jump. Branches are sent 31 at a time, where nothing else need be
/// told; payloads are cut short (Efficient Trace for RISC-V 2.0).
pub fn encode(alloc: Global, halves: bool, steps: &Steps) -> Result<Text, EncodeFault>
    requires { IsWalkable halves steps.now }
    ensures tells { IfOk result (λ trace. TellsRows halves trace steps.now) }
    ensures few { IfOk result (λ trace. length trace < 2 ^ 32) }
    ensures refusal { IfErr result (λ fault. IsRefusal steps.now fault) }
    ensures jump_ends { (i : ℕ) → IsFirstJumpEnd steps.now i → result ≡ Err (EncodeFault.JumpEnds i) }
{
    let rows = steps.rows();
    match first_jump_end(rows) {
        Some(i) => Err(EncodeFault::JumpEnds(i as u32)),
        None => match write_all(alloc, halves, rows) {
            Ok(trace) => Ok(trace),
            Err(_) => Err(EncodeFault::OutOfMemory),
        },
    }
}

/// The packets of the steps after a start packet at the first one, for a writer of traces that
/// sends the start packet itself. What `encode` asks for is asked for here, and what it refuses is
/// refused. Where no step but the last is a call, no packet starts the trace or ends it, so that
/// packets of such steps may follow one another in a stream.
pub fn encode_after_start(alloc: Global, halves: bool, steps: &Steps) -> Result<Text, EncodeFault>
    requires { IsWalkable halves steps.now }
    ensures tells { IfOk result (λ bytes. TellsAfter halves bytes steps.now) }
    ensures few { IfOk result (λ bytes. length bytes < 2 ^ 31) }
    ensures refusal { IfErr result (λ fault. IsRefusal steps.now fault) }
    ensures jump_ends { (i : ℕ) → IsFirstJumpEnd steps.now i → result ≡ Err (EncodeFault.JumpEnds i) }
{
    let rows = steps.rows();
    match first_jump_end(rows) {
        Some(i) => Err(EncodeFault::JumpEnds(i as u32)),
        None => match send_all(alloc, halves, rows) {
            Ok(bytes) => Ok(bytes),
            Err(_) => Err(EncodeFault::OutOfMemory),
        },
    }
}
