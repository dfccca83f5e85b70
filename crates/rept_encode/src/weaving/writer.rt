//! From stretches to a trace.

ghost use Rattle.std.specs.Prelude.{◌≡◌, ◌++◌, ◌<◌, ◌≤◌, ◌^◌, ◌-◌, ◌∷◌, [], length, IfOk, IfErr, IfSome, IfNone, OnOk};
ghost use Rattle.std.specs.List.{All};
ghost use Rattle.rept_encode.specs.Encoded.{TellsAfter};
ghost use Rattle.rept_encode.specs.Walkable.{IsWalkable, AreStraight};
ghost use Rattle.rept_trace.specs.Grammar.{timed};
ghost use Rattle.rept_trace.specs.Header.{several_streams, heading_of, header_bytes};
ghost use Rattle.rept_encode.specs.Weaving.Stamped.{AddsPackets};
ghost use Rattle.rept_encode.specs.Weaving.Steps.{AddsStart, AddsStretch, AddsHart, IsTraceFront, IsStretchCause, IsHartCause, framed};
ghost use Rattle.rept_encode.specs.Weaving.Woven.{AreStretchesTold, IsInnerCall, IsWoven, IsCause, ended, end_of};

use crate::weaving::fault::{HartPlace, WeaveFault};
use crate::weaving::stamped::{Start, push_context, push_start};
use crate::weaving::stretch::{Hart, HartStretch, Harts};
use crate::{EncodeFault, encode_after_start, start_bit};
use rept_isa::StepRow;
use rept_word::{OutOfMemory, Text};
use std::alloc::Global;

/// The most harts of a trace.
const MOST: usize = 64;

/// The number of the first call that isn't the last row.
fn inner_call(rows: &[StepRow]) -> Option<usize>
    requires { 0 < length rows.now }
    ensures some { IfSome result (IsInnerCall rows.now) }
    ensures none { IfNone result (AreStraight rows.now (length rows.now - 1)) }
{
    for i in 0..rows.len() - 1 {
        if rows[i].call {
            return Some(i);
        }
    }
    None
}

/// Adds the start packet of a stretch.
fn push_first(
    alloc: Global,
    out: &mut Text,
    halves: bool,
    stretch: &HartStretch,
) -> Result<(), OutOfMemory>
    requires { IsWalkable halves stretch.now.steps }
    ensures { OnOk result (AddsStart halves stretch.now out.old out.new) }
{
    let first = &stretch.steps.rows()[0];
    let start = Start {
        branch: start_bit(first),
        address: first.at,
        time: stretch.begin,
        context: stretch.process,
    };
    push_start(alloc, out, halves, &start)?;
    Ok(())
}

/// Adds the support packet that ends a trace.
fn push_ended(out: &mut Text, halves: bool) -> Result<(), OutOfMemory>
    ensures { OnOk result (AddsPackets (timed halves) out.old out.new (ended ∷ [])) }
{
    out.push(&[1, 0x4f])?;
    Ok(())
}

/// Adds the packets of a stretch: the start packet, those that tell branches and addresses, the end
/// of the trace, and a context packet of the time at which the stretch has ended.
fn push_packets(
    alloc: Global,
    out: &mut Text,
    halves: bool,
    stretch: &HartStretch,
    reports: &[u8],
) -> Result<(), OutOfMemory>
    requires walkable { IsWalkable halves stretch.now.steps }
    requires tells { TellsAfter halves reports.now stretch.now.steps }
    requires straight { AreStraight stretch.now.steps (length stretch.now.steps - 1) }
    ensures { OnOk result (AddsStretch halves stretch.now out.old out.new) }
{
    push_first(alloc, out, halves, stretch)?;
    out.push(reports)?;
    push_ended(out, halves)?;
    push_context(out, halves, stretch.end, stretch.process)?;
    Ok(())
}

/// Adds the packets of the stretch of this place.
fn push_stretch(
    alloc: Global,
    out: &mut Text,
    halves: bool,
    stretch: &HartStretch,
    at: HartPlace,
) -> Result<(), WeaveFault>
    requires { IsWalkable halves stretch.now.steps }
    ensures ok { OnOk result (AddsStretch halves stretch.now out.old out.new) }
    ensures err { IfErr result (IsStretchCause at stretch.now.steps) }
{
    if let Some(step) = inner_call(stretch.steps.rows()) {
        return Err(WeaveFault::InnerCall(HartPlace { step, ..at }));
    }
    let reports = match encode_after_start(alloc, halves, &stretch.steps) {
        Ok(reports) => reports,
        Err(EncodeFault::JumpEnds(step)) => {
            let step = step as usize;
            return Err(WeaveFault::JumpEnds(HartPlace { step, ..at }));
        }
        Err(EncodeFault::OutOfMemory) => return Err(WeaveFault::OutOfMemory),
    };
    match push_packets(alloc, out, halves, stretch, reports.bytes()) {
        Ok(()) => Ok(()),
        Err(_) => Err(WeaveFault::OutOfMemory),
    }
}

/// The stream of the hart of this number.
fn stream_of(alloc: Global, halves: bool, hart: &Hart, number: usize) -> Result<Text, WeaveFault>
    requires { All (λ s. IsWalkable halves s.steps) hart.now }
    ensures ok { IfOk result (AreStretchesTold halves hart.now) }
    ensures err { IfErr result (IsHartCause halves number hart.now) }
{
    let stretches = hart.all();
    let mut stream = Text::new(alloc);
    for i in 0..stretches.len() {
        let at = HartPlace {
            hart: number,
            stretch: i,
            step: 0,
        };
        if let Err(fault) = push_stretch(alloc, &mut stream, halves, &stretches[i], at) {
            return Err(fault);
        }
    }
    Ok(stream)
}

/// Adds a stream, with its length in front.
fn push_stream(trace: &mut Text, stream: &[u8]) -> Result<(), OutOfMemory>
    requires { length stream.now < 2 ^ 32 }
    ensures { OnOk result (trace.new ≡ trace.old ++ framed stream.now) }
{
    trace.push(&(stream.len() as u32).to_le_bytes())?;
    trace.push(stream)?;
    Ok(())
}

/// Adds the stream of the hart of this number.
fn push_hart(
    alloc: Global,
    trace: &mut Text,
    halves: bool,
    hart: &Hart,
    number: usize,
) -> Result<(), WeaveFault>
    requires { All (λ s. IsWalkable halves s.steps) hart.now }
    ensures ok { OnOk result (AddsHart halves hart.now trace.old trace.new) }
    ensures err { IfErr result (IsHartCause halves number hart.now) }
{
    let stream = match stream_of(alloc, halves, hart, number) {
        Ok(stream) => stream,
        Err(fault) => return Err(fault),
    };
    let bytes = stream.bytes();
    if bytes.len() >= 0x1_0000_0000 {
        return Err(WeaveFault::TooLong(number));
    }
    match push_stream(trace, bytes) {
        Ok(()) => Ok(()),
        Err(_) => Err(WeaveFault::OutOfMemory),
    }
}

/// The header of a file of so many streams.
fn header(alloc: Global, halves: bool, count: u8) -> Result<Text, OutOfMemory>
    ensures { IfOk result (λ text. text ≡ header_bytes several_streams (heading_of count halves)) }
{
    let mut text = Text::new(alloc);
    text.push(&[0x52, 0x54, 0x52, 0x32, count, u8::from(halves), 0, 0])?;
    Ok(text)
}

/// A trace of what harts did, as the bytes of a file: one stream for each hart, in order, which has
/// for each stretch a start packet of its begin and its thread, packets that tell its branches and
/// addresses, the end of the trace, and a context packet of its end. `halves` says whether code may
/// be compressed: byte 5 of the header is 1 then, and addresses are sent with 31 bits. A walk along
/// the packets of a stretch has its steps, in each code that has their instructions: up to the last
/// step, over which a gap leads. Each stretch must have a step, and each step must be one that a
/// hart can make, short only where code may be compressed.
///
/// The refusals are `HartCount`; `InnerCall` of a call that isn't the last step of its stretch;
/// `JumpEnds` of the first call of a stretch that directly follows an uninferable jump; and
/// `TooLong` of a hart whose packets take 2^32 bytes or more. Times aren't looked at:
/// `rept_streams::threads::rebuilding::rebuild_many` refuses those that go back, and skips what is
/// before the greatest begin of the harts' first stretches.
pub fn weave(alloc: Global, halves: bool, harts: &Harts) -> Result<Text, WeaveFault>
    requires { All (All (λ s. IsWalkable halves s.steps)) harts.now }
    ensures woven { IfOk result (IsWoven halves harts.now) }
    ensures cause { IfErr result (IsCause halves harts.now) }
{
    let all = harts.all();
    let count = all.len();
    if count == 0 || count > MOST {
        return Err(WeaveFault::HartCount);
    }
    let mut trace = match header(alloc, halves, count as u8) {
        Ok(trace) => trace,
        Err(_) => return Err(WeaveFault::OutOfMemory),
    };
    for i in 0..count {
        if let Err(fault) = push_hart(alloc, &mut trace, halves, &all[i], i) {
            return Err(fault);
        }
    }
    Ok(trace)
}
