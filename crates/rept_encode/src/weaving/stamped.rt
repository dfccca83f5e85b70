//! Packets with a time and a context.

ghost use Rattle.std.specs.Prelude.{◌≡◌, ◌^◌, ◌<◌, ◌≤◌, ◌%◌, [], ◌∷◌, length, IfOk, OnOk};
ghost use Rattle.rept_trace.specs.declared.parameters.Parameters.{Parameters};
ghost use Rattle.rept_trace.specs.declared.packet.Packet.{Packet};
ghost use Rattle.rept_trace.specs.Grammar.{timed, IsPacket};
ghost use Rattle.rept_encode.specs.Walkable.{alignment_by};
ghost use Rattle.rept_encode.specs.Weaving.Stamped.{wide, stamped, start_number, start_bytes, context_number, AddsPackets};

use crate::cut;
use rept_word::{OutOfMemory, Text};
use std::alloc::Global;

/// What a start packet tells, but for the privilege, which is that of a user.
#[derive(Clone, Copy)]
pub struct Start {
    /// Whether the first step is no branch that is taken.
    pub branch: bool,
    pub address: u32,
    pub time: u64,
    pub context: u32,
}

/// An address without its lowest bits, which aren't sent, in 33 bits: past its last one stand
/// copies of it.
fn wide(halves: bool, address: u32) -> u64
    ensures number { result ≡ wide halves address }
    ensures below { result < 2 ^ 33 }
{
    let high = address >= 0x8000_0000;
    if halves {
        u64::from(address / 2) + if high { 0x1_8000_0000 } else { 0 }
    } else {
        u64::from(address / 4) + if high { 0x1_c000_0000 } else { 0 }
    }
}

/// Adds a packet of this payload, cut as short as may be.
fn push_payload(out: &mut Text, payload: &[u8]) -> Result<(), OutOfMemory>
    requires some { 0 < length payload.now }
    requires few { length payload.now ≤ 17 }
    ensures { OnOk result ((widths : Parameters) (packet : Packet) → IsPacket widths payload.now packet → AddsPackets widths out.old out.new (packet ∷ [])) }
{
    let payload = cut(payload);
    out.push(&[payload.len() as u8])?;
    out.push(payload)?;
    Ok(())
}

/// The lowest 128 bits of a start packet.
fn low_bits(branch: bool, time: u64, context: u32, address: u64) -> u128
    requires { address < 2 ^ 33 }
    ensures { result ≡ start_number branch (stamped time context (address % 2 ^ 25)) }
{
    let branch = if branch { 16 } else { 0 };
    let time = u128::from(time) * 0x80;
    let context = u128::from(context) * 0x80_0000_0000_0000_0000;
    let address = u128::from(address % 0x200_0000) * 0x80_0000_0000_0000_0000_0000_0000;
    3 + branch + time + context + address
}

/// The payload of a start packet, uncut.
fn start_payload(alloc: Global, halves: bool, start: &Start) -> Result<Text, OutOfMemory>
    ensures bytes { IfOk result (λ payload. payload ≡ start_bytes halves start.now) }
    ensures small { start.now.address < 2 ^ 32 }
    ensures soon { start.now.time < 2 ^ 64 }
    ensures few { start.now.context < 2 ^ 32 }
{
    let address = wide(halves, start.address);
    let low = low_bits(start.branch, start.time, start.context, address);
    let mut payload = Text::new(alloc);
    payload.push(&low.to_le_bytes())?;
    payload.push(&[(address / 0x200_0000) as u8])?;
    Ok(payload)
}

/// Adds a start packet with a time and a context.
pub fn push_start(
    alloc: Global,
    out: &mut Text,
    halves: bool,
    start: &Start,
) -> Result<(), OutOfMemory>
    requires { start.now.address % alignment_by halves ≡ 0 }
    ensures { OnOk result (AddsPackets (timed halves) out.old out.new (Packet.Start start.now.branch 0 start.now.address start.now.time start.now.context ∷ [])) }
{
    let payload = start_payload(alloc, halves, start)?;
    push_payload(out, payload.bytes())?;
    Ok(())
}

/// The number that is a context packet's payload.
fn context_number(time: u64, context: u32) -> u128
    ensures { result ≡ context_number (stamped time context 0) }
{
    11 + u128::from(time) * 0x40 + u128::from(context) * 0x40_0000_0000_0000_0000
}

/// Adds a context packet with a time.
pub fn push_context(
    out: &mut Text,
    halves: bool,
    time: u64,
    context: u32,
) -> Result<(), OutOfMemory>
    ensures { OnOk result (AddsPackets (timed halves) out.old out.new (Packet.Context 0 time context ∷ [])) }
{
    let bytes = context_number(time, context).to_le_bytes();
    push_payload(out, &bytes[..13])?;
    Ok(())
}
