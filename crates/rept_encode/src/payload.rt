//! The payloads of packets, as short as the format allows.

ghost use Rattle.std.specs.Prelude.{◌≡◌, ◌+◌, ◌<◌, ◌≤◌, ◌^◌, ◌*◌, List, ℕ, length, ◌∷◌, [], true, false, IfOk, OnOk, OnErr};
ghost use Rattle.rept_trace.specs.declared.packet.Packet.{Packet};
ghost use Rattle.rept_trace.specs.declared.parameters.Parameters.{Parameters};
ghost use Rattle.rept_trace.specs.Fits.{FieldsFit};
ghost use Rattle.rept_trace.specs.Grammar.{untimed, map_width, qual_number, IsPacket};
ghost use Rattle.rept_encode.specs.Written.{bit, copies, high, sent, past_address, report_number, number_of, fill_after, IsPacketSilent, IsPayloadCutShort, Appends};

use rept_trace::{Packet, Qual, Report};
use rept_word::{OutOfMemory, Text};

/// 1 for true.
fn bit(value: bool) -> u128
    ensures { result ≡ bit value }
{
    if value { 1 } else { 0 }
}

/// 47 copies of a bit.
fn copies(value: bool) -> u128
    ensures { result ≡ copies value }
{
    if value { 0x7fff_ffff_ffff } else { 0 }
}

/// An address without its lowest bits, which aren't sent: one where code may be compressed, else
/// two.
fn sent(halves: bool, address: u32) -> u128
    ensures number { result ≡ sent halves address }
    ensures below { result < 2 ^ 31 }
{
    u128::from(if halves { address / 2 } else { address / 4 })
}

/// What stands past an address.
fn past_address(halves: bool, rest: u128) -> u128
    requires { rest < 2 ^ 49 }
    ensures number { result ≡ past_address halves rest }
    ensures below { result < 2 ^ 80 }
{
    if halves {
        0x8000_0000 * rest
    } else {
        0x4000_0000 * rest
    }
}

/// Whether the highest bit of 32 is set, which is the last one of an address that is sent.
fn high(address: u32) -> bool
    ensures { result ≡ high address }
{
    address >= 0x8000_0000
}

/// A difference and its flags, of which `irreport` says nothing.
fn report_number(halves: bool, report: &Report) -> u128
    ensures number { result ≡ report_number halves report.now }
    ensures below { result < 2 ^ 81 }
{
    let notify = high(report.difference) != report.notify;
    let updiscon = notify != report.updiscon;
    let flags = bit(notify) + 2 * copies(updiscon);
    sent(halves, report.difference) + past_address(halves, flags)
}

/// The number of a status.
fn status_number(status: Qual) -> u128
    ensures { result ≡ qual_number status }
{
    match status {
        Qual::NoChange => 0,
        Qual::EndedRep => 1,
        Qual::TraceLost => 2,
        Qual::EndedNtr => 3,
    }
}

/// A map of so many branches, and a report after it.
fn joined(count: u8, map: u32, report: u128) -> u128
    requires map { map < 2 ^ 31 }
    requires report { report < 2 ^ 81 }
    ensures number { result ≡ map + 2 ^ map_width count * report }
    ensures below { result < 2 ^ 113 }
{
    let map = u128::from(map);
    if count < 2 {
        map + 2 * report
    } else if count < 4 {
        map + 8 * report
    } else if count < 8 {
        map + 128 * report
    } else if count < 16 {
        map + 32768 * report
    } else {
        map + 2147483648 * report
    }
}

/// The number that is a packet's payload. No report says `irreport`.
fn number_of(halves: bool, packet: &Packet) -> u128
    requires { FieldsFit (untimed halves) packet.now }
    ensures { result ≡ number_of halves packet.now }
{
    match *packet {
        Packet::Start {
            branch,
            privilege,
            address,
            ..
        } => {
            let rest = sent(halves, address) + past_address(halves, copies(high(address)));
            3 + 16 * bit(branch) + 32 * u128::from(privilege) + 128 * rest
        }
        Packet::Context { privilege, .. } => 11 + 16 * u128::from(privilege),
        Packet::Support { enabled, status } => 15 + 16 * bit(enabled) + 64 * status_number(status),
        Packet::Address { report } => 2 + 4 * report_number(halves, &report),
        Packet::Map { map } => {
            1 + 128 * (u128::from(map) + 0x8000_0000 * copies(map >= 0x4000_0000))
        }
        Packet::MapAddress { count, map, report } => {
            let rest = joined(count, map, report_number(halves, &report));
            1 + 4 * (u128::from(count) + 32 * rest)
        }
    }
}

/// The byte that is made of copies of the highest bit of the byte before it.
fn filler(before: u8) -> u8
    ensures { result ≡ fill_after before }
{
    if before >= 128 { 255 } else { 0 }
}

/// A payload without the bytes at its end that are made of copies of the bit before them. It spells
/// the same, whatever the widths of the fields are.
pub fn cut(payload: &[u8]) -> &[u8]
    requires { 0 < length payload.now }
    ensures some { 0 < length result.now }
    ensures few { length result.now ≤ length payload.now }
    ensures spells { (widths : Parameters) (packet : Packet) → IsPacket widths payload.now packet → IsPacket widths result.now packet }
    ensures cut { IsPayloadCutShort result.now }
{
    let mut size = payload.len();
    while size > 1 && payload[size - 1] == filler(payload[size - 2]) {
        size -= 1;
    }
    &payload[..size]
}

/// Adds a packet: its length, and its payload, cut as short as may be.
pub fn push_packet(out: &mut Text, halves: bool, packet: &Packet) -> Result<(), OutOfMemory>
    requires fits { FieldsFit (untimed halves) packet.now }
    requires silent { IsPacketSilent packet.now }
    ensures ok { OnOk result (Appends halves out.old out.new packet.now) }
{
    let bytes = number_of(halves, packet).to_le_bytes();
    let payload = cut(&bytes[..10]);
    out.push(&[payload.len() as u8])?;
    out.push(payload)?;
    Ok(())
}
