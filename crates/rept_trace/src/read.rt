//! From a payload to its packet.

ghost use Rattle.std.specs.Prelude.{◌≡◌, ◌+◌, ◌<◌, ◌≤◌, ℕ, List, length};
ghost use Rattle.rept_word.specs.Bits.{field};
ghost use Rattle.rept_word.specs.Cursor.{IsAt};
ghost use Rattle.rept_trace.specs.declared.parameters.Parameters.{Parameters as Widths};
ghost use Rattle.rept_trace.specs.Grammar.{address_width, sent_address, map_width, qual_number, after_stamp, stamp_of, IsReportAt, IsStamp, IsPacket, Spells};

use crate::fault::TraceFault;
use crate::packet::{Packet, Qual, Report};
use crate::parameters::Parameters;
use rept_word::BitCursor;

/// The packet that a payload spells, or why packet number `number` is refused.
pub fn packet_of(payload: &[u8], widths: Parameters, number: u64) -> Result<Packet, TraceFault>
    requires some { 0 < length payload.now }
    requires widths { (widths.time_width ≤ 64) × (widths.context_width ≤ 32) }
    ensures { Spells widths number payload.now result }
{
    let mut cursor = BitCursor::new(payload);
    match cursor.take(2) {
        0 => Err(TraceFault::Optional(number)),
        1 => Ok(branches(&mut cursor, widths)),
        2 => Ok(Packet::Address {
            report: report(&mut cursor, widths),
        }),
        _ => synchronisation(&mut cursor, widths, number),
    }
}

/// The rest of a packet of format 1.
fn branches(cursor: &mut BitCursor<'_>, widths: Parameters) -> Packet
    ensures { (payload : List ℕ) →
        IsAt cursor.old payload 2 → field payload 0 2 ≡ 1 → IsPacket widths payload result }
{
    let count = cursor.take(5) as u8;
    if count == 0 {
        let map = cursor.take(31) as u32;
        return Packet::Map { map };
    }
    let map = cursor.take(width_of(count)) as u32;
    let report = report(cursor, widths);
    Packet::MapAddress { count, map, report }
}

/// The rest of a packet of format 3.
fn synchronisation(
    cursor: &mut BitCursor<'_>,
    widths: Parameters,
    number: u64,
) -> Result<Packet, TraceFault>
    requires { (widths.time_width ≤ 64) × (widths.context_width ≤ 32) }
    ensures { (payload : List ℕ) →
        IsAt cursor.old payload 2 → field payload 0 2 ≡ 3 → Spells widths number payload result }
{
    match cursor.take(2) {
        0 => Ok(start(cursor, widths)),
        1 => Err(TraceFault::Trap(number)),
        2 => {
            let privilege = cursor.take(2) as u8;
            let (time, context) = stamp(cursor, widths);
            Ok(Packet::Context {
                privilege,
                time,
                context,
            })
        }
        _ => support(cursor, number),
    }
}

/// The rest of a packet of format 3 and subformat 0.
fn start(cursor: &mut BitCursor<'_>, widths: Parameters) -> Packet
    requires { (widths.time_width ≤ 64) × (widths.context_width ≤ 32) }
    ensures { (payload : List ℕ) →
        IsAt cursor.old payload 4 → field payload 0 2 ≡ 3 → field payload 2 2 ≡ 0 →
        IsPacket widths payload result }
{
    let branch = cursor.take(1) == 1;
    let privilege = cursor.take(2) as u8;
    let (time, context) = stamp(cursor, widths);
    let address = address(cursor, widths);
    Packet::Start {
        branch,
        privilege,
        address,
        time,
        context,
    }
}

/// A time and a context.
fn stamp(cursor: &mut BitCursor<'_>, widths: Parameters) -> (u64, u32)
    requires { (widths.time_width ≤ 64) × (widths.context_width ≤ 32) }
    ensures fields { (payload : List ℕ) (i : ℕ) →
        IsAt cursor.old payload i → IsStamp widths payload i (stamp_of result.0 result.1) }
    ensures at { (payload : List ℕ) (i : ℕ) →
        IsAt cursor.old payload i → IsAt cursor.new payload (after_stamp widths i) }
{
    let time = cursor.take(widths.time_width);
    let context = cursor.take(widths.context_width) as u32;
    (time, context)
}

/// The rest of a packet of format 3 and subformat 3.
fn support(cursor: &mut BitCursor<'_>, number: u64) -> Result<Packet, TraceFault>
    ensures { (payload : List ℕ) →
        IsAt cursor.old payload 4 → field payload 0 2 ≡ 3 → field payload 2 2 ≡ 3 →
        (widths : Widths) → Spells widths number payload result }
{
    let enabled = cursor.take(1) == 1;
    let mode = cursor.take(1);
    let status = status_of(cursor.take(2));
    let options = cursor.take(5);
    if mode == 0 && options == 0 {
        Ok(Packet::Support { enabled, status })
    } else {
        Err(TraceFault::BadSupport(number))
    }
}

/// An address, or a difference of addresses, whose lowest bits aren't sent.
fn address(cursor: &mut BitCursor<'_>, widths: Parameters) -> u32
    ensures value { (payload : List ℕ) (i : ℕ) →
        IsAt cursor.old payload i → result ≡ sent_address widths payload i }
    ensures at { (payload : List ℕ) (i : ℕ) →
        IsAt cursor.old payload i → IsAt cursor.new payload (i + address_width widths) }
{
    if widths.halves {
        return cursor.take(31) as u32 * 2;
    }
    cursor.take(30) as u32 * 4
}

/// A difference with its three flags, each of which says something where it differs from the bit
/// before it.
fn report(cursor: &mut BitCursor<'_>, widths: Parameters) -> Report
    ensures { (payload : List ℕ) (i : ℕ) → IsAt cursor.old payload i → IsReportAt widths payload i result }
{
    let difference = address(cursor, widths);
    let notify = cursor.take(1);
    let updiscon = cursor.take(1);
    let irreport = cursor.take(1);
    Report {
        difference,
        notify: notify != u64::from(difference >> 31),
        updiscon: updiscon != notify,
        irreport: irreport != updiscon,
    }
}

/// The width of the map of so many branches.
fn width_of(count: u8) -> u32
    ensures { result ≡ map_width count }
{
    if count < 2 {
        1
    } else if count < 4 {
        3
    } else if count < 8 {
        7
    } else if count < 16 {
        15
    } else {
        31
    }
}

/// The status of a number of two bits.
fn status_of(number: u64) -> Qual
    requires { number < 4 }
    ensures { qual_number result ≡ number }
{
    match number {
        0 => Qual::NoChange,
        1 => Qual::EndedRep,
        2 => Qual::TraceLost,
        _ => Qual::EndedNtr,
    }
}
