//! The packets of a source.

ghost use Rattle.std.specs.Prelude.{◌≡◌, ◌≤◌, ◌∷◌, [], None, true};
ghost use Rattle.rept_ports.specs.Port.{move};
ghost use Rattle.rept_remote.specs.Reading.{most_input};
ghost use Rattle.rept_remote.specs.Steps.{TakesArrival, TakesPacket, ending_of};

use crate::arrival::{Arrival, Ending};
use crate::bytes::{NoByte, take_call};
use crate::check::bring;
use crate::frame::{PacketBytes, take_body, take_digits};
use rept_ports::Source;
use std::marker::Model;

/// A reader of packets. It takes bytes one by one, at most 1,099,511,627,776 of them.
///
/// Between packets it passes over all bytes but `-` and that of an interrupt.
#[derive(Drop)]
pub struct GdbPackets {
    kept: PacketBytes,
    carried: PacketBytes,
    count: u64,
    over: Option<Ending>,
}

impl Model for GdbPackets {
    ghost use Rattle.std.specs.Prelude.{◌≤◌};
    ghost use Rattle.rept_remote.specs.Reading.{PacketReader, most_input};

    ghost Value = { PacketReader };

    ghost view = { λ s. record { carried = s.carried.items; count = s.count; over = s.over } };

    ghost invariant = { λ s. s.count ≤ most_input };
}

impl GdbPackets {
    ghost use Rattle.rept_remote.specs.Reading.{ReadsNext};

    /// No byte was taken yet.
    pub fn new() -> GdbPackets
        ensures { result ≡ record { carried = []; count = 0; over = None } }
    {
        GdbPackets {
            kept: PacketBytes::new(),
            carried: PacketBytes::new(),
            count: 0,
            over: None,
        }
    }

    /// The bytes that the last packet carries.
    pub fn carried(&self) -> &[u8]
        ensures { result.now ≡ self.now.carried }
    {
        self.carried.as_slice()
    }

    /// Goes on to what arrives next. The bytes that a packet carries are `carried` then, up to the
    /// next call.
    ///
    /// `AtEnd` comes exactly at the end of the input where no packet is open, and `InPacket` where
    /// one is. `ReadFault` comes only where the source counted one fault in this call, and
    /// `TooMuchInput` where 1,099,511,627,776 bytes were taken and another one came; nothing
    /// arrived in the bytes that were taken then. After a refusal each call answers the same again,
    /// and nothing is read.
    pub fn next<S: Source>(&mut self, source: &mut S) -> Result<Arrival, Ending>
        ensures { ReadsNext self.old self.new (move (S.port source.old) (S.port source.new)) result }
    {
        if let Some(why) = self.over {
            return Err(why);
        }
        let found = take_arrival(&mut self.count, source, &mut self.kept, &mut self.carried);
        if let Err(why) = found {
            self.over = Some(why);
        }
        found
    }
}

/// What arrives next.
fn take_arrival<S: Source>(
    count: &mut u64,
    source: &mut S,
    kept: &mut PacketBytes,
    carried: &mut PacketBytes,
) -> Result<Arrival, Ending>
    requires { count.old ≤ most_input }
    ensures { TakesArrival (move count.old count.new) (move (S.port source.old) (S.port source.new)) carried.new.items result }
{
    match take_call(count, source) {
        Ok(b'$') => match take_packet(count, source, kept, carried) {
            Ok(arrival) => Ok(arrival),
            Err(why) => Err(ending_of(why, Ending::InPacket)),
        },
        Ok(b'-') => Ok(Arrival::Again),
        Ok(_) => Ok(Arrival::Interrupt),
        Err(why) => Err(ending_of(why, Ending::AtEnd)),
    }
}

/// What comes after `$`.
fn take_packet<S: Source>(
    count: &mut u64,
    source: &mut S,
    kept: &mut PacketBytes,
    carried: &mut PacketBytes,
) -> Result<Arrival, NoByte>
    requires { count.old ≤ most_input }
    ensures { TakesPacket (move count.old count.new) (move (S.port source.old) (S.port source.new)) carried.new.items result }
{
    let told = take_body(count, source, kept)?;
    match take_digits(count, source) {
        Ok(digits) => Ok(bring(kept, told, digits, carried)),
        Err(why) => Err(why),
    }
}

/// What is told where no byte came, by what is told at the end of the input.
fn ending_of(why: NoByte, last: Ending) -> Ending
    ensures { result ≡ ending_of why last }
{
    match why {
        NoByte::End => last,
        NoByte::ReadFault => Ending::ReadFault,
        NoByte::TooMuchInput => Ending::TooMuchInput,
    }
}
