//! Bytes of a source, one by one.

ghost use Rattle.std.specs.Prelude.{◌≤◌};
ghost use Rattle.rept_ports.specs.Port.{move};
ghost use Rattle.rept_remote.specs.Frames.{asks};
ghost use Rattle.rept_remote.specs.Reading.{most_input};
ghost use Rattle.rept_remote.specs.Steps.{TakesByte, TakesCall};
ghost use Rattle.std.specs.Prelude.{◌≡◌};

use crate::arrival::MOST_INPUT;
use rept_ports::Source;

/// Why there is no byte.
#[derive(Clone, Copy)]
pub enum NoByte {
    End,
    ReadFault,
    TooMuchInput,
}

/// The next byte. `count` is how many were taken so far.
pub fn take_byte<S: Source>(count: &mut u64, source: &mut S) -> Result<u8, NoByte>
    requires { count.old ≤ most_input }
    ensures { TakesByte (move count.old count.new) (move (S.port source.old) (S.port source.new)) result }
{
    let mut byte = [0u8; 1];
    match source.read(&mut byte) {
        Ok(0) => Err(NoByte::End),
        Ok(_) if *count == MOST_INPUT => Err(NoByte::TooMuchInput),
        Ok(_) => {
            *count += 1;
            Ok(byte[0])
        }
        Err(_) => Err(NoByte::ReadFault),
    }
}

/// The next byte that asks for something.
pub fn take_call<S: Source>(count: &mut u64, source: &mut S) -> Result<u8, NoByte>
    requires { count.old ≤ most_input }
    ensures { TakesCall (move count.old count.new) (move (S.port source.old) (S.port source.new)) result }
{
    loop {
        match take_byte(count, source) {
            Ok(byte) if asks(byte) => return Ok(byte),
            Ok(_) => {}
            Err(why) => return Err(why),
        }
    }
}

/// Whether a byte between packets asks for something.
fn asks(byte: u8) -> bool
    ensures { result ≡ asks byte }
{
    byte == b'$' || byte == b'-' || byte == 3
}
