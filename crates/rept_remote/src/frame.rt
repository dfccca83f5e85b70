//! The parts of a packet.

ghost use Rattle.std.specs.Prelude.{◌≡◌, ◌≢◌, ◌≤◌, ℕ, List, [], ◌∷◌, ◌++◌};
ghost use Rattle.rept_ports.specs.Port.{move};
ghost use Rattle.rept_remote.specs.Reading.{most_input};
ghost use Rattle.rept_remote.specs.Steps.{IsBody, TakesBody, TakesDigits};

use crate::bytes::{NoByte, take_byte};
use arrayvec::ArrayVec;
use rept_ports::Source;

/// The bytes of a packet between `$` and `#`: 4,096 at most.
pub type PacketBytes = ArrayVec<u8, 4096>;

/// What is told of the bytes between `$` and `#` besides the bytes.
#[derive(Clone, Copy)]
pub struct Body {
    /// their sum in eight bits
    pub sum: u8,
    /// whether they are more than 4096
    pub is_large: bool,
}

/// Takes all bytes up to `#`, and that byte.
pub fn take_body<S: Source>(
    count: &mut u64,
    source: &mut S,
    kept: &mut PacketBytes,
) -> Result<Body, NoByte>
    requires { count.old ≤ most_input }
    ensures { TakesBody (move count.old count.new) (move (S.port source.old) (S.port source.new)) kept.new.items result }
{
    kept.clear();
    let mut told = Body {
        sum: 0,
        is_large: false,
    };
    loop {
        match take_byte(count, source) {
            Ok(b'#') => return Ok(told),
            Ok(byte) => told = with_byte(kept, told, byte),
            Err(why) => return Err(why),
        }
    }
}

/// One byte more.
fn with_byte(kept: &mut PacketBytes, told: Body, byte: u8) -> Body
    ensures { (body : List ℕ) → byte ≢ 35 → IsBody kept.old.items told body → IsBody kept.new.items result (body ++ byte ∷ []) }
{
    Body {
        sum: told.sum.wrapping_add(byte),
        is_large: told.is_large || kept.try_push(byte).is_err(),
    }
}

/// Takes the two digits after `#`.
pub fn take_digits<S: Source>(count: &mut u64, source: &mut S) -> Result<(u8, u8), NoByte>
    requires { count.old ≤ most_input }
    ensures { TakesDigits (move count.old count.new) (move (S.port source.old) (S.port source.new)) result }
{
    let high = take_byte(count, source)?;
    match take_byte(count, source) {
        Ok(low) => Ok((high, low)),
        Err(why) => Err(why),
    }
}
