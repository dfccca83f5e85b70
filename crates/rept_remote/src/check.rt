//! What a packet brings.

ghost use Rattle.std.specs.Prelude.{◌≡◌, ℕ, List};
ghost use Rattle.rept_remote.specs.Escapes.{digit_value, digits_value};
ghost use Rattle.rept_remote.specs.Frames.{arrived, brought};
ghost use Rattle.rept_remote.specs.Steps.{IsBody};

use crate::arrival::Arrival;
use crate::frame::{Body, PacketBytes};
use crate::unescape::unescape;

/// What a packet of these bytes and digits brings. The bytes that it carries are then in `carried`.
pub fn bring(kept: &PacketBytes, told: Body, digits: (u8, u8), carried: &mut PacketBytes) -> Arrival
    ensures { (body : List ℕ) → IsBody kept.now.items told body → arrived result carried.new.items ≡ brought body digits.0 digits.1 }
{
    if digits_value(digits.0, digits.1) != Some(told.sum) {
        return Arrival::Broken;
    }
    if told.is_large {
        return Arrival::Large;
    }
    if unescape(kept.as_slice(), carried) {
        Arrival::Packet
    } else {
        Arrival::Broken
    }
}

/// The number that two hexadecimal digits are. None exactly where one of them is no digit.
pub fn digits_value(high: u8, low: u8) -> Option<u8>
    ensures { result ≡ digits_value high low }
{
    match (digit_value(high), digit_value(low)) {
        (Some(high), Some(low)) => Some(16 * high + low),
        _ => None,
    }
}

/// The value of a hexadecimal digit, in lower or upper case.
fn digit_value(digit: u8) -> Option<u8>
    ensures { result ≡ digit_value digit }
{
    match digit {
        b'0'..=b'9' => Some(digit - b'0'),
        b'a'..=b'f' => Some(digit - b'a' + 10),
        b'A'..=b'F' => Some(digit - b'A' + 10),
        _ => None,
    }
}
