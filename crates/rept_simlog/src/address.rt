//! The address that a line writes.

ghost use Rattle.std.specs.Prelude.{◌≡◌, ◌+◌, ◌*◌, ◌<◌, ◌≤◌, ◌^◌, ℕ, IfSome, IfNone};
ghost use Rattle.std.specs.Str.Parse.{IsNumeral, digits_value};
ghost use Rattle.rept_simlog.specs.Log.{IsLogNumber};

/// A number with one digit more, if that is below 2^32.
fn with_digit(radix: u32, value: u32, digit: u32) -> Option<u32>
    ensures some { IfSome result (λ n. n ≡ value * radix + digit) }
    ensures none { IfNone result (2 ^ 32 ≤ value * radix + digit) }
{
    value.checked_mul(radix)?.checked_add(digit)
}

/// The number that digits of a radix write, if it is below 2^32.
fn numeral(radix: u32, digits: &[u8]) -> Option<u32>
    requires low { 2 ≤ radix }
    requires high { radix ≤ 36 }
    ensures some { IfSome result (λ n. IsNumeral radix digits.now × (digits_value radix digits.now ≡ n)) }
    ensures none { IfNone result (IsNumeral radix digits.now → digits_value radix digits.now < 2 ^ 32 → ⊥) }
{
    if digits.is_empty() {
        return None;
    }
    let mut value = 0u32;
    for byte in digits {
        let digit = char::from(*byte).to_digit(radix)?;
        match with_digit(radix, value, digit) {
            Some(next) => value = next,
            None => return None,
        }
    }
    Some(value)
}

/// The address that a line gives.
pub fn address_of(line: &[u8]) -> Option<u32>
    ensures some { IfSome result (λ n. IsLogNumber line.now n) }
    ensures none { IfNone result ((n : ℕ) → IsLogNumber line.now n → ⊥) }
{
    if line.len() >= 2 && line[0] == b'0' && line[1] == b'x' {
        return numeral(16, &line[2..]);
    }
    numeral(10, line)
}
