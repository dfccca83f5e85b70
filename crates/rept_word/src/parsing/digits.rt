//! The numbers that words spell.

ghost use Rattle.std.specs.Prelude.{◌≡◌, ◌<◌, ◌≤◌, ◌^◌, length, true};
ghost use Rattle.std.specs.List.{list_all};
ghost use Rattle.std.specs.Char.{digit_value, is_ascii_digit, is_ascii_hexdigit};
ghost use Rattle.rept_word.specs.Parsing.Numbers.{are_hexadecimal, decimal_of, decimal_value, hexadecimal_of, hexadecimal_value, is_hexadecimal, number_of_word};

/// The number that 1 to 10 decimal digits spell, where it is below 2^32. None for every other word.
pub fn decimal(word: &[u8]) -> Option<u32>
    ensures { result ≡ decimal_of word.now }
{
    if word.is_empty() || word.len() > 10 || !are_digits(word) {
        return None;
    }
    u32::try_from(value(word)).ok()
}

fn are_digits(word: &[u8]) -> bool
    ensures { result ≡ list_all is_ascii_digit word.now }
{
    word.iter().all(|byte| byte.is_ascii_digit())
}

/// The number that so few digits spell.
fn value(digits: &[u8]) -> u64
    requires digits { list_all is_ascii_digit digits.now ≡ true }
    requires few { length digits.now ≤ 10 }
    ensures { result ≡ decimal_value digits.now }
{
    let mut n = 0u64;
    for digit in digits {
        n = 10 * n + u64::from(*digit - b'0');
    }
    n
}

/// The number that a word of the session spells: decimal digits, or `0x` or `0X` and 1 to 8
/// hexadecimal digits. None for every other word.
pub fn number_in(word: &[u8]) -> Option<u32>
    ensures { result ≡ number_of_word word.now }
{
    if is_hexadecimal_word(word) {
        Some(hexadecimal_value(&word[2..]))
    } else {
        decimal(word)
    }
}

/// The number that 1 to 8 hexadecimal digits spell. None for every other word.
pub fn hexadecimal(digits: &[u8]) -> Option<u32>
    ensures { result ≡ hexadecimal_of digits.now }
{
    if !are_hexadecimal_digits(digits) {
        return None;
    }
    Some(hexadecimal_value(digits))
}

fn is_hexadecimal_word(word: &[u8]) -> bool
    ensures { result ≡ is_hexadecimal word.now }
{
    if !word.starts_with(b"0x") && !word.starts_with(b"0X") {
        return false;
    }
    are_hexadecimal_digits(&word[2..])
}

fn are_hexadecimal_digits(digits: &[u8]) -> bool
    ensures { result ≡ are_hexadecimal digits.now }
{
    if digits.is_empty() || digits.len() > 8 {
        return false;
    }
    are_all_hexadecimal(digits)
}

fn are_all_hexadecimal(bytes: &[u8]) -> bool
    ensures { result ≡ list_all is_ascii_hexdigit bytes.now }
{
    bytes.iter().all(|byte| byte.is_ascii_hexdigit())
}

/// The number that so few hexadecimal digits spell.
fn hexadecimal_value(digits: &[u8]) -> u32
    requires digits { list_all is_ascii_hexdigit digits.now ≡ true }
    requires few { length digits.now ≤ 8 }
    ensures { result ≡ hexadecimal_value digits.now }
{
    let mut n = 0;
    for digit in digits {
        n = 16 * n + digit_of(*digit);
    }
    n
}

/// The value of a hexadecimal digit.
fn digit_of(byte: u8) -> u32
    requires { is_ascii_hexdigit byte ≡ true }
    ensures value { result ≡ digit_value byte }
    ensures small { result < 16 }
{
    match byte {
        b'0'..=b'9' => u32::from(byte - b'0'),
        b'a'..=b'f' => u32::from(byte - b'a') + 10,
        _ => u32::from(byte - b'A') + 10,
    }
}
