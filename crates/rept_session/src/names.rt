//! The names of registers.

ghost use Rattle.std.specs.Prelude.{◌≡◌, ◌<◌};
ghost use Rattle.rept_session.specs.Registers.{named, plain_index, indexed, register_of};

use rept_isa::Reg;
use rept_word::is_word;

/// The register that a word names. None exactly where it names none.
pub fn register_named(word: &[u8]) -> Option<Reg>
    ensures { result ≡ register_of word.now }
{
    if let Some(number) = named(word) {
        return Reg::new(number);
    }
    let Some((letter, digits)) = word.split_first() else {
        return None;
    };
    let Some(index) = plain_index(digits) else {
        return None;
    };
    let Some(number) = indexed(*letter, index) else {
        return None;
    };
    Reg::new(number)
}

/// The number of a register that has a name without a number.
fn named(word: &[u8]) -> Option<u8>
    ensures { result ≡ named word.now }
{
    if is_word(word, b"zero") {
        Some(0)
    } else if is_word(word, b"ra") {
        Some(1)
    } else if is_word(word, b"sp") {
        Some(2)
    } else if is_word(word, b"gp") {
        Some(3)
    } else if is_word(word, b"tp") {
        Some(4)
    } else if is_word(word, b"fp") {
        Some(8)
    } else {
        None
    }
}

/// The number that one or two decimal digits spell, without a leading zero.
fn plain_index(digits: &[u8]) -> Option<u8>
    ensures { result ≡ plain_index digits.now }
{
    match digits {
        [unit] if unit.is_ascii_digit() => Some(*unit - b'0'),
        [ten, unit] if *ten != b'0' && ten.is_ascii_digit() && unit.is_ascii_digit() => {
            Some(10 * (*ten - b'0') + (*unit - b'0'))
        }
        _ => None,
    }
}

/// The number of the register of this letter and this index.
fn indexed(letter: u8, index: u8) -> Option<u8>
    ensures { result ≡ indexed letter index }
{
    match letter {
        b'x' if index < 32 => Some(index),
        b'a' if index < 8 => Some(10 + index),
        b's' if index < 2 => Some(8 + index),
        b's' if index < 12 => Some(16 + index),
        b't' if index < 3 => Some(5 + index),
        b't' if index < 7 => Some(25 + index),
        _ => None,
    }
}
