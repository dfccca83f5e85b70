//! Pairs of numbers in packets.

ghost use Rattle.std.specs.Prelude.{◌≡◌};
ghost use Rattle.std.specs.List.{position};
ghost use Rattle.rept_remote.specs.Request.Numbers.{both, is_comma, pair_of};

use rept_word::hexadecimal;

/// Two numbers with a comma between them. None for every other text.
pub fn pair_of(text: &[u8]) -> Option<(u32, u32)>
    ensures { result ≡ pair_of text.now }
{
    match comma_in(text) {
        Some(comma) => both(hexadecimal(&text[..comma]), hexadecimal(&text[comma + 1..])),
        None => None,
    }
}

/// Where the first comma is.
fn comma_in(text: &[u8]) -> Option<usize>
    ensures { result ≡ position is_comma text.now }
{
    text.iter().position(|byte| *byte == b',')
}

fn both(first: Option<u32>, second: Option<u32>) -> Option<(u32, u32)>
    ensures { result ≡ both first second }
{
    match (first, second) {
        (Some(first), Some(second)) => Some((first, second)),
        _ => None,
    }
}
