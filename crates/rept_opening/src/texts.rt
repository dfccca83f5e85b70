//! Words with numbers and addresses, as refusals have them.

ghost use Rattle.std.specs.Prelude.{◌≡◌, ◌++◌, OnOk};
ghost use Rattle.std.specs.Fmt.{decimal};
ghost use Rattle.rept_word.specs.Hex.{hex_word};

use rept_word::{OutOfMemory, Text};

/// Words as they stand, and a number in decimal.
pub fn push_numbered(text: &mut Text, words: &[u8], number: u64) -> Result<(), OutOfMemory>
    ensures { OnOk result (text.new ≡ text.old ++ (words.now ++ decimal number)) }
{
    text.push(words)?;
    text.push_count(number)?;
    Ok(())
}

/// Words as they stand, and an address or a word of code in hexadecimal.
pub fn push_placed(text: &mut Text, words: &[u8], place: u32) -> Result<(), OutOfMemory>
    ensures { OnOk result (text.new ≡ text.old ++ (words.now ++ hex_word place)) }
{
    text.push(words)?;
    text.push_word(place)?;
    Ok(())
}
