//! What is found where a line ends.

ghost use Rattle.std.specs.Prelude.{◌≤◌, ℕ, List};
ghost use Rattle.std.specs.Str.Lines.{strip_carriage_return};
ghost use Rattle.rept_ports.specs.Lines.{HoldsLine, IsFound, IsLastLine};

use crate::lines::limits::MOST_LINE;
use arrayvec::ArrayVec;

/// What was found: a line whose bytes are kept, one of more than 256 bytes, or the end of the
/// input.
#[derive(Clone, Copy)]
pub enum LineRead {
    Text,
    Long,
    End,
}

/// The bytes of a line so far, one more than a line may have.
pub type LineBytes = ArrayVec<u8, 257>;

/// What a line is that ends here, whose carriage return is taken off.
pub fn finish(line: &mut LineBytes, is_long: bool) -> LineRead
    ensures { (front : List ℕ) → HoldsLine line.old.items is_long front → IsFound result line.new.items (strip_carriage_return front) }
{
    if is_long {
        return LineRead::Long;
    }
    if line.last() == Some(&b'\r') {
        line.pop();
    }
    if line.len() > MOST_LINE {
        return LineRead::Long;
    }
    LineRead::Text
}

/// What stands after the last newline.
pub fn at_end(line: &LineBytes, is_long: bool) -> LineRead
    ensures { (front : List ℕ) → HoldsLine line.now.items is_long front → IsLastLine result line.now.items front }
{
    if is_long || line.len() > MOST_LINE {
        return LineRead::Long;
    }
    if line.is_empty() {
        return LineRead::End;
    }
    LineRead::Text
}
