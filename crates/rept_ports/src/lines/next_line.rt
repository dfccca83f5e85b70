//! Asking for the next line.

ghost use Rattle.std.specs.Prelude.{◌≡◌, ⊤};
ghost use mathlib.Core.List.{[]};
ghost use mathlib.Core.Option.{none};
ghost use mir.Syntax.{named};
ghost use Rattle.std.specs.Borrow.{sem, follows_so};
ghost use Rattle.rept_ports.specs.Bounded.{LinesOn, said_by};
ghost use Rattle.rept_ports.specs.contracts.lines.bounded.BoundedLines.{the_row};

use crate::lines::bounded::BoundedLines;
use crate::lines::found::LineRead;
use crate::lines::limits::{Line, LineFault};
use crate::traits::Source;

impl<'s, S: Source> BoundedLines<'s, S> {
    /// The next line, or `None` exactly at the end of the input.
    ///
    /// `ReadFault` comes only where the source counted one fault in this call and no whole line is
    /// left of the bytes that were taken. `TooMuchInput` comes exactly where 1,048,576 bytes were
    /// taken, no whole line of them is left, and another byte came. After a fault each call answers
    /// the same again, and nothing is read.
    pub fn next_line(&mut self) -> Result<Option<Line<'_>>, LineFault>
        ensures* { let row = the_row (record { mir = named 1; lft = [] }) S.row in sem 𝓛 (follows_so row row self.entry.ghost_name none (λ _ _. ⊤)
            (λ v. (v.source.ghost_name ≡ self.old.source.ghost_name) × LinesOn S.port self.old v (said_by result))) }
    {
        match self.advance()? {
            LineRead::Text => Ok(Some(Line::Text(self.line.as_slice()))),
            LineRead::Long => Ok(Some(Line::Long)),
            LineRead::End => Ok(None),
        }
    }
}
