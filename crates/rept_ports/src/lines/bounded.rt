//! The lines of an input, within their bounds.

ghost use Rattle.std.specs.Prelude.{◌≡◌, [], None, false};

use crate::lines::found::{LineBytes, LineRead};
use crate::lines::intake::Intake;
use crate::lines::limits::LineFault;
use crate::lines::read_line::read_line;
use crate::traits::Source;

/// The lines of a source, of which at most 1,048,576 bytes are taken, and no more at a time than
/// 512.
///
/// A line ends with a newline, and one carriage return before it is no part of the line. What
/// stands after the last newline is a line too, where it is not empty. The end of the input is
/// remembered: nothing is read after it.
#[derive(Drop)]
pub struct BoundedLines<'s, S: Source> {
    pub(crate) source: &'s mut S,
    pub(crate) intake: Intake,
    pub(crate) line: LineBytes,
    pub(crate) fault: Option<LineFault>,
}

impl<'s, S: Source> BoundedLines<'s, S> {
    ghost use Rattle.rept_ports.specs.Bounded.{LinesOn};
    ghost use Rattle.rept_ports.specs.Lines.{said_of};

    /// No byte was taken yet.
    pub fn new(source: &'s mut S) -> BoundedLines<'s, S>
        ensures same { result.source.ghost_name ≡ source.entry.ghost_name }
        ensures source { result.source.now ≡ source.old }
        ensures none { result.intake ≡ record { pending = []; count = 0; ended = false } }
        ensures no_fault { result.fault ≡ None }
    {
        BoundedLines {
            source,
            intake: Intake::new(),
            line: LineBytes::new(),
            fault: None,
        }
    }

    /// Goes on to the next line, whose bytes are then in `line`.
    pub(crate) fn advance(&mut self) -> Result<LineRead, LineFault>
        ensures same { self.new.source.ghost_name ≡ self.old.source.ghost_name }
        ensures step { LinesOn S.port self.old self.new (said_of result self.new.line.items) }
    {
        if let Some(fault) = self.fault {
            return Err(fault);
        }
        if self.intake.has_ended() {
            return Ok(LineRead::End);
        }
        let found = read_line(&mut self.intake, self.source, &mut self.line);
        if let Err(fault) = found {
            self.fault = Some(fault);
        }
        found
    }
}
