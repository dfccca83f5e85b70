//! Reading one line.

ghost use Rattle.std.specs.Prelude.{◌≡◌, false};
ghost use Rattle.rept_ports.specs.Lines.{LineStep, said_of};

use crate::lines::found::{LineBytes, LineRead, at_end, finish};
use crate::lines::intake::Intake;
use crate::lines::limits::LineFault;
use crate::traits::Source;

/// Reads the next line into `line`.
pub fn read_line<S: Source>(
    intake: &mut Intake,
    source: &mut S,
    line: &mut LineBytes,
) -> Result<LineRead, LineFault>
    requires { intake.old.ended ≡ false }
    ensures { LineStep intake.old intake.new (S.port source.old) (S.port source.new) (said_of result line.new.items) }
{
    line.clear();
    let mut is_long = false;
    loop {
        match intake.take(source) {
            Ok(None) => return Ok(at_end(line, is_long)),
            Ok(Some(byte)) => {
                if byte == b'\n' {
                    return Ok(finish(line, is_long));
                }
                if line.try_push(byte).is_err() {
                    is_long = true;
                }
            }
            Err(fault) => return Err(fault),
        }
    }
}
