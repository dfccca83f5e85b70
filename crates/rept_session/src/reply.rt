//! The answer to a command.

use rept_findings::ThreadPoint;
use rept_word::Text;

/// The answer to a command, and where the session stands after it.
#[derive(Drop)]
pub struct Answer {
    /// the point at which the cursor is after the command
    pub cursor: ThreadPoint,
    /// the text to write, whole lines
    pub text: Text,
    /// whether the session ends here
    pub quit: bool,
}
