//! Why the notes of a core file are refused.

use thiserror::Error;

/// The file does not hold a note segment, or a note segment does not hold a note. Note segments are
/// gone through in table order, and the notes of each in turn; the first that is not whole is the
/// fault.
#[derive(Clone, Copy, Debug, PartialEq, Eq, Error)]
#[error("a note at {offset} past the end")]
pub struct NotePastEnd {
    /// The offset of the segment or of the note's header in the file.
    pub offset: u64,
}
