//! The bounds of an input and its lines.

use thiserror::Error;

/// The most bytes that are taken of a source.
pub const MOST_INPUT: usize = 1_048_576;

/// The most bytes of a line that is given.
pub const MOST_LINE: usize = 256;

/// Why no line was read.
#[derive(Clone, Copy, Debug, Error)]
pub enum LineFault {
    /// The source failed.
    #[error("the source failed")]
    ReadFault,
    /// The source has more than 1,048,576 bytes.
    #[error("too much input")]
    TooMuchInput,
}

/// A line of the input, without the newline that ends it and without one carriage return before
/// that.
#[derive(Clone, Copy, Debug)]
pub enum Line<'a> {
    /// Its bytes, of which there are at most 256.
    Text(&'a [u8]),
    /// It has more than 256 bytes, and was passed over.
    Long,
}
