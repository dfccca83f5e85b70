//! The lines of a source, which are read with a bound on each and a bound on all, and without
//! memory.

mod bounded;
mod found;
mod intake;
mod limits;
mod next_line;
mod read_line;

pub use bounded::BoundedLines;
pub use limits::{Line, LineFault};
