//! Which of the rows that may have written a byte lies wholly after all others.

mod search;
pub mod writers;

pub use writers::{last_writer, possible_writer};
