//! Which of the rows that may have written a byte lies wholly after all others.

pub mod sought;
pub mod writes;

pub use sought::{SoughtByte, SoughtRows};
pub use writes::RowWrites;
