//! The numbers that words spell, and whether a text is a given word.

pub mod digits;
pub mod word;

pub use digits::{decimal, hexadecimal, number_in};
pub use word::is_word;
