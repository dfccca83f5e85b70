//! Numbers of 32 bits, bits of a payload, and texts with the printed forms of numbers.
#![tactic(auto)]

pub mod cursor;
pub mod number;
pub mod parsing;
pub mod print;
pub mod text;

pub use cursor::BitCursor;
pub use number::{cover, inverse_odd, sext};
pub use parsing::{decimal, hexadecimal, is_word, number_in};
pub use text::{OutOfMemory, Text};
