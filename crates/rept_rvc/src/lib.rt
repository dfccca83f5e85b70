//! The compressed instructions of RV32, and the instructions that they stand for.
#![tactic(auto)]

mod expander;
mod field;
mod immediate;
mod quadrant_one;
mod quadrant_two;
mod quadrant_zero;

pub use expander::expand;
