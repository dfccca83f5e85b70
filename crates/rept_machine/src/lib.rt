//! The states and steps of RV32IMA, and a machine that makes them.
#![tactic(auto)]

pub mod arithmetic;
pub mod calls;
mod execute;
pub mod machine;
mod memory;
mod registers;
mod store;

pub use calls::{ByteCount, CALLS, CallEffect, CallRow, call_of};
pub use machine::{Halt, Machine};
pub use store::store_width;
