//! The path of a program, rebuilt from its instruction trace.
#![tactic(auto)]

pub mod aim;
mod bits;
pub mod fault;
pub mod flow;
pub mod laws;
mod look;
pub mod program;
mod rebuilding;
pub mod walk;
pub mod window;

pub use fault::PathFault;
pub use look::{by_half, by_word, instruction_at};
pub use rebuilding::{Path, rebuild};
