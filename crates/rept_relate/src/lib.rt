//! Registers of a path whose values differ by constants.
#![tactic(auto)]

mod called;
pub mod classes;
mod numbering;
mod operations;
mod passes;
mod relating;
mod rules;
mod storing;
mod words;

pub use classes::{ClassNode, Classes, Impossible, Term, shifted};
pub use passes::{CalledPath, RelateStop, relate};
