//! What follows from a path and the dump in which it ends.
#![tactic(auto)]

pub mod analysis;
mod fresh;

pub use analysis::Analysis;
