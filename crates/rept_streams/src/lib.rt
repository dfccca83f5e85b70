//! What the traces of several harts mean: the slices that they tell of each thread, and the threads
//! that are rebuilt of these.
#![tactic(auto)]

pub mod runs;
pub mod slices;
pub mod threads;

pub use runs::{end_untraced, is_several, paths_are_whole, read_run, runs_are_small};
