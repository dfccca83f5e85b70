//! Runs of several threads, one turn after the other: the course that such a run has, and its
//! execution.

pub mod laws;
mod turn;

pub use turn::Turn;
