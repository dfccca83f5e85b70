//! Runs of several threads that tests make: the turns that threads take, the executions that are
//! played turn after turn, the files that are written of them, and what is rebuilt of a written
//! trace.

pub mod maderuns;
pub mod play;
pub mod turns;
pub mod woven;
