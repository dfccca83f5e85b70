//! The run of a program with several threads, rebuilt from the slices that the instruction traces
//! of several harts tell: their walks and joins.

pub mod joins;
pub mod meeting;
pub mod notes;
pub mod rebuilding;
pub mod stretch;
pub mod walks;
