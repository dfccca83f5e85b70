//! Which of several writers, each with a thread and two times, may write while a thread rests.

mod latest;
mod writer;
mod writers;

pub use writer::{Rest, TimedWriter};
pub use writers::Writers;
