//! The call stack at a point of a path, told by the path alone.

mod frames;
mod jumps;
mod unwind;

pub use frames::{Frame, follow, frames_of};
pub use jumps::calls;
