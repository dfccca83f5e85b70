//! A writer of the traces of several harts.

pub mod fault;
mod stamped;
pub mod stretch;
mod writer;

pub use fault::{HartPlace, WeaveFault};
pub use stretch::{Hart, HartStretch, Harts};
pub use writer::weave;
