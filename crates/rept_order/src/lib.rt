//! How the rows of several threads may have followed one another: their slices and times, the order
//! that these give, and the executions that keep it.
#![tactic(auto)]

pub mod crossing;
mod edge;
pub mod laws;
pub mod moment;
pub mod order;

pub use crossing::{Rest, TimedWriter};
pub use edge::Edge;
pub use moment::{Act, Moment};
pub use order::Order;
