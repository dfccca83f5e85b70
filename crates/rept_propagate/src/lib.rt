//! Takes bytes from moment to moment, and learns what they are there.
#![tactic(auto)]

mod link;
mod pairs;
pub mod propagation;
mod recent;
mod step;
mod walls;

pub use propagation::{Propagation, WORD};
