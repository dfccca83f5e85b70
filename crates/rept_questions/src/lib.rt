//! Answers that are worked out from what an analysis found.
#![tactic(auto)]

pub mod calls;
pub mod frames;
pub mod lost;
pub mod reasons;
pub mod rows;
pub mod spots;
pub mod stack;
mod trail;
pub mod trail_text;
pub mod writers;

pub use frames::{Frame, frames_of};
