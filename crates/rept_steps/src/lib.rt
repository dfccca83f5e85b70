//! The steps of an executed path, one after another, and runs of several threads with their slices.
#![tactic(auto)]

mod fault;
mod run;
mod slice;
mod sound;
mod steps;
mod threads;

pub use fault::PushFault;
pub use run::Run;
pub use slice::{Slice, Slices};
pub use sound::is_sound;
pub use steps::{LIMIT, Steps};
pub use threads::{ThreadRows, Threads};
