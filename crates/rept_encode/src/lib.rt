//! A writer of traces: from the steps of a path to packets that tell it.
#![tactic(auto)]

mod bits;
mod branch;
pub mod fault;
mod payload;
mod sender;
mod step;
pub mod weaving;
mod writer;

pub use branch::start_bit;
pub use fault::{EncodeFault, StepFault};
pub use payload::cut;
pub use step::{Site, push_step, step_between};
pub use weaving::{Hart, HartPlace, HartStretch, Harts, WeaveFault, weave};
pub use writer::{encode, encode_after_start};
