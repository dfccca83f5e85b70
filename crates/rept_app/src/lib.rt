//! The top call: a crash that is opened, and a session over it; or the summary of a made run.
#![tactic(auto)]

mod examine;
mod hold;
mod made_run;
mod mapped;
pub mod process;
mod study;
mod terminal;
mod top;

pub use process::{answer, run};
pub use top::rept;
