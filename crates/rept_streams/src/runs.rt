//! From a trace of several streams to the run that it tells.

pub mod calls;
pub mod ending;
pub mod kind;
pub mod laws;
pub mod reading;

pub use ending::end_untraced;
pub use kind::is_several;
pub use laws::{paths_are_whole, runs_are_small};
pub use reading::read_run;
