//! The rows and moments of any sound run, as an analysis goes over them, and the rows that are in
//! the way of a moment or of another row.
#![tactic(auto)]

mod arriving;
mod beginning;
mod between;
mod closing;
mod ends;
pub mod last;
mod opening;
pub mod origin;
mod run_paths;
mod small;
mod storing;
mod strips;

pub use between::row_between;
pub use ends::ThreadEnds;
pub use last::{last_writer, possible_writer};
pub use origin::{nearer, nearest_origin};
pub use run_paths::RunPaths;
pub use small::is_small;
