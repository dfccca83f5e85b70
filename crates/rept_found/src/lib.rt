//! What an analysis finds out of a run of any number of threads and the dump in which they end, for
//! the session that tells it.
#![tactic(auto)]

mod code;
pub mod contradiction;
pub mod found;
pub mod inferred;
mod laws;
pub mod places;
pub mod prepared;
mod telling;
pub mod trip;

pub use contradiction::{Contradiction, name_conflict};
pub use found::{AnalysedCrash, search};
pub use inferred::{InferredCrash, Reported};
pub use laws::{paths_are_one_thread, reports_are_true, runs_are_paths, trips_are_true};
pub use places::{place_of, places_are_names, point_of};
pub use prepared::{Prepared, prepare};
pub use trip::{executions_are_runs, paths_are_trips, points_are_moments, writers_are_found};
