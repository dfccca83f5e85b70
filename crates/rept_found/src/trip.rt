//! What is analysed: a run of any number of threads and how it ended, as the report takes it, and
//! what the report says of its executions.

pub mod laws;

pub use laws::{executions_are_runs, paths_are_trips, points_are_moments, writers_are_found};
