//! The threads, points and moments that the numbers of a run stand for, as a session names them.

pub mod laws;
mod places;

pub use laws::places_are_names;
pub use places::{place_of, point_of};
