//! Which moments are next to each one of a course, onward and back.

mod lines;
mod links;
mod rising;
mod ways;

pub use lines::Lines;
pub use ways::Ways;
