//! What is inferred of a crash beyond its report: the findings of a session, narrowed.

mod counting;
mod narrowing;
mod overlay;
mod reported;
mod writing;

pub use overlay::InferredCrash;
pub use reported::Reported;
