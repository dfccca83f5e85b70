//! From where a byte is carried to a moment: the nearest moment at which it is known by itself.

pub mod laws;
pub mod sources;
pub mod step;

pub use laws::steps_are_uses;
pub use sources::Sources;
pub use step::{Carriage, Direction};
