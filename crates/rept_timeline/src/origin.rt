//! From where a byte is carried to a moment: the nearest moment at which it is known by itself.

pub mod bridges;
mod lesser;
pub mod origin;

pub use origin::{nearer, nearest_origin};
