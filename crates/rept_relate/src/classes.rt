//! Words of which some differ from others by constants.

pub mod classes;
pub mod node;
pub mod shift;

pub use classes::{Classes, Impossible};
pub use node::{ClassNode, Term};
pub use shift::shifted;
