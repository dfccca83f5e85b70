//! Bytes of memory that have one value at the points of a span.

pub mod held;
pub mod lanes;
pub mod span;
pub mod sweep;

pub use held::{Held, HeldBytes};
pub use lanes::Lanes;
pub use span::ByteSpan;
pub use sweep::Sweep;
