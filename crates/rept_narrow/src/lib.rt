//! What one step or one call tells of a path: sets of values of registers, and bytes.
#![tactic(auto)]

pub mod answers;
pub mod atomic;
pub mod bytes;
mod due;
mod exact;
mod inverse;
pub mod known;
pub mod lanes;
pub mod memory;
pub mod naming;
mod row;
pub mod rule;
pub mod store;
pub mod table;
pub mod told;
pub mod touched;
pub mod visiting;

pub use bytes::ToldBytes;
pub use known::{InferPath, KnownPath, PathPremises};
pub use lanes::{ByteSpan, Held, HeldBytes, Lanes, Sweep};
pub use naming::load_width;
pub use rule::NarrowRule;
pub use table::{Empty, Table};
