//! Sets of values of one 32-bit word by the bits that are known of it, and by these and a range.
#![tactic(auto)]

pub mod bits;
pub mod both;
mod both_transfer;
pub mod laws;
pub mod nearest;
mod operation;
mod outside;
mod reduce;
mod transfer;

pub use bits::Bits;
pub use both::Both;
pub use laws::bits_are_finer;
pub use nearest::least_from;
