//! Sets of values of one 32-bit word: the trait of such sets, and two kinds of them.
#![tactic(auto)]

pub mod flat;
pub mod partial;
pub mod range;

pub use flat::Flat;
pub use partial::Partial;
pub use range::Range;
