//! Tables of a run by the numbers of its memory points: which are next to each, which stand in one
//! line, between which of them each row may act, and how far a byte's value goes at once.
#![tactic(auto)]

pub mod carry;
pub mod extents;
mod hulls;
pub mod reaches;
pub mod surely_blocks;
mod times;

pub use carry::{Lines, Ways};
