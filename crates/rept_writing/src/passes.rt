//! How far the rules of each row of a run were applied.

pub mod pass;

pub use pass::{Pass, RuleProgress, is_with};
