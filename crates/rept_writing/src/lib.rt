//! Rows that may write, found by the address.
#![tactic(auto)]

mod bounds;
mod columns;
mod cuts;
mod list;
mod narrow;
pub mod passes;
mod wide;

pub use list::{StoreIndex, Writing};
pub use passes::{Pass, RuleProgress, is_with};
