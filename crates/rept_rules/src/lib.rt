//! What a row of a path lets one conclude of the values before and after it.
#![tactic(auto)]

pub mod base;
pub mod infer;
pub mod laws;
pub mod look;
mod number;
pub mod operand;
pub mod outcome;
pub mod rest;
mod tell;
mod touch;

pub use base::Base;
pub use operand::{Side, solve};
pub use outcome::forward;
pub use rept_machine::arithmetic::branch_holds;
pub use rept_reason::{Conclusion, Premise, RegisterAt, RowRules, RowView, When};
