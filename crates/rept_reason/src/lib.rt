//! Facts on registers and bytes along a path, and the reasons for which they are known.
#![tactic(auto)]

pub mod fact;
pub mod reason;
pub mod view;

pub use fact::{Cell, Fact};
pub use reason::{RangePremise, Reason};
pub use view::{Conclusion, Premise, RegisterAt, RowRules, RowView, When, offset_of};
