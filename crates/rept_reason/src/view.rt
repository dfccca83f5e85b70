//! What is known around a row of a path, and the rules by which facts are applied from it: the
//! traits of both, and their laws.

pub mod inferred;
pub mod offset;
pub mod rules;
pub mod view;

pub use inferred::{Conclusion, Premise, RegisterAt, When};
pub use offset::offset_of;
pub use rules::RowRules;
pub use view::RowView;
