//! Which bytes a system call may change, from what is known of its arguments.
#![tactic(auto)]

pub mod call;

pub use call::havoc;
pub use rept_alias::CallAccess;
