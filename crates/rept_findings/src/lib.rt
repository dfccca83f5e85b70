//! What a session asks of an analysis, and the pieces of its answers.
#![tactic(auto)]

pub mod findings;
pub mod lines;
pub mod pieces;
pub mod place;

pub use findings::{BeyondRule, Findings, KnownBeyond, PremisesTaken};
pub use pieces::{push_place, push_thread_named, push_visible};
pub use place::{Place, ThreadPlace, ThreadPoint};
