//! What is known of the bytes of memory at the points of a path: a trait, a plain list that is the
//! reference, and spans.
#![tactic(auto)]

mod block;
mod blocks;
mod facts;
mod keys;
mod line;
mod plain_facts;
mod span;
mod span_facts;
mod tracked;

pub use facts::{ByteFacts, Carried, Learnt, ValueStretch};
pub use plain_facts::PlainFacts;
pub use span_facts::SpanFacts;
pub use std::alloc::AllocError as OutOfMemory;
