//! What is known of a run and the dump in which it ends, and what one fact more does.
#![tactic(auto)]

pub mod facts;
mod front_sets;
mod halt;
mod input;
mod leap;
mod moment;
mod piece;
mod rows;
pub mod stop;
mod tables;
mod trail;
mod turns;

pub use facts::CrashFacts;
pub use front_sets::FrontSets;
pub use halt::LearnError;
pub use input::CrashInput;
pub use leap::ByteLeap;
pub use piece::Piece;
pub use rows::{address, is_store};
pub use stop::Stop;
