//! Runs of several threads that are played on one machine, turn after turn.

mod code;
mod count;
mod draw;
mod machine;
mod made;
mod playing;
mod score;
mod threads;

pub use code::instr_in;
pub use count::rows_in;
pub use made::{Made, make_play};
pub use playing::{Played, play};
pub use score::Sizes;
