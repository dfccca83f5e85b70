//! Made crashes: a program that is drawn, its run, and the three files of it.
#![tactic(auto)]

mod code;
mod draw;
mod files;
mod made;
mod run;
mod slot;

pub use files::{executable, push_core_header, push_note_start, push_words};
pub use made::{Made, make, saved_bytes};
