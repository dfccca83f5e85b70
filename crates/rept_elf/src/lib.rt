//! Executables and core files in the ELF format, 32 bits, little-endian, for RISC-V. Nothing is
//! copied: an image and its segments borrow the file's bytes.
#![tactic(auto)]

mod checks;
mod entries;
mod fault;
mod fields;
mod image;
mod naming;
mod section;
mod segment;
mod symbol;

pub use fault::{ElfFault, Want};
pub use fields::{after, first_zero, half, part, word};
pub use image::Image;
pub use segment::{PF_W, PF_X, PT_LOAD, PT_NOTE, Segment};
pub use symbol::Symbol;
