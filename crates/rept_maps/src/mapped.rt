//! What the files that a crashed process had mapped hold at an address: code, bytes that it could
//! not write, and functions.

mod find;
mod mapped;
mod naming;

pub use mapped::Mapped;
