//! A session over an input and an output: each line is answered before the next one is read.

mod kept;
mod serving;

pub use serving::{Served, serve};
