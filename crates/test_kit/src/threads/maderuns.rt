//! The files of made runs of several threads: an executable, a core file of a register note for
//! each thread, and a trace of several streams.

mod code;
mod files;
mod harts;
mod made;
mod trace;

pub use made::{MadeRun, make_run};
