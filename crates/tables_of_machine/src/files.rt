//! What the ports answer, on memory and on the files, pipes, devices and streams of this machine;
//! and what the rules of the ELF specification and other tools say of executables, core files and
//! lists of mapped files, whole and damaged. The cases are the lines of `stdin`, and `stdout` has
//! each with its answer.

mod dumps;
mod fails;
mod images;
mod mapped;
mod names;
mod ports;
mod state;
mod streams;
mod system;

pub use state::Files;
pub use streams::reads;
