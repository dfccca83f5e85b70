//! Traces from a plain log of the addresses that several harts executed, as a simulator writes it.

mod log;
mod recorder;
pub mod refusal;
mod threads;

pub use log::names_harts;
pub use recorder::record;
pub use refusal::HartLogRefusal;
