//! What the words of the command line ask for.

mod command;
pub mod reading;
pub mod request;

pub use reading::meaning;
pub use request::{CoreNames, Domain, FileNames, Request};
