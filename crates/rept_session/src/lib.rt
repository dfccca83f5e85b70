//! The lines of a session: which command a line is, and the text that answers it.
#![tactic(auto)]

pub mod answers;
pub mod command;
mod help;
mod names;
pub mod parser;
pub mod question;
mod questions;
pub mod reply;
pub mod serving;
mod verb;
mod words;

pub use answers::{answer, answer_line, last_of, refusal_text};
pub use command::{BadCommand, Command};
pub use parser::parse;
pub use question::Question;
pub use reply::Answer;
pub use serving::{Served, serve};
