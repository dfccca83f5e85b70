//! A dialog with a debugger over an input and an output.

pub mod conversation;
pub mod early;
pub mod greeting;
pub mod turn;

pub use conversation::{SessionEnd, converse, go_on};
pub use greeting::{Greeting, greet};
pub use turn::{Dialog, take_turn};
