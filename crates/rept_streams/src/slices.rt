//! What the instruction traces of several harts tell of the threads of a program: the definition of
//! its run, its laws, and the slices that the traces tell.

pub mod back;
pub mod checks;
pub mod ending;
pub mod keeping;
pub mod laws;
pub mod order;
pub mod reading;
pub mod scan;
pub mod strangers;
pub mod survey;
pub mod telling;
pub mod untraced;
