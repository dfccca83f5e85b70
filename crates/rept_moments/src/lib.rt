//! The numbers of the moments of a run: of one thread those of its points, of several those of the
//! moments in the order in which slices begin.
#![tactic(auto)]

mod begins;
mod course;
pub mod laws;
mod many;
mod merging;
pub mod naming;
mod nexts;
mod numbers;
mod ordering;
mod points;
mod room;
mod side;
mod trail;
mod writers;
mod writing;

pub use course::{NumberedRun, one_path};
pub use laws::numbers_are_names;
pub use many::Many;
pub use naming::{
    courses_have_names, ends_tell_what_may_act, executions_are_seen, names_are_moments,
    names_keep_the_order, quiet_is_carried,
};
pub use room::has_room;
pub use side::PointOfThread;
