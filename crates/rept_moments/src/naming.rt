//! A run of several threads as an analysis takes it: points and moments as numbers, with moments
//! that are one under one name.

pub mod laws;

pub use laws::{
    courses_have_names, ends_tell_what_may_act, executions_are_seen, names_are_moments,
    names_keep_the_order, quiet_is_carried,
};
