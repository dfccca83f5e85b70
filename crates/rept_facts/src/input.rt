//! What is put into an analysis.

use rept_dump::Dump;
use rept_reason::RowRules;
use rept_timeline::{RunPaths, ThreadEnds};

/// What an analysis goes on: a run, how its threads end, and the rules that are applied.
#[derive(Drop)]
pub struct CrashInput<'a, R: RowRules> {
    /// The steps and memory points of the run, of at most 66,560 points.
    pub paths: &'a RunPaths<'a>,
    /// How each thread ends: the values of its registers x0 to x31.
    pub last: &'a ThreadEnds<'a>,
    /// The program, and the memory at the end.
    pub dump: &'a Dump<'a>,
    /// What a step lets one conclude.
    pub rules: R,
}
