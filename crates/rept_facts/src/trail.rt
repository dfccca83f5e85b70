//! The rows of a run's paths, as sets of values go along them.

ghost use Rattle.rept_timeline.specs.Paths.{timeline};

use rept_isa::StepRow;
use rept_span::Trail;
use rept_timeline::RunPaths;

/// The rows of a run's paths, by the points that they lead from.
#[derive(Drop)]
pub struct PathTrail<'p> {
    /// the rows and moments
    pub paths: &'p RunPaths<'p>,
}

impl<'p> Trail for PathTrail<'p> {
    ghost legs = { λ t. (timeline t.paths.now).legs };

    fn row(&self, point: u32) -> Option<StepRow> {
        self.paths.row(point)
    }
}
