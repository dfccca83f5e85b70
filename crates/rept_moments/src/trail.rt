//! The rows of a course, as sets of values are followed along them.

use crate::course::NumberedRun;
use rept_isa::StepRow;
use rept_span::Trail;

impl<'a> Trail for NumberedRun<'a> {
    ghost use Rattle.rept_moments.specs.Courses.{seen_in};

    ghost legs = { λ c. (seen_in c).legs };

    fn row(&self, point: u32) -> Option<StepRow> {
        self.row(point)
    }
}
