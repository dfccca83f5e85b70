//! What the report of a crash knows of a path.

ghost use Rattle.std.specs.Prelude.{◌≡◌};

use crate::AnalysedCrash;
use rept_findings::Findings;
use rept_isa::Reg;
use rept_known::Both;
use rept_narrow::KnownPath;
use rept_partial::Partial;
use rept_reason::RowRules;

/// The report of a crash, as what is known of its path: the sets of `bits` and the known bytes.
#[derive(Clone, Copy)]
pub struct Reported<'r, 'a, R: RowRules> {
    pub found: &'r AnalysedCrash<'a, Both, R>,
}

impl<'r, 'a, R: RowRules> KnownPath for Reported<'r, 'a, R> {
    ghost use Rattle.rept_known.specs.Both.{both_sets};
    ghost use Rattle.rept_known.specs.BothMoves.{both_moves};
    ghost use Rattle.rept_found.specs.Crash.{means};
    ghost use Rattle.rept_found.specs.Inferred.Known.{byte_known, set_known};

    ghost set = { λ k point register. set_known (means both_sets both_moves R.rules) k.found.now point register };

    ghost byte = { λ k point address. byte_known (means both_sets both_moves R.rules) k.found.now point address };

    fn set(&self, point: u32, register: Reg) -> Both {
        if point < self.found.points() {
            self.found.set(point, register)
        } else {
            Both::unknown()
        }
    }

    fn byte(&self, point: u32, address: u32) -> Option<u8> {
        if point < self.found.points() {
            self.found.byte(self.found.moment(point), address)
        } else {
            None
        }
    }
}
