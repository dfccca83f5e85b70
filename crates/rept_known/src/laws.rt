//! Laws of the definitions. The calls do nothing.

ghost use Rattle.rept_partial.specs.Ranges.{range_sets};
ghost use Rattle.rept_span.specs.Finer.{kind, IsFiner};
ghost use Rattle.rept_span.specs.Tables.{range_moves};
ghost use Rattle.rept_known.specs.Both.{both_sets};
ghost use Rattle.rept_known.specs.BothMoves.{both_moves};

/// Ranges with known bits are never wider than ranges alone. If the words of some sets lie in those
/// of ranges, so do the words that an instruction makes of them and those that a step leaves.
pub fn bits_are_finer()
    ensures { IsFiner (kind both_sets both_moves) (kind range_sets range_moves) }
{}
