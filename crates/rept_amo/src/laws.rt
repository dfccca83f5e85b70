//! A law of the rules of RV32IMA, for callers whose contracts speak of rules by their definition.
//! The call does nothing.

ghost use Rattle.std.specs.Prelude.{◌↔◌, Contains};
ghost use Rattle.rept_isa.specs.declared.row.StepRow.{StepRow};
ghost use Rattle.rept_reason.specs.declared.view.inferred.Conclusion.{Conclusion};
ghost use Rattle.rept_reason.specs.View.Seen.{Seen};
ghost use Rattle.rept_amo.specs.Atomic.{atomic_rules};
ghost use Rattle.rept_amo.specs.Rows.{RowConcludes};

/// What the rules list for a row is exactly what it lets one conclude, each conclusion by a case of
/// the relation.
pub fn conclusions_are_listed()
    ensures { (row : StepRow) (s : Seen) (d : Conclusion) → Contains (atomic_rules.infer row s) d ↔ RowConcludes row s d }
{}
