//! Laws of the rules of RV32IM, for callers whose contracts speak of rules by their definition. The
//! calls do nothing.

ghost use Rattle.std.specs.Prelude.{◌≡◌, ◌<◌, ◌^◌, ℕ, Contains, true, Some};
ghost use Rattle.rept_isa.specs.declared.row.StepRow.{StepRow};
ghost use Rattle.rept_reason.specs.declared.view.inferred.Conclusion.{Conclusion};
ghost use Rattle.rept_reason.specs.View.Seen.{Seen, IsLawful, KnowsMore};
ghost use Rattle.rept_reason.specs.View.Rules.{AreLawfulRules};
ghost use Rattle.rept_reason.specs.declared.fact.Cell.TheVariants.{Byte};
ghost use Rattle.rept_rules.specs.Conclusions.{ConcludesByRow};
ghost use Rattle.rept_rules.specs.Base.{base_rules};

/// What the rules list for a row is exactly what it lets one conclude.
pub fn conclusions_are_listed()
    ensures listed { (row : StepRow) (s : Seen) (d : Conclusion) → Contains (base_rules.infer row s) d → ConcludesByRow row s d }
    ensures all { (row : StepRow) (s : Seen) (d : Conclusion) → ConcludesByRow row s d → Contains (base_rules.infer row s) d }
{}

/// Where more is known, all that was concluded is concluded again.
pub fn more_is_concluded()
    ensures { (row : StepRow) (s t : Seen) (d : Conclusion) → IsLawful s → IsLawful t → KnowsMore s t → Contains (base_rules.infer row s) d → Contains (base_rules.infer row t) d }
{}

/// The rules keep the laws of rules, and what they conclude of bytes are bytes.
pub fn rules_are_lawful()
    ensures laws { AreLawfulRules base_rules }
    ensures bytes { (row : StepRow) (s : Seen) (d : Conclusion) (a : ℕ) → Contains (base_rules.infer row s) d → d.cell ≡ Byte a → d.value < 2 ^ 8 }
{}
