//! Laws of the definitions. The calls do nothing.

ghost use Rattle.std.specs.Prelude.{◌≡◌};
ghost use Rattle.rept_steps.specs.Course.{Course, IsSoundCourse};
ghost use Rattle.rept_span.specs.Ranges.{AreLegs};
ghost use Rattle.rept_report.specs.Moments.{AreMoments};
ghost use Rattle.rept_moments.specs.Naming.Names.{AreNames};
ghost use Rattle.rept_moments.specs.Numbers.{numbers_of};
ghost use Rattle.rept_moments.specs.Seen.{seen};

/// The numbers of the moments of a sound course are names of them: moments that are one have one
/// number, and no others. Its rows and moments, as an analysis takes them, keep the laws that the
/// report asks for.
pub fn numbers_are_names()
    ensures names { (C : Course) → IsSoundCourse C → AreNames C (numbers_of C) }
    ensures legs { (C : Course) → AreLegs (seen C).legs }
    ensures moments { (C : Course) → IsSoundCourse C → AreMoments (seen C).legs (seen C).moments }
{}
