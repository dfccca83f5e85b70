//! Laws of the definitions. The call does nothing.

ghost use Rattle.std.specs.Prelude.{◌≡◌, ◌≢◌, ◌≤◌, ◌<◌, ◌+◌, ℕ, length};
ghost use Rattle.rept_steps.specs.Course.{Course, IsSoundCourse, rows_of};
ghost use Rattle.rept_order.specs.Legs.{number_of};
ghost use Rattle.rept_moments.specs.Seen.{seen, moment_in};
ghost use Rattle.rept_found.specs.Places.Places.{point_on, place_on, end_on, point_named, after_named, place_number, thread_point};

/// Names and numbers belong together. The number of each point is that of the thread and point that
/// it stands for, and the other way round. Each number of a moment is that of the place that it
/// stands for; the moment before a row is named as the row's point, and the moment after it as
/// that, where it isn't one with the moment at the thread's next point. The end goes by its own
/// name, and it is the moment at the last point of each thread.
pub fn places_are_names()
    ensures points { (C : Course) (t p : ℕ) → t < length C.threads → p ≤ length (rows_of C t) → point_on C (number_of C t p) ≡ thread_point t p }
    ensures numbers { (C : Course) (g : ℕ) → number_of C (point_on C g).thread (point_on C g).point ≡ g }
    ensures moments { (C : Course) (m : ℕ) → IsSoundCourse C → m ≤ (seen C).moments.end → place_number C (place_on C m) ≡ m }
    ensures before_rows { (C : Course) (t i : ℕ) → IsSoundCourse C → i < length (rows_of C t) → place_on C (place_number C (point_named t i)) ≡ point_named t i }
    ensures after_rows { (C : Course) (t i : ℕ) → IsSoundCourse C → i < length (rows_of C t) → place_number C (after_named t i) ≢ moment_in (seen C) (number_of C t i + 1) → place_on C (place_number C (after_named t i)) ≡ after_named t i }
    ensures ends { (C : Course) → IsSoundCourse C → place_on C (seen C).moments.end ≡ end_on C }
    ensures last_points { (C : Course) (t : ℕ) → t < length C.threads → place_number C (point_named t (length (rows_of C t))) ≡ (seen C).moments.end }
{}
