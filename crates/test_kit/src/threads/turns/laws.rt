//! Laws of the definitions, for those who make runs. The calls do nothing.

ghost use Rattle.std.specs.Prelude.{◌≡◌, ℕ, List};
ghost use Rattle.rept_steps.specs.Course.{Course, CallsEnd, IsSoundCourse};
ghost use Rattle.rept_order.specs.History.{Ending};
ghost use Rattle.test_kit.specs.declared.threads.turns.turn.Turn.{Turn};
ghost use Rattle.test_kit.specs.Threads.Turns.Turns.{rows_in, HasTurns, AreSome, AreInOrder, AreTurnsApart, AreWider};
ghost use Rattle.test_kit.specs.Threads.Turns.Play.{Playing, with_turns, IsPlay, IsPlayExecuted};

/// A course whose slices are turns of which none overlaps another one of its thread is sound, if
/// each call is the last row of its slice.
pub fn turns_are_sound()
    ensures { (C : Course) (turns : List Turn) → HasTurns C turns → AreInOrder turns → AreTurnsApart turns → CallsEnd C → IsSoundCourse C }
{}

/// A play whose turns have rows and keep the order of time is an execution of its course, if each
/// call is the last row of its slice. It begins in the play's first world and ends in its last one.
pub fn plays_are_executions()
    ensures { (C : Course) (D : Ending) (x : Playing) → HasTurns C x.turns → IsPlay C D x → AreSome x.turns → AreInOrder x.turns → CallsEnd C → IsPlayExecuted C D x }
{}

/// A play with wider times is a play, and its turns keep the order of time if the narrower ones do.
pub fn times_may_be_wider()
    ensures order { (turns wide : List Turn) → AreInOrder turns → AreWider turns wide → AreInOrder wide }
    ensures some { (turns wide : List Turn) → AreSome turns → AreWider turns wide → AreSome wide }
    ensures rows { (turns wide : List Turn) (t : ℕ) → AreWider turns wide → rows_in t wide ≡ rows_in t turns }
    ensures play { (C : Course) (D : Ending) (x : Playing) (wide : List Turn) → IsPlay C D x → AreWider x.turns wide → IsPlay C D (with_turns x wide) }
{}
