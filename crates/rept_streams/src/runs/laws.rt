//! Laws of the definitions. The calls do nothing.

ghost use Rattle.std.specs.Prelude.{◌≡◌, List, ℕ, Some};
ghost use Rattle.rept_isa.specs.declared.row.StepRow.{StepRow};
ghost use Rattle.rept_steps.specs.Runs.{course_of};
ghost use Rattle.rept_steps.specs.declared.run.Run.{Run};
ghost use Rattle.rept_timeline.specs.Small.{IsSmall};
ghost use Rattle.rept_streams.specs.Runs.Told.{Traced, AreNotesApart, IsTracedRun};
ghost use Rattle.rept_streams.specs.Runs.Kind.{path_rows, EndsPath};
ghost use Rattle.rept_streams.specs.Runs.Notes.{HasThreadNotes, OneFileBytes};

/// A run of few threads, no two of one process, is as small as an analysis wants it. The notes of a
/// core file that is accepted are such ones, and there are no others.
pub fn runs_are_small()
    ensures small { (t : Traced) (run : Run) → IsTracedRun t run → AreNotesApart t.notes → IsSmall (course_of run) }
    ensures apart { (b : OneFileBytes) (descs : List (List ℕ)) → HasThreadNotes b descs → AreNotesApart descs }
    ensures only { (b : OneFileBytes) (descs others : List (List ℕ)) → HasThreadNotes b descs → HasThreadNotes b others → descs ≡ others }
{}

/// A run that is one path has a step, there is one note, and the path ends at its program counter.
pub fn paths_are_whole()
    ensures { (t : Traced) (run : Run) (rows : List StepRow) → IsTracedRun t run → path_rows run ≡ Some rows → EndsPath t.notes rows }
{}
