//! Laws of the definitions.

ghost use Rattle.std.specs.Prelude.{◌≡◌, ◌↔◌, List, ℕ, Some, reverse};
ghost use Rattle.rept_path.specs.Code.{Code};
ghost use Rattle.rept_dump.specs.declared.dump.Dump.{Dump};
ghost use Rattle.rept_isa.specs.declared.instr.Instr.{Instr};
ghost use Rattle.rept_isa.specs.declared.row.StepRow.{StepRow};
ghost use Rattle.rept_isa.specs.Words.{IsWord};
ghost use Rattle.rept_rvc.specs.Halves.{IsHalf};
ghost use Rattle.rept_trace.specs.declared.packets.Packets.{Packets};
ghost use Rattle.rept_path.specs.declared.aim.Aim.{Aim};
ghost use Rattle.rept_path.specs.declared.fault.PathFault.{PathFault};
ghost use Rattle.rept_path.specs.Code.{instruction, expansion};
ghost use Rattle.rept_path.specs.Moves.{Lead, Place, heading_by};
ghost use Rattle.rept_path.specs.Legs.{Reaches};
ghost use Rattle.rept_path.specs.Index.{LeastStop};
ghost use Rattle.rept_path.specs.Stops.{StopIndices};
ghost use Rattle.rept_path.specs.Trace.{TracedRun, IsPath};
ghost use Rattle.rept_path.specs.Traced.{IsTracedPath, IsRefusedBy, raw_of};

/// A leg ends at the least later index at which the walk stops, and only such a leg is one.
pub fn least_stop()
    ensures leg { (code : Code) (lead : Lead) (aim : Aim) (past : Place) (leg : List StepRow) → Reaches code (heading_by lead aim) past leg → LeastStop code (heading_by lead aim) past (reverse leg) }
    ensures only { (code : Code) (lead : Lead) (aim : Aim) (past : Place) (leg : List StepRow) → LeastStop code (heading_by lead aim) past (reverse leg) → Reaches code (heading_by lead aim) past leg }
{}

/// In a path each packet of the window has its stop index, and only such rows are a path.
pub fn stop_indices()
    ensures path { (run : TracedRun) (skipped : ℕ) (path : List StepRow) → IsPath run skipped path → (stops : List ℕ) × StopIndices run skipped path stops }
    ensures only { (run : TracedRun) (skipped : ℕ) (path : List StepRow) (stops : List ℕ) → StopIndices run skipped path stops → IsPath run skipped path }
{}

/// A trace has at most one path over a program, or one refusal, and never both.
pub fn one_answer()
    ensures path { (packets : Packets) (dump : Dump) (from : ℕ) (i j : ℕ) (a b : List StepRow) → IsTracedPath (raw_of packets dump from) i a → IsTracedPath (raw_of packets dump from) j b → (i ≡ j) × (a ≡ b) }
    ensures refusal { (packets : Packets) (dump : Dump) (from : ℕ) (d e : PathFault) → IsRefusedBy packets dump from d → IsRefusedBy packets dump from e → d ≡ e }
    ensures either { (packets : Packets) (dump : Dump) (from : ℕ) (i : ℕ) (a : List StepRow) (e : PathFault) → IsTracedPath (raw_of packets dump from) i a → IsRefusedBy packets dump from e → ⊥ }
{}

/// The instruction at a step of a path that isn't short is the one that the word there spells.
pub fn spelled_instruction()
    ensures { (spelled : ℕ) (i : Instr) → (instruction spelled ≡ Some i) ↔ IsWord spelled i }
{}

/// The instruction at a short step of a path is the one that the half there stands for.
pub fn spelled_half()
    ensures { (half : ℕ) (i : Instr) → (expansion half ≡ Some i) ↔ IsHalf half i }
{}
