//! Laws of the definitions, for callers whose contracts speak of any execution of several threads.
//! The calls do nothing.

ghost use Rattle.std.specs.Prelude.{◌≡◌, ◌≢◌, ◌<◌, ◌≤◌, ◌↔◌, ◌⊎◌, ℕ, suc, Bool, true, false, List, length, Some, slice_get};
ghost use Rattle.rept_isa.specs.declared.row.StepRow.{StepRow};
ghost use Rattle.rept_machine.specs.State.{State, IsState};
ghost use Rattle.rept_machine.specs.Step.{IsStep};
ghost use Rattle.rept_steps.specs.declared.slice.Slice.{Slice};
ghost use Rattle.rept_steps.specs.Course.{Course, Row, row_of, rows_of, slices_of, slice_of, IsRow, row_at, calls, CallsEnd, IsAlone, IsSoundCourse};
ghost use Rattle.rept_order.specs.Events.{Event, IsEvent, Precedes, PrecedesOrIs, UntracedPrecedes};
ghost use Rattle.rept_order.specs.Moments.{Moment, IsMoment, NotLater, Earlier, Act, IsAct, WhollyBefore, WhollyAfter, Stretch, stretch, MayAct, IsUntouched, IsUntouchedStep, IsNext, Forth, Joined, ArePause, AreOne, IsPauseIn, pause};
ghost use Rattle.rept_order.specs.History.{History, Ending, IsExecution, tick};
ghost use Rattle.rept_order.specs.Writing.{By, IsStill, Covers};
ghost use Rattle.rept_order.specs.Writers.{Writer, Reach, CourseSpot, IsCourseWriter, WriterHoldsInHistory, SurelyWrites};
ghost use Rattle.rept_order.specs.Points.{thread_registers, memory_at, state_from};
ghost use Rattle.rept_order.specs.Times.{Sooner, begin_of};
ghost use Rattle.rept_order.specs.Alone.{SavesOne, RunsAlone, IsShared};
ghost use Rattle.rept_order.specs.Arrangements.{IsArrangement};
ghost use Rattle.rept_order.specs.Links.{HasNextMoment};
ghost use Rattle.rept_order.specs.Interleaved.{IsCourseRun, run_of_history};
ghost use Rattle.rept_order.specs.Legs.{point_of_thread, number_of, point_at, row_from, leg_row, registers_on};

/// The order holds in each execution: a moment that it puts no later than another one comes no
/// later. Whoever acts at a tick does so before each moment before which the order puts it wholly,
/// and after each one after which it does.
pub fn order_is_kept()
    ensures moments { (C : Course) (D : Ending) (h : History) (m w : Moment) → IsExecution C D h → IsMoment C m → IsMoment C w → NotLater C m w → tick C h m ≤ tick C h w }
    ensures before { (C : Course) (D : Ending) (h : History) (act : Act) (k : ℕ) (m : Moment) → IsExecution C D h → k < h.ticks → By (h.happening k) act → IsMoment C m → WhollyBefore C act m → k < tick C h m }
    ensures after { (C : Course) (D : Ending) (h : History) (act : Act) (k : ℕ) (w : Moment) → IsExecution C D h → k < h.ticks → By (h.happening k) act → IsMoment C w → WhollyAfter C act w → tick C h w ≤ k }
{}

/// A byte that nothing between two moments writes in an execution is the same at both. So is one
/// that is quiet between them, by what covers all that is written in the execution.
pub fn quiet_bytes_stay()
    ensures still { (C : Course) (D : Ending) (h : History) (x : Stretch) (a : ℕ) → IsExecution C D h → IsMoment C x.from → IsMoment C x.to → NotLater C x.from x.to → IsStill C D h x a → memory_at C h x.to a ≡ memory_at C h x.from a }
    ensures quiet { (C : Course) (D : Ending) (h : History) (may : Row → ℕ → Bool) (x : Stretch) (a : ℕ) → IsExecution C D h → Covers C D h may → IsMoment C x.from → IsMoment C x.to → IsUntouched C may x a → memory_at C h x.to a ≡ memory_at C h x.from a }
{}

/// Two moments that are one have one memory. Whoever may act in one pause of a slice may act in
/// each other one of it.
pub fn pauses_are_moments()
    ensures one { (C : Course) (D : Ending) (h : History) (x : Stretch) (a : ℕ) → IsExecution C D h → AreOne C x → memory_at C h x.to a ≡ memory_at C h x.from a }
    ensures alike { (C : Course) (act : Act) (t i j : ℕ) (s : Slice) → IsSoundCourse C → CallsEnd C → IsAct C act → IsPauseIn C t i s → IsPauseIn C t j s → MayAct C act (pause t i) → MayAct C act (pause t j) }
{}

/// A row that is no call is a step from the registers of its point and the memory before it to
/// those of the next point and the memory after it. A call is a step of a call with any memory that
/// stays. Points and moments have what a state has, and at the end what was saved.
pub fn rows_are_steps()
    ensures plain { (C : Course) (D : Ending) (h : History) (t i : ℕ) (row : StepRow) → IsExecution C D h → row_at C (row_of t i) ≡ Some row → calls C (row_of t i) ≡ false → IsStep D.image_end row (state_from (thread_registers C h t i) (memory_at C h (Moment.before (row_of t i)))) (state_from (thread_registers C h t (suc i)) (memory_at C h (Moment.after (row_of t i)))) }
    ensures call { (C : Course) (D : Ending) (h : History) (t i : ℕ) (row : StepRow) (memory : ℕ → ℕ) → IsExecution C D h → row_at C (row_of t i) ≡ Some row → calls C (row_of t i) ≡ true → IsStep D.image_end row (state_from (thread_registers C h t i) memory) (state_from (thread_registers C h t (suc i)) memory) }
    ensures states { (C : Course) (D : Ending) (h : History) (t p : ℕ) (m : Moment) → IsExecution C D h → IsMoment C m → IsState (state_from (thread_registers C h t p) (memory_at C h m)) }
    ensures registers { (C : Course) (D : Ending) (h : History) (t r v : ℕ) → IsExecution C D h → 0 < r → D.registers t r ≡ Some v → thread_registers C h t (length (rows_of C t)) r ≡ v }
    ensures bytes { (C : Course) (D : Ending) (h : History) (a v : ℕ) → IsExecution C D h → D.dump a ≡ Some v → memory_at C h Moment.at_end a ≡ v }
{}

/// By the numbering of all points a leg that is a row leads to the next point of its thread, and it
/// is a step.
pub fn legs_are_steps()
    ensures numbers { (C : Course) (t p : ℕ) → t < length C.threads → p ≤ length (rows_of C t) → point_at C (number_of C t p) ≡ point_of_thread t p }
    ensures points { (C : Course) (g : ℕ) → number_of C (point_at C g).thread (point_at C g).number ≡ g }
    ensures leads { (C : Course) (g : ℕ) (row : StepRow) → leg_row C g ≡ Some row → point_at C (suc g) ≡ point_of_thread (point_at C g).thread (suc (point_at C g).number) }
    ensures plain { (C : Course) (D : Ending) (h : History) (g : ℕ) (row : StepRow) → IsExecution C D h → leg_row C g ≡ Some row → calls C (row_from (point_at C g)) ≡ false → IsStep D.image_end row (state_from (registers_on C h g) (memory_at C h (Moment.before (row_from (point_at C g))))) (state_from (registers_on C h (suc g)) (memory_at C h (Moment.after (row_from (point_at C g))))) }
    ensures call { (C : Course) (D : Ending) (h : History) (g : ℕ) (row : StepRow) (memory : ℕ → ℕ) → IsExecution C D h → leg_row C g ≡ Some row → calls C (row_from (point_at C g)) ≡ true → IsStep D.image_end row (state_from (registers_on C h g) memory) (state_from (registers_on C h (suc g)) memory) }
{}

/// Each execution is seen as a run: registers at the points of all threads, and the memory at
/// moments, with all that an analysis has to know of them.
pub fn executions_are_runs()
    ensures { (C : Course) (D : Ending) (h : History) → IsExecution C D h → IsCourseRun C D (run_of_history C h) }
{}

/// What the answer on the writer of a byte says holds in each execution, and there is one answer
/// alone.
pub fn writers_hold()
    ensures holds { (C : Course) (D : Ending) (h : History) (can : Reach) (x : CourseSpot) (writer : Writer) → IsExecution C D h → Covers C D h can.may → SurelyWrites C D h can → IsMoment C x.moment → IsCourseWriter C can x writer → WriterHoldsInHistory C D h x writer }
    ensures only { (C : Course) (can : Reach) (x : CourseSpot) (v w : Writer) → IsSoundCourse C → IsCourseWriter C can x v → IsCourseWriter C can x w → v ≡ w }
{}

/// One thread in one slice, all of which is told: each execution of its rows by themselves is one
/// of the course, with the same states at points and moments. A byte is quiet from before a row to
/// after it where that row may not write it, the moment after a row is next to the one before it,
/// and it is one with that before the next row.
pub fn alone_is_shared()
    ensures shared { (C : Course) (D : Ending) (run : ℕ → State) → IsSoundCourse C → IsAlone C → SavesOne D → RunsAlone C D run → IsShared C D run }
    ensures quiet { (C : Course) (may : Row → ℕ → Bool) (r : Row) (a : ℕ) → IsSoundCourse C → IsAlone C → IsRow C r → IsUntouchedStep C may (stretch (Moment.before r) (Moment.after r)) a ↔ (may r a ≡ false) }
    ensures one { (C : Course) (x : Stretch) → IsSoundCourse C → IsAlone C → ArePause C x → AreOne C x }
    ensures next { (C : Course) (r : Row) → IsSoundCourse C → IsAlone C → IsRow C r → IsNext C (Moment.before r) (Moment.after r) }
{}

/// A byte that is quiet over a stretch is quiet over each part of it, and step by step from each
/// moment to a next one. A byte that quiet stretches join to the end, in any direction, is quiet
/// from its moment to the end.
pub fn quiet_is_closed()
    ensures front { (C : Course) (may : Row → ℕ → Bool) (a : ℕ) (m x w : Moment) → IsSoundCourse C → Earlier C m x → Earlier C x w → IsUntouched C may (stretch m w) a → IsUntouched C may (stretch m x) a }
    ensures back { (C : Course) (may : Row → ℕ → Bool) (a : ℕ) (m x w : Moment) → IsSoundCourse C → Earlier C m x → Earlier C x w → IsUntouched C may (stretch m w) a → IsUntouched C may (stretch x w) a }
    ensures steps { (C : Course) (may : Row → ℕ → Bool) (a : ℕ) (m w : Moment) → IsSoundCourse C → IsMoment C m → IsMoment C w → IsUntouchedStep C may (stretch m w) a → (xs : List Moment) × Forth C may a m xs w }
    ensures end { (C : Course) (may : Row → ℕ → Bool) (a : ℕ) (m : Moment) (xs : List Moment) → IsSoundCourse C → Joined C may a m xs Moment.at_end → IsUntouched C may (stretch m Moment.at_end) a }
{}

/// What lies before a moment lies before each later one and can't act between. What lies before a
/// moment and can't act between it and an earlier one lies before that. Nothing lies both before
/// and after a moment. From each moment but the end a next one leads nearer to the end.
pub fn moments_lead_to_the_end()
    ensures onward { (C : Course) (act : Act) (m w : Moment) → IsSoundCourse C → WhollyBefore C act m → NotLater C m w → WhollyBefore C act w × (MayAct C act (stretch m w) → ⊥) }
    ensures back { (C : Course) (act : Act) (m w : Moment) → IsSoundCourse C → IsAct C act → IsMoment C m → WhollyBefore C act w → (MayAct C act (stretch m w) → ⊥) → WhollyBefore C act m }
    ensures apart { (C : Course) (act : Act) (m : Moment) → IsSoundCourse C → IsAct C act → WhollyBefore C act m → WhollyAfter C act m → ⊥ }
    ensures next { (C : Course) (m : Moment) → IsSoundCourse C → IsMoment C m → m ≢ Moment.at_end → HasNextMoment C m }
{}

/// The order says no more than what all arrangements of the events have in common: an event that it
/// puts before another one comes before it in each arrangement, and where it doesn't, some
/// arrangement has them the other way round.
pub fn order_is_what_arrangements_share()
    ensures each { (C : Course) (place : Event → ℕ) (e f : Event) → IsArrangement C place → Precedes C e f → place e < place f }
    ensures some { (C : Course) (e f : Event) → IsSoundCourse C → IsEvent C e → IsEvent C f → (PrecedesOrIs C f e → ⊥) → (place : Event → ℕ) × IsArrangement C place × (place e < place f) }
{}

/// In a sound course the order is that by times, and no event is before itself. What begins after
/// the untraced prefix is after it.
pub fn order_is_by_times()
    ensures events { (C : Course) (e f : Event) → IsSoundCourse C → IsEvent C e → IsEvent C f → Precedes C e f ↔ Sooner C e f }
    ensures forward { (C : Course) (e : Event) → IsSoundCourse C → Precedes C e e → ⊥ }
    ensures untraced { (C : Course) (d : ℕ) (e : Event) → IsSoundCourse C → C.untraced ≡ Some d → IsEvent C e → UntracedPrecedes C e ↔ (d < begin_of C e) }
{}
