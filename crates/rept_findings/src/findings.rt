//! What a session asks of an analysis.

ghost use Rattle.std.specs.Prelude.{◌≡◌, ◌≢◌, ℕ, ◌<◌, ◌≤◌, ◌+◌, length, map, Some, false, IfOk, IfNone, IfSome};
ghost use Rattle.std.specs.Option.{option_map};
ghost use Rattle.rept_elf.specs.Symbols.{symbol_of};
ghost use Rattle.rept_findings.specs.LastWriters.{AreLastWriters};
ghost use Rattle.rept_findings.specs.Shown.{IsThreadPoint, Shown, explained, known_value, moment_at, number, places_of};
ghost use Rattle.rept_findings.specs.Texts.{pc_at};
ghost use Rattle.rept_reason.specs.declared.fact.Fact.{Fact};
ghost use Rattle.rept_reason.specs.declared.fact.Cell.TheVariants.{Register};
ghost use Rattle.rept_report.specs.Why.{Because};

use crate::place::{ThreadPlace, ThreadPoint};
use rept_elf::Symbol;
use rept_isa::{Reg, StepRow};
use rept_partial::Range;
use rept_reason::{Cell, Fact, Reason};
use rept_report::{Counts, Writer};
use rept_word::OutOfMemory;
use std::alloc::Global;

/// Which premises were taken of the executions of which a session tells beyond a report: those
/// whose condition holds of the files.
#[derive(Clone, Copy)]
pub struct PremisesTaken {
    /// `read-only`: no step writes what the program can't write
    pub read_only: bool,
    /// `answers`: calls answer as Linux's do
    pub answers: bool,
    /// `first-memory`: memory begins as the executable says
    pub first_memory: bool,
    /// `fresh-pages`: pages that a call hands out are 0
    pub fresh_pages: bool,
}

/// How much is known beyond a report, and by which premises.
#[derive(Clone, Copy)]
pub struct KnownBeyond {
    /// the values of x1 to x31 that only were inferred, at all points together
    pub registers: u32,
    /// the bytes that steps load and that only were inferred, of all steps together
    pub bytes: u32,
    /// the premises
    pub premises: PremisesTaken,
}

/// The rule by which a value was inferred beyond a report.
#[derive(Clone, Copy)]
pub enum BeyondRule {
    /// `value`: a step's operands tell its result, its result an operand, or a byte a register
    Value,
    /// `call`: what a call answers
    Call,
    /// `class`: it differs from another value by a constant
    Class,
    /// `miss`: no step in between writes the byte
    Miss,
    /// `read-only`: the program can't write the byte
    ReadOnly,
    /// `first-memory`: the executable has the byte
    FirstMemory,
}

/// What an analysis of a run of threads found out. Threads have numbers from 0 on; a thread of n
/// steps has the points 0 to n. The points of all threads have numbers, those of a thread side by
/// side, and so have the moments at which bytes have values; of one thread both are its points.
/// `shown` is all that a session tells of it but for reasons, and `reasons` says what is a reason
/// of a fact.
pub trait Findings {
    ghost shown: { Self → Shown };

    ghost reasons: { Self → Fact → Because → Type 0 };

    /// How many threads there are, at least one.
    fn threads(&self) -> u32
        ensures value { result ≡ (shown self.now).threads }
        ensures some { 0 < (shown self.now).threads };

    /// The process of a thread, as its register note names it.
    fn process(&self, thread: u32) -> u32
        requires { thread < (shown self.now).threads }
        ensures { result ≡ (shown self.now).process thread };

    /// The steps of a thread, at most 65,536.
    fn rows(&self, thread: u32) -> &[StepRow]
        requires { thread < (shown self.now).threads }
        ensures list { result.now ≡ (shown self.now).rows thread }
        ensures few { length ((shown self.now).rows thread) ≤ 65536 };

    /// The address after the last step of a thread.
    fn end_pc(&self, thread: u32) -> u32
        requires { thread < (shown self.now).threads }
        ensures { result ≡ (shown self.now).end_pc thread };

    /// The number of a thread's point 0. Those of its other points come after it.
    fn first(&self, thread: u32) -> u32
        requires { thread < (shown self.now).threads }
        ensures value { result ≡ (shown self.now).first thread }
        ensures within { (shown self.now).first thread + length ((shown self.now).rows thread) < (shown self.now).points };

    /// How many points all threads have together: 65,536 steps and 1,024 threads at most.
    fn points(&self) -> u32
        ensures value { result ≡ (shown self.now).points }
        ensures few { (shown self.now).points ≤ 66560 };

    /// The thread and the point that a number stands for.
    fn point(&self, number: u32) -> ThreadPoint
        ensures { result ≡ (shown self.now).point number };

    /// The moment at a point: before the step that leads from it, or the end of its thread.
    fn moment(&self, point: u32) -> u32
        requires { point < (shown self.now).points }
        ensures value { result ≡ (shown self.now).moment point }
        ensures within { (shown self.now).moment point < (shown self.now).moments };

    /// The thread and the place that a moment's number stands for.
    fn place(&self, moment: u32) -> ThreadPlace
        ensures { result ≡ (shown self.now).place moment };

    /// The value of a register at a point, where it is known.
    fn reg(&self, point: u32, register: Reg) -> Option<u32>
        requires { point < (shown self.now).points }
        ensures { result ≡ (shown self.now).register point register };

    /// The values that a register may have at a point, from the lowest to the highest.
    fn range(&self, point: u32, register: Reg) -> Range
        requires { point < (shown self.now).points }
        ensures { result ≡ (shown self.now).range point register };

    /// The bits in which all values that a register may have at a point are alike, where bits are
    /// followed: a mask, and what they are. The bits of the second that aren't in the mask are 0.
    fn note(&self, point: u32, register: Reg) -> Option<(u32, u32)>
        requires { point < (shown self.now).points }
        ensures { result ≡ (shown self.now).note point register };

    /// The byte at an address at a moment, where it is known.
    fn byte(&self, moment: u32, address: u32) -> Option<u8>
        requires { moment < (shown self.now).moments }
        ensures { result ≡ (shown self.now).byte moment address };

    /// The byte of code at an address, where the program has code there. That it stands there at
    /// each moment is an assumption: code doesn't change.
    fn code(&self, address: u32) -> Option<u8>
        ensures { result ≡ (shown self.now).code address };

    /// What is known of the step that last wrote the byte at an address before a moment. A step has
    /// the number of the point that it leads from. A step that is named at a point of a thread came
    /// before it, and is named at each point of the thread since it came.
    fn writer(&self, moment: u32, address: u32) -> Writer
        requires { moment < (shown self.now).moments }
        ensures value { result ≡ (shown self.now).writer moment address }
        ensures last { (thread : ℕ) → AreLastWriters (shown self.now) thread address };

    /// How much was found, of all threads together.
    fn counts(&self) -> Counts
        ensures { result ≡ (shown self.now).counts };

    /// The functions that have these addresses, and where they begin, where the files of the
    /// program name them: one answer for each address. A refusal is for running out of memory
    /// alone.
    fn symbols(
        &self,
        alloc: Global,
        addresses: &[u32],
    ) -> Result<Vec<Option<Symbol<'_>>>, OutOfMemory>
        ensures { IfOk result (λ found. map (option_map symbol_of) found.items ≡ map (shown self.now).symbol addresses.now) };

    /// How much is known beyond the report, and by which premises. None where nothing was asked for
    /// beyond it.
    fn beyond(&self) -> Option<KnownBeyond>
        ensures { result ≡ (shown self.now).beyond };

    /// The rule by which the value of a register at a point, or of a byte at a moment, was inferred
    /// last, as far as it was kept.
    fn rule(&self, number: u32, cell: Cell) -> BeyondRule
        requires { number < places_of (shown self.now) cell };

    /// The address that the program gives to a name.
    fn address_named(&self, name: &[u8]) -> Option<u32>
        ensures { result ≡ (shown self.now).address_named name.now };

    /// Whether the value of a register at a point, or of a byte at a moment, isn't one of the
    /// report, and was inferred beyond it: then it has no reason.
    fn is_inferred(&self, number: u32, cell: Cell) -> bool
        requires { number < places_of (shown self.now) cell }
        ensures { result ≡ (shown self.now).is_inferred number cell };

    /// A reason of a fact of the report, which isn't one of x0: its value needs no reason. None
    /// only where the fact isn't known. A refusal is for running out of memory alone.
    fn why(&self, alloc: Global, fact: Fact) -> Result<Option<Reason>, OutOfMemory>
        requires point { fact.point < places_of (shown self.now) fact.cell }
        requires named { fact.cell ≢ Register 0 }
        requires reported { (shown self.now).is_inferred fact.point fact.cell ≡ false }
        ensures none { IfOk result (λ found. IfNone found (known_value (shown self.now) fact.point fact.cell ≢ Some fact.value)) }
        ensures reason { IfOk result (λ found. IfSome found (λ reason. reasons self.now fact (explained reason))) };
}

/// The address at a point of a thread.
pub fn address_at<F: Findings>(findings: &F, at: ThreadPoint) -> u32
    requires { IsThreadPoint (F.shown findings.now) at }
    ensures { result ≡ pc_at (F.shown findings.now) at }
{
    match findings.rows(at.thread).get(at.point as usize) {
        Some(row) => row.at,
        None => findings.end_pc(at.thread),
    }
}

/// The number of a point of a thread.
pub fn number_of<F: Findings>(findings: &F, at: ThreadPoint) -> u32
    requires { IsThreadPoint (F.shown findings.now) at }
    ensures value { result ≡ number (F.shown findings.now) at }
    ensures within { result < (F.shown findings.now).points }
{
    // for the proof alone
    let _few = findings.points();
    findings.first(at.thread) + at.point
}

/// The number of the point after a step of a thread.
pub fn number_after<F: Findings>(findings: &F, at: ThreadPoint) -> u32
    requires thread { at.thread < (F.shown findings.now).threads }
    requires step { at.point < length ((F.shown findings.now).rows at.thread) }
    ensures value { result ≡ number (F.shown findings.now) at + 1 }
    ensures within { result < (F.shown findings.now).points }
{
    // for the proof alone
    let _few = findings.points();
    findings.first(at.thread) + at.point + 1
}

/// The number of the moment at a point of a thread.
pub fn moment_of<F: Findings>(findings: &F, at: ThreadPoint) -> u32
    requires { IsThreadPoint (F.shown findings.now) at }
    ensures value { result ≡ moment_at (F.shown findings.now) at }
    ensures within { result < (F.shown findings.now).moments }
{
    findings.moment(number_of(findings, at))
}
