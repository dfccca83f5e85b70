//! The walks of all stretches, and the rows of each slice.

ghost use Rattle.std.specs.Prelude.{◌≡◌, ◌⊎◌, ◌==◌, ◌++◌, ◌+◌, ◌<◌, ◌≤◌, ◌^◌, ◌∷◌, true, ℕ, List, length, [], OnOk, IfOk, IfErr};
ghost use Rattle.std.specs.List.{AllAdjacentBelow, filter, sum_by};
ghost use Rattle.std.specs.List.Sorted.{IsPermutation, IsNonDecreasingBy};
ghost use Rattle.rept_trace.specs.declared.packet.Packet.{Packet};
ghost use Rattle.rept_path.specs.declared.fault.PathFault.TheVariants.{OutOfMemory};
ghost use Rattle.rept_path.specs.Program.{code_of};
ghost use Rattle.rept_streams.specs.Slices.Entries.{AreEntriesOf};
ghost use Rattle.rept_streams.specs.Threads.Kept.{AreKept, kept_by};
ghost use Rattle.rept_streams.specs.Threads.Turns.{in_turn};
ghost use Rattle.rept_streams.specs.Slices.Ends.{first_or};
ghost use Rattle.rept_streams.specs.Slices.Order.{by_time};
ghost use Rattle.rept_streams.specs.Slices.Parts.{ToldSlice, slices_told};
ghost use Rattle.rept_streams.specs.Slices.Skipping.{kept};
ghost use Rattle.rept_streams.specs.Slices.Stamps.{clock_of, context_of, is_start};
ghost use Rattle.rept_streams.specs.Slices.Stretches.{heads, StretchLegs as WalkedStretch, Walks as AreWalks, WalksFault};
ghost use Rattle.rept_streams.specs.declared.threads.walks.Walked.{Walked};

use crate::slices::order::{begin_of, process_of};
use crate::slices::telling::StreamSlice;
use crate::threads::stretch::{StretchWalk, walk_stretch};
use rept_path::PathFault;
use rept_path::program::Program;
use rept_path::walk::Walk;
use rept_path::window::Begin;
use rept_steps::{LIMIT, Steps};
use std::alloc::Global;

/// A slice whose stretch was walked.
#[derive(Clone, Copy)]
pub struct Walked<'a> {
    /// The slice.
    pub slice: StreamSlice<'a>,
    /// The number of its stretch among those of all streams.
    pub stretch: usize,
    /// The number of its first row in the stretch.
    pub first: usize,
    /// How many rows it has there.
    pub count: usize,
}

/// A stretch that was walked.
#[derive(Drop)]
pub struct FinishedWalk {
    /// Its rows.
    pub rows: Steps,
    /// The walk as it ended, without its rows.
    pub walk: Walk,
}

/// All stretches, and the slices in them.
#[derive(Drop)]
pub struct Walks<'a> {
    pub stretches: Vec<FinishedWalk>,
    pub slices: Vec<Walked<'a>>,
    /// How many rows they have.
    pub rows: usize,
}

/// Takes the rows out of a walk.
fn keep(alloc: Global, mut walk: Walk) -> FinishedWalk
    ensures rows { result.rows ≡ walk.steps }
    ensures walk { result.walk ≡ record walk { steps = [] } }
{
    let rows = std::mem::replace(&mut walk.steps, Steps::new(alloc));
    FinishedWalk { rows, walk }
}

/// The first one of numbers, or this one where there is none.
fn first_or(number: usize, numbers: &[usize]) -> usize
    ensures { result ≡ first_or number numbers.now }
{
    match numbers.first() {
        None => number,
        Some(first) => *first,
    }
}

/// Adds the slices of a stretch of this number, which are the first ones of these.
fn add_slices<'a>(
    walked: &mut Vec<Walked<'a>>,
    slices: &[StreamSlice<'a>],
    stretch: &StretchWalk,
    number: usize,
) -> Result<(), PathFault>
    ensures ok { OnOk result (walked.new.items ≡ walked.old.items ++ kept_by number (length stretch.now.walk.steps) stretch.now.marks.items slices.now) }
    ensures err { IfErr result (λ e. e ≡ OutOfMemory) }
{
    let rows = stretch.walk.steps.len() as usize;
    let marks = stretch.marks.as_slice();
    for i in 0..marks.len() {
        let Some(slice) = slices.get(i) else {
            return Ok(());
        };
        let first = marks[i];
        let end = first_or(rows, &marks[i + 1..]);
        let slice = Walked {
            slice: *slice,
            stretch: number,
            first,
            count: end.saturating_sub(first),
        };
        if let Err(_) = walked.push(slice) {
            return Err(PathFault::OutOfMemory);
        }
    }
    Ok(())
}

/// The packet with which the stretch of a slice begins.
fn head<'a>(slice: &StreamSlice<'a>) -> Begin<'a>
    ensures { result ≡ record { number = slice.now.number; first = slice.now.start; later = slice.now.later } }
{
    Begin {
        number: slice.number,
        first: slice.start,
        later: slice.later,
    }
}

/// Walks the stretch that begins with the first of these slices, if one does.
fn add_stretch<'a>(
    walks: &mut Walks<'a>,
    alloc: Global,
    program: &Program<'_>,
    slices: &[StreamSlice<'a>],
) -> Result<(), PathFault>
    requires few { walks.old.rows ≤ 65536 }
    requires told { (t : ToldSlice) × (later : List ToldSlice) × AreEntriesOf slices.now (t ∷ later) × (is_start t.start ≡ true) × (t.number + 1 + length t.later < 2 ^ 32) }
    ensures ok { (from : ℕ) (lists : List (List Packet)) (before later : List ToldSlice) (t : ToldSlice) (ws : List WalkedStretch) → slices_told (kept from lists) ≡ before ++ t ∷ later → AreEntriesOf slices.now (t ∷ later) →
        AreWalks (code_of program.now) 0 (heads before) ws → AreKept (code_of program.now) (slices_told (kept from lists)) ws walks.old →
        OnOk result ((vs : List WalkedStretch) × AreWalks (code_of program.now) 0 (heads (before ++ t ∷ [])) vs × AreKept (code_of program.now) (slices_told (kept from lists)) vs walks.new) }
    ensures err { (from : ℕ) (lists : List (List Packet)) (before later : List ToldSlice) (t : ToldSlice) (ws : List WalkedStretch) → slices_told (kept from lists) ≡ before ++ t ∷ later → AreEntriesOf slices.now (t ∷ later) →
        AreWalks (code_of program.now) 0 (heads before) ws → AreKept (code_of program.now) (slices_told (kept from lists)) ws walks.old →
        IfErr result (λ e. (e ≡ OutOfMemory) ⊎ WalksFault (code_of program.now) 0 (heads (slices_told (kept from lists))) e) }
{
    let Some(slice) = slices.first() else {
        return Ok(());
    };
    if slice.inside.is_some() {
        return Ok(());
    }
    let room = LIMIT.saturating_sub(walks.rows);
    let stretch = match walk_stretch(alloc, program, room, head(slice)) {
        Ok(stretch) => stretch,
        Err(fault) => return Err(fault),
    };
    let number = walks.stretches.as_slice().len();
    add_slices(&mut walks.slices, slices, &stretch, number)?;
    walks.rows += stretch.walk.steps.len() as usize;
    let kept = keep(alloc, stretch.walk);
    if let Err(_) = walks.stretches.push(kept) {
        return Err(PathFault::OutOfMemory);
    }
    Ok(())
}

/// Walks the stretches of all streams, one after the other. At most 65,536 rows stand in all of
/// them.
pub fn walk_all<'a>(
    alloc: Global,
    program: &Program<'_>,
    slices: &[StreamSlice<'a>],
) -> Result<Walks<'a>, PathFault>
    requires { (from : ℕ) × (lists : List (List Packet)) × AreEntriesOf slices.now (slices_told (kept from lists)) × (sum_by (λ packets. length packets) lists < 2 ^ 32) }
    ensures ok { (from : ℕ) (lists : List (List Packet)) → AreEntriesOf slices.now (slices_told (kept from lists)) →
        IfOk result (λ walks. (ws : List WalkedStretch) × AreWalks (code_of program.now) 0 (heads (slices_told (kept from lists))) ws × AreKept (code_of program.now) (slices_told (kept from lists)) ws walks) }
    ensures err { (from : ℕ) (lists : List (List Packet)) → AreEntriesOf slices.now (slices_told (kept from lists)) → IfErr result (λ e. (e ≡ OutOfMemory) ⊎ WalksFault (code_of program.now) 0 (heads (slices_told (kept from lists))) e) }
{
    let mut walks = Walks {
        stretches: Vec::new(alloc),
        slices: Vec::new(alloc),
        rows: 0,
    };
    for i in 0..slices.len() {
        if let Err(fault) = add_stretch(&mut walks, alloc, program, &slices[i..]) {
            return Err(fault);
        }
    }
    Ok(walks)
}

/// Whether a slice may stand right before another one in order: its thread runs as a lower process,
/// or as the same one and it begins no later.
fn in_turn(former: &Walked<'_>, latter: &Walked<'_>) -> bool
    ensures { result ≡ in_turn former.now latter.now }
{
    let (process, next) = (process_of(&former.slice), process_of(&latter.slice));
    process < next || (process == next && begin_of(&former.slice) <= begin_of(&latter.slice))
}

/// Whether slices stand in order.
fn stand_in_order(slices: &[Walked<'_>]) -> bool
    ensures { result ≡ true → AllAdjacentBelow (λ (v w : Walked). in_turn v w ≡ true) slices.now (length slices.now) }
{
    for i in 1..slices.len() {
        if !in_turn(&slices[i - 1], &slices[i]) {
            return false;
        }
    }
    true
}

/// Puts slices in the order of their threads and times.
fn sort_slices(slices: &mut Vec<Walked<'_>>) -> Result<(), PathFault>
    ensures permutation { IsPermutation slices.old.items slices.new.items }
    ensures processes { OnOk result (IsNonDecreasingBy (λ (w : Walked). context_of w.slice.start) slices.new.items) }
    ensures times { (process : ℕ) → OnOk result (filter (λ (w : Walked). context_of w.slice.start == process) slices.new.items ≡ by_time (λ (w : Walked). clock_of w.slice.start) (filter (λ (w : Walked). context_of w.slice.start == process) slices.old.items)) }
    ensures err { IfErr result (λ e. e ≡ OutOfMemory) }
{
    if let Err(_) = slices.sort_by_key(|walked| begin_of(&walked.slice)) {
        return Err(PathFault::OutOfMemory);
    }
    if let Err(_) = slices.sort_by_key(|walked| process_of(&walked.slice)) {
        return Err(PathFault::OutOfMemory);
    }
    Ok(())
}

/// Puts slices in order: by the processes of their threads, those of one thread by their begins,
/// and those of one begin as they stood.
pub fn put_in_order(slices: &mut Vec<Walked<'_>>) -> Result<(), PathFault>
    ensures permutation { IsPermutation slices.old.items slices.new.items }
    ensures processes { OnOk result (IsNonDecreasingBy (λ (w : Walked). context_of w.slice.start) slices.new.items) }
    ensures times { (process : ℕ) → OnOk result (filter (λ (w : Walked). context_of w.slice.start == process) slices.new.items ≡ by_time (λ (w : Walked). clock_of w.slice.start) (filter (λ (w : Walked). context_of w.slice.start == process) slices.old.items)) }
    ensures err { IfErr result (λ e. e ≡ OutOfMemory) }
{
    // They do where each stream tells of one thread, and the threads' processes rise from stream to
    // stream.
    if stand_in_order(slices) {
        return Ok(());
    }
    sort_slices(slices)
}

/// The slices of the thread that runs as a process, of slices that stand in order.
pub fn of_thread<'a, 'b>(slices: &'b [Walked<'a>], process: u32) -> &'b [Walked<'a>]
    requires { IsNonDecreasingBy (λ (w : Walked). context_of w.slice.start) slices.now }
    ensures { result.now ≡ filter (λ (w : Walked). context_of w.slice.start == process) slices.now }
{
    let from = slices.partition_point(|walked| process_of(&walked.slice) < process);
    let rest = &slices[from..];
    let count = rest.partition_point(|walked| process_of(&walked.slice) <= process);
    &rest[..count]
}
