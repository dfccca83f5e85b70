//! The slices of each thread, joined one to the next, and the last one to the end.

ghost use Rattle.std.specs.Prelude.{◌≡◌, ◌==◌, ◌⊎◌, ◌+◌, ◌-◌, ◌≤◌, take, drop, ◌++◌, ◌∷◌, [], ℕ, length, List, map, reverse, slice_get, option_map, Ok, Err, OnOk, IfOk, IfErr};
ghost use Rattle.std.specs.List.{filter};
ghost use Rattle.std.specs.List.Sorted.{IsNonDecreasingBy};
ghost use Rattle.rept_path.specs.Gap.{gap};
ghost use Rattle.rept_path.specs.Program.{code_of};
ghost use Rattle.rept_path.specs.State.{here, Counts};
ghost use Rattle.rept_streams.specs.Slices.Entries.{IsEntryOf};
ghost use Rattle.rept_isa.specs.declared.row.StepRow.{StepRow};
ghost use Rattle.rept_streams.specs.Threads.Linking.{GoesFromTo, onward_to, Chained, Ready};
ghost use Rattle.rept_streams.specs.Slices.Joins.{JoinedSlice, of_thread as slices_in_order, bridge, with_rows, join, thread, threads, rows_in, ran_rows};
ghost use Rattle.rept_streams.specs.Slices.Order.{head_of};
ghost use Rattle.rept_streams.specs.Threads.Kept.{AreRan};
ghost use Rattle.rept_streams.specs.Threads.Joining.{onward, ending_of, ground_of, AreRanInOrder, JoinsGoOn, slice_before, begin_of_ran};
ghost use Rattle.rept_streams.specs.Threads.Notes.{known_by};
ghost use Rattle.rept_streams.specs.Slices.Parts.{ToldSlice, begin_of, end_before};
ghost use Rattle.rept_streams.specs.Slices.Stretches.{RanSlice};
ghost use Rattle.rept_streams.specs.declared.slices.telling.StreamSlice.{StreamSlice};
ghost use Rattle.rept_streams.specs.declared.threads.walks.Walked.{Walked};
ghost use Rattle.rept_path.specs.declared.fault.PathFault.TheVariants.{OutOfMemory};
ghost use Rattle.rept_streams.specs.Slices.Stamps.{address_of, clock_of, context_of};
ghost use Rattle.rept_steps.specs.Linked.{EndBefore};

use crate::slices::order::begin_of;
use crate::slices::telling::StreamSlice;
use crate::slices::untraced::end_before;
use crate::threads::notes::KeptNote;
use crate::threads::walks::{FinishedWalk, Walked, of_thread};
use rept_isa::StepRow;
use rept_path::PathFault;
use rept_path::program::Program;
use rept_steps::{LIMIT, Slice, Slices, Steps, ThreadRows, Threads};
use rept_trace::Packet;
use std::alloc::Global;

/// What the slices of threads are joined over.
#[derive(Drop)]
pub struct Joins<'a> {
    pub program: Program<'a>,
    /// How many packets all streams have.
    pub packets: u32,
    /// All stretches.
    pub stretches: Vec<FinishedWalk>,
    /// How many rows stand in all threads: those of all stretches, and of the joins that were made.
    pub count: usize,
}

/// What leads on from a slice: the number of a packet, or the count of all of them at the end; the
/// address to which it leads; and the refusal where no rows lead there.
#[derive(Drop)]
struct Lead {
    packet: u32,
    to: u32,
    otherwise: PathFault,
}

/// The address of a start packet, 0 of another packet.
fn address_of(packet: Packet) -> u32
    ensures { result ≡ address_of packet }
{
    match packet {
        Packet::Start { address, .. } => address,
        Packet::Context { .. }
        | Packet::Support { .. }
        | Packet::Address { .. }
        | Packet::Map { .. }
        | Packet::MapAddress { .. } => 0,
    }
}

/// Adds a step after others, which lead to it.
pub(crate) fn add_row(steps: &mut Steps, row: &StepRow) -> Result<(), PathFault>
    requires { EndBefore steps.old row.now.at }
    ensures ok { OnOk result (steps.new ≡ steps.old ++ row.now ∷ []) }
    ensures ends { OnOk result (EndBefore steps.new row.now.next) }
    ensures err { IfErr result (λ e. e ≡ OutOfMemory) }
{
    match steps.push(*row) {
        Ok(()) => Ok(()),
        Err(_) => Err(PathFault::OutOfMemory),
    }
}

/// Adds steps after others, which lead to them.
fn add_rows(steps: &mut Steps, rows: &[StepRow]) -> Result<(), PathFault>
    requires { (a : ℕ) × (b : ℕ) × EndBefore steps.old a × GoesFromTo rows.now a b }
    ensures ok { OnOk result (steps.new ≡ steps.old ++ rows.now) }
    ensures err { IfErr result (λ e. e ≡ OutOfMemory) }
{
    for row in rows {
        add_row(steps, row)?;
    }
    Ok(())
}

/// Where a slice that stands at an address leads: to the next one of its thread, or to the end.
/// None where the next one begins while the trace runs.
fn onward(packets: u32, at: u32, pc: u32, next: Option<StreamSlice<'_>>) -> Option<Lead>
    ensures { result ≡ onward packets at pc next.entry }
{
    match next {
        None => Some(Lead {
            packet: packets,
            to: pc,
            otherwise: PathFault::End(at, pc),
        }),
        Some(next) => {
            if next.inside.is_some() {
                return None;
            }
            let number = next.number;
            let address = address_of(next.start);
            Some(Lead {
                packet: number,
                to: address,
                otherwise: PathFault::Gap(number, at, address),
            })
        }
    }
}

/// The second one of slices, if there is one.
fn second<'a>(walked: &[Walked<'a>]) -> Option<StreamSlice<'a>>
    ensures { result ≡ option_map (λ (w : Walked). w.slice) (slice_get walked.now 1) }
{
    match walked.get(1) {
        None => None,
        Some(walked) => Some(walked.slice),
    }
}

/// The rows that lead on from where a stretch ended, of which there may be so many. The stretch
/// stays as it was.
fn cross(
    alloc: Global,
    program: &Program<'_>,
    kept: &mut FinishedWalk,
    room: usize,
    lead: Lead,
) -> Result<Steps, PathFault>
    requires walk { Counts kept.old.walk }
    requires empty { kept.old.walk.steps ≡ [] }
    ensures ok { IfOk result (λ more. gap (code_of program.now) (record { packet = lead.packet; bits = kept.old.walk.bits.items; place = here kept.old.walk; room = room }) (record { address = lead.to; otherwise = lead.otherwise }) ≡ Ok (reverse more)) }
    ensures err { IfErr result (λ e. (e ≡ OutOfMemory) ⊎ (gap (code_of program.now) (record { packet = lead.packet; bits = kept.old.walk.bits.items; place = here kept.old.walk; room = room }) (record { address = lead.to; otherwise = lead.otherwise }) ≡ Err e)) }
    ensures same { OnOk result (kept.new ≡ kept.old) }
{
    let before = kept.walk.room;
    kept.walk.room = room;
    let near = program.near(kept.walk.at);
    kept.walk.join(&near, lead.packet, lead.to, lead.otherwise)?;
    kept.walk.room = before;
    Ok(std::mem::replace(&mut kept.walk.steps, Steps::new(alloc)))
}

/// The rows from one on, this many.
fn part(rows: &[StepRow], first: usize, count: usize) -> &[StepRow]
    requires { first + count ≤ length rows.now }
    ensures { result.now ≡ take count (drop first rows.now) }
{
    let rest = &rows[first..];
    &rest[..count]
}

/// The slices of the thread of a note, of slices that stand in order.
fn slices_of<'a, 'b>(walked: &'b [Walked<'a>], note: &KeptNote) -> &'b [Walked<'a>]
    requires { IsNonDecreasingBy (λ (w : Walked). context_of w.slice.start) walked.now }
    ensures { result.now ≡ filter (λ (w : Walked). context_of w.slice.start == note.now.process) walked.now }
{
    of_thread(walked, note.process)
}

/// A slice of so many rows from this one of its thread on.
fn slice_of(slice: StreamSlice<'_>, next: Option<StreamSlice<'_>>, first: u32, count: u32) -> Slice
    requires { (t : ToldSlice) × IsEntryOf slice t }
    ensures { (t : ToldSlice) → IsEntryOf slice.entry t → result ≡ record { stream = t.stream; begin = begin_of t; end = end_before t (option_map (λ (e : StreamSlice). clock_of e.start) next.entry); first = first; count = count } }
{
    let begin = match next {
        None => None,
        Some(next) => Some(begin_of(&next)),
    };
    Slice {
        stream: slice.stream,
        begin: begin_of(&slice),
        end: end_before(&slice, begin),
        first,
        count,
    }
}

impl<'a> Joins<'a> {
    /// The rows that lead on from the first one of slices of a thread that stand in order: to the
    /// next one, or to the end, where the thread stands at this address.
    fn bridge(&mut self, alloc: Global, walked: &[Walked<'_>], pc: u32) -> Result<Steps, PathFault>
        requires few { self.old.count ≤ 65536 }
        requires ran { (r : RanSlice) × (rs : List RanSlice) × AreRan self.old.stretches.items walked.now (r ∷ rs) }
        ensures ok { (r : RanSlice) (rs : List RanSlice) → AreRan self.old.stretches.items walked.now (r ∷ rs) → IfOk result (λ more. bridge (ending_of self.old pc) self.old.count r (head_of rs) ≡ Ok (reverse more)) }
        ensures err { (r : RanSlice) (rs : List RanSlice) → AreRan self.old.stretches.items walked.now (r ∷ rs) → IfErr result (λ e. (e ≡ OutOfMemory) ⊎ (bridge (ending_of self.old pc) self.old.count r (head_of rs) ≡ Err e)) }
        ensures count { IfOk result (λ more. JoinsGoOn self.old self.new (self.old.count + length more)) }
        ensures few { IfOk result (λ more. self.old.count + length more ≤ 65536) }
    {
        let Some(first) = walked.first() else {
            return Ok(Steps::new(alloc));
        };
        let kept = &mut self.stretches[first.stretch];
        let Some(lead) = onward(self.packets, kept.walk.at, pc, second(walked)) else {
            return Ok(Steps::new(alloc));
        };
        let room = LIMIT.saturating_sub(self.count);
        let more = match cross(alloc, &self.program, kept, room, lead) {
            Ok(more) => more,
            Err(fault) => return Err(fault),
        };
        self.count += more.len() as usize;
        Ok(more)
    }

    /// Adds the rows of the first one of slices of a thread, and those that lead on from it, and
    /// the slice.
    fn add_slice(
        &mut self,
        alloc: Global,
        thread: &mut ThreadRows,
        walked: &[Walked<'_>],
        pc: u32,
    ) -> Result<(), PathFault>
        requires few { self.old.count ≤ 65536 }
        requires ran { (r : RanSlice) × (rs : List RanSlice) × AreRan self.old.stretches.items walked.now (r ∷ rs) × EndBefore thread.old.steps (address_of r.told.start) × GoesFromTo r.rows (address_of r.told.start) (onward_to r (head_of rs)) }
        ensures ok { (r : RanSlice) (rs : List RanSlice) → AreRan self.old.stretches.items walked.now (r ∷ rs) →
            OnOk result ((more : List StepRow) × (bridge (ending_of self.old pc) self.old.count r (head_of rs) ≡ Ok more) × JoinsGoOn self.old self.new (self.old.count + length more)
            × (self.old.count + length more ≤ 65536) × (thread.new ≡ record { steps = thread.old.steps ++ (with_rows r more).rows; slices = thread.old.slices ++ slice_before (with_rows r more) (option_map begin_of_ran (head_of rs)) (length thread.old.steps) ∷ [] })) }
        ensures err { (r : RanSlice) (rs : List RanSlice) → AreRan self.old.stretches.items walked.now (r ∷ rs) → IfErr result (λ e. (e ≡ OutOfMemory) ⊎ (bridge (ending_of self.old pc) self.old.count r (head_of rs) ≡ Err e)) }

        // The rows lead to the next slice.
        ensures ready { (r : RanSlice) (rs : List RanSlice) → AreRan self.old.stretches.items walked.now (r ∷ rs) → EndBefore thread.old.steps (address_of r.told.start) → GoesFromTo r.rows (address_of r.told.start) (onward_to r (head_of rs)) → OnOk result (Ready thread.new.steps (head_of rs)) }
    {
        let Some(slice) = walked.first() else {
            return Ok(());
        };
        let first = thread.steps.len();
        let rows = self.stretches[slice.stretch].rows.rows();
        let rows = part(rows, slice.first, slice.count);
        add_rows(&mut thread.steps, rows)?;
        let more = match self.bridge(alloc, walked, pc) {
            Ok(more) => more,
            Err(fault) => return Err(fault),
        };
        add_rows(&mut thread.steps, more.rows())?;
        let count = thread.steps.len() - first;
        let slice = slice_of(slice.slice, second(walked), first, count);
        if let Err(_) = thread.slices.push(slice) {
            return Err(PathFault::OutOfMemory);
        }
        Ok(())
    }

    /// The rows and the slices of a thread, which ends at this address, of its slices in order.
    fn thread(
        &mut self,
        alloc: Global,
        walked: &[Walked<'_>],
        pc: u32,
    ) -> Result<ThreadRows, PathFault>
        requires few { self.old.count ≤ 65536 }
        requires ran { (rs : List RanSlice) × AreRan self.old.stretches.items walked.now rs × Chained rs }
        ensures ok { (rs : List RanSlice) → AreRan self.old.stretches.items walked.now rs →
            IfOk result (λ rows. (js : List JoinedSlice) × (join (ending_of self.old pc) self.old.count rs ≡ Ok js) × (rows ≡ thread js) × JoinsGoOn self.old self.new (self.old.count + (rows_in js - ran_rows rs)) × (self.new.count ≤ 65536)) }
        ensures err { (rs : List RanSlice) → AreRan self.old.stretches.items walked.now rs → IfErr result (λ e. (e ≡ OutOfMemory) ⊎ (join (ending_of self.old pc) self.old.count rs ≡ Err e)) }
    {
        let mut rows = ThreadRows {
            steps: Steps::new(alloc),
            slices: Slices::new(alloc),
        };
        for i in 0..walked.len() {
            if let Err(fault) = self.add_slice(alloc, &mut rows, &walked[i..], pc) {
                return Err(fault);
            }
        }
        Ok(rows)
    }

    /// All threads, in the order of their notes, of slices that stand in order.
    pub fn threads(
        &mut self,
        alloc: Global,
        walked: &[Walked<'_>],
        notes: &[KeptNote],
    ) -> Result<Threads, PathFault>
        requires few { self.old.count ≤ 65536 }
        requires ran { (rs : List RanSlice) × AreRanInOrder self.old.stretches.items walked.now rs × ((process : ℕ) → Chained (slices_in_order process rs)) }
        requires order { IsNonDecreasingBy (λ (w : Walked). context_of w.slice.start) walked.now }
        ensures ok { (rs : List RanSlice) → AreRanInOrder self.old.stretches.items walked.now rs → IfOk result (λ all. threads (ground_of self.old) self.old.count (map known_by notes.now) rs ≡ Ok all) }
        ensures err { (rs : List RanSlice) → AreRanInOrder self.old.stretches.items walked.now rs → IfErr result (λ e. (e ≡ OutOfMemory) ⊎ (threads (ground_of self.old) self.old.count (map known_by notes.now) rs ≡ Err e)) }
    {
        let mut threads = Threads::new(alloc);
        for note in notes {
            let own = slices_of(walked, note);
            let rows = match self.thread(alloc, own, note.pc) {
                Ok(rows) => rows,
                Err(fault) => return Err(fault),
            };
            if let Err(_) = threads.push(rows) {
                return Err(PathFault::OutOfMemory);
            }
        }
        Ok(threads)
    }
}
