//! Moves along the rows of a thread.

ghost use Rattle.std.specs.Prelude.{◌≡◌, ◌≤◌, ◌<◌, ◌+◌, ◌-◌, ◌==◌, ◌||◌, ℕ, Bool, true, false, length, not, IfSome, None, Some};
ghost use Rattle.std.specs.List.{find, list_any, range_with_len};
ghost use Rattle.std.specs.Option.{option_or};
ghost use Rattle.rept_findings.specs.LastWriters.{AreLastWriters, IsNamed, named_row, writer_at};
ghost use Rattle.rept_findings.specs.Shown.{IsThreadPoint, Shown};
ghost use Rattle.rept_findings.specs.Texts.{at};
ghost use Rattle.rept_remote.specs.Moves.Halts.{NamesNoOther, are_known, back_over, backward, before, break_before, break_halt, came, continued, continued_back, first_outside, first_stop, forward, halt_at, has_changed, has_open, is_break, is_compared, is_known, is_later, is_open, is_outside, is_row, is_stepped_over, is_sure, is_touched, is_unseen, is_written, last_below, last_write, later, names, point_before, sooner_of, stepped, stepped_back, stepped_within, stop_at, wanted, write_before, write_stop, written};

use crate::CodeRange;
use crate::moves::halt::{LastWrite, MoveEnd, StopReason};
use crate::moves::spots::Watch;
use crate::moves::told::byte_told;
use rept_findings::findings::{address_at, moment_of};
use rept_findings::{Findings, ThreadPoint};
use rept_report::Writer;

/// The last point of a thread.
pub fn last_point<F: Findings>(findings: &F, thread: u32) -> u32
    requires { thread < (F.shown findings.now).threads }
    ensures value { result ≡ length ((F.shown findings.now).rows thread) }
    ensures few { result ≤ 65536 }
{
    findings.rows(thread).len() as u32
}

/// A point of the same thread.
pub fn point_at(here: ThreadPoint, point: u32) -> ThreadPoint
    ensures { result ≡ at here.thread point }
{
    ThreadPoint {
        thread: here.thread,
        point,
    }
}

/// What a report tells, at a point of a thread, of the last writer of a byte.
pub fn writer_at<F: Findings>(findings: &F, at: ThreadPoint, address: u32) -> Writer
    requires { IsThreadPoint (F.shown findings.now) at }
    ensures value { result ≡ writer_at (F.shown findings.now) at address }
    ensures last { AreLastWriters (F.shown findings.now) at.thread address }
{
    findings.writer(moment_of(findings, at), address)
}

/// The row that it names.
pub fn named_row(writer: Writer) -> Option<u32>
    ensures { result ≡ named_row writer }
{
    match writer {
        Writer::Writes(row) | Writer::MayWrite(row) => Some(row),
        Writer::Several | Writer::None => None,
    }
}

/// Whether a row that is named is this one.
fn is_row(named: Option<u32>, row: u32) -> bool
    ensures { result ≡ is_row named row }
{
    match named {
        Some(named) => named == row,
        None => false,
    }
}

/// Whether a point names this row.
fn names<F: Findings>(findings: &F, at: ThreadPoint, address: u32, row: u32) -> bool
    requires { IsThreadPoint (F.shown findings.now) at }
    ensures { result ≡ names (F.shown findings.now) at address row }
{
    is_row(named_row(writer_at(findings, at, address)), row)
}

/// Whether the row that is named at a point came since the point before it.
fn came<F: Findings>(findings: &F, at: ThreadPoint, address: u32, row: u32) -> bool
    requires some { 0 < at.point }
    requires at { IsThreadPoint (F.shown findings.now) at }
    ensures { result ≡ came (F.shown findings.now) at address (Some row) }
{
    let step = findings.point(row);
    if step.thread == at.thread {
        step.point == at.point - 1
    } else {
        !names(findings, point_at(at, at.point - 1), address, row)
    }
}

/// Whether a byte was written since the point before, or may have been.
fn is_written<F: Findings>(findings: &F, at: ThreadPoint, address: u32) -> bool
    requires some { 0 < at.point }
    requires at { IsThreadPoint (F.shown findings.now) at }
    ensures { result ≡ is_written (F.shown findings.now) at address }
{
    match named_row(writer_at(findings, at, address)) {
        Some(row) => came(findings, at, address, row),
        None => false,
    }
}

/// The first of the bytes of which that is so.
fn written<F: Findings>(findings: &F, at: ThreadPoint, addresses: &[u32]) -> Option<u32>
    requires some { 0 < at.point }
    requires at { IsThreadPoint (F.shown findings.now) at }
    ensures { result ≡ written (F.shown findings.now) at addresses.now }
{
    for address in addresses {
        if is_written(findings, at, *address) {
            return Some(*address);
        }
    }
    None
}

/// Whether a byte can be read at a point.
fn is_known<F: Findings>(findings: &F, at: ThreadPoint, address: u32) -> bool
    requires { IsThreadPoint (F.shown findings.now) at }
    ensures { result ≡ is_known (F.shown findings.now) at address }
{
    byte_told(findings, moment_of(findings, at), address).is_some()
}

/// Whether each of these bytes can be read at a point.
fn are_known<F: Findings>(findings: &F, at: ThreadPoint, addresses: &[u32]) -> bool
    requires { IsThreadPoint (F.shown findings.now) at }
    ensures { result ≡ are_known (F.shown findings.now) at addresses.now }
{
    for address in addresses {
        if !is_known(findings, at, *address) {
            return false;
        }
    }
    true
}

/// Whether the watched bytes can be read at a point, or at the point before it.
fn is_compared<F: Findings>(findings: &F, at: ThreadPoint, addresses: &[u32]) -> bool
    requires some { 0 < at.point }
    requires at { IsThreadPoint (F.shown findings.now) at }
    ensures { result ≡ is_compared (F.shown findings.now) at addresses.now }
{
    are_known(findings, at, addresses) || are_known(findings, point_at(at, at.point - 1), addresses)
}

/// Whether a report names a row that surely wrote a byte.
fn is_sure(writer: Writer) -> bool
    ensures { result ≡ is_sure writer }
{
    matches!(writer, Writer::Writes(_))
}

/// What is told of the row before a point by which a byte was written, or may have been.
fn write_stop<F: Findings>(findings: &F, watch: &Watch, at: ThreadPoint, address: u32) -> StopReason
    requires some { 0 < at.point }
    requires at { IsThreadPoint (F.shown findings.now) at }
    ensures { result ≡ write_stop (F.shown findings.now) watch.now at address }
{
    if has_address(watch.accesses(), address) {
        StopReason::Access(address)
    } else if !watch.is_stale()
        && is_sure(writer_at(findings, at, address))
        && is_compared(findings, at, watch.addresses())
    {
        StopReason::Write(address)
    } else {
        StopReason::Unseen(address)
    }
}

/// What is told of the rows since the point before.
fn stop_at<F: Findings>(findings: &F, watch: &Watch, at: ThreadPoint) -> StopReason
    requires some { 0 < at.point }
    requires at { IsThreadPoint (F.shown findings.now) at }
    ensures { result ≡ stop_at (F.shown findings.now) watch.now at }
{
    match written(findings, at, watch.addresses()) {
        Some(address) => write_stop(findings, watch, at, address),
        None => StopReason::Step,
    }
}

/// Whether gdb makes a step over the row by itself.
pub fn is_stepped_over(stop: StopReason) -> bool
    ensures { result ≡ is_stepped_over stop }
{
    matches!(stop, StopReason::Write(_) | StopReason::Access(_))
}

/// Whether gdb isn't told of the row as of one that a watchpoint is for.
pub fn is_unseen(stop: StopReason) -> bool
    ensures { result ≡ is_unseen stop }
{
    matches!(stop, StopReason::Unseen(_))
}

/// A stop of a move forward over the row before a point.
fn forward(at: ThreadPoint, stop: StopReason) -> MoveEnd
    requires { 0 < at.point }
    ensures value { result ≡ forward at stop }
    ensures within { result.point ≤ at.point }
{
    let point = if is_stepped_over(stop) {
        at.point - 1
    } else {
        at.point
    };
    MoveEnd { point, stop }
}

/// A stop of a move back over the row before a point.
fn backward(at: ThreadPoint, stop: StopReason) -> MoveEnd
    requires { 0 < at.point }
    ensures value { result ≡ backward at stop }
    ensures within { result.point ≤ at.point }
{
    let point = if is_stepped_over(stop) {
        at.point
    } else {
        at.point - 1
    };
    MoveEnd { point, stop }
}

/// One step forward.
pub fn stepped<F: Findings>(findings: &F, watch: &Watch, at: ThreadPoint) -> MoveEnd
    requires { IsThreadPoint (F.shown findings.now) at }
    ensures value { result ≡ stepped (F.shown findings.now) watch.now at }
    ensures within { result.point ≤ length ((F.shown findings.now).rows at.thread) }
{
    let point = at.point;
    if point >= last_point(findings, at.thread) {
        return MoveEnd {
            point,
            stop: StopReason::End,
        };
    }
    let after = point_at(at, point + 1);
    forward(after, stop_at(findings, watch, after))
}

/// One step back.
pub fn stepped_back<F: Findings>(findings: &F, watch: &Watch, at: ThreadPoint) -> MoveEnd
    requires { IsThreadPoint (F.shown findings.now) at }
    ensures value { result ≡ stepped_back (F.shown findings.now) watch.now at }
    ensures within { result.point ≤ at.point }
{
    let point = at.point;
    if point == 0 {
        return MoveEnd {
            point,
            stop: StopReason::Begin,
        };
    }
    backward(at, stop_at(findings, watch, at))
}

/// Whether a breakpoint stands at a point.
fn is_break<F: Findings>(findings: &F, breaks: &[u32], at: ThreadPoint) -> bool
    requires { IsThreadPoint (F.shown findings.now) at }
    ensures { result ≡ is_break (F.shown findings.now) breaks.now at }
{
    let here = address_at(findings, at);
    has_address(breaks, here)
}

fn has_address(addresses: &[u32], wanted: u32) -> bool
    ensures { result ≡ list_any (λ address. address == wanted) addresses.now }
{
    addresses.iter().any(|address| *address == wanted)
}

/// Whether rows may write a byte, and none is named as the last one.
fn is_open(writer: Writer) -> bool
    ensures { result ≡ is_open writer }
{
    matches!(writer, Writer::Several)
}

/// The first point after this one at which a breakpoint stands.
fn break_after<F: Findings>(findings: &F, breaks: &[u32], here: ThreadPoint) -> Option<u32>
    requires { IsThreadPoint (F.shown findings.now) here }
    ensures value { result ≡ find (λ point. is_break (F.shown findings.now) breaks.now (at here.thread point)) (range_with_len (here.point + 1) (length ((F.shown findings.now).rows here.thread) - here.point)) }
    ensures within { IfSome result (λ found. (here.point < found) × (found ≤ length ((F.shown findings.now).rows here.thread))) }
{
    let last = last_point(findings, here.thread);
    for next in here.point + 1..last + 1 {
        if is_break(findings, breaks, point_at(here, next)) {
            return Some(next);
        }
    }
    None
}

/// Whether the last writer of a byte at a later point of the thread isn't the row that is named at
/// an earlier one.
fn has_changed(known: Option<u32>, later: Writer) -> bool
    ensures { (s : Shown) (c : ThreadPoint) (address : ℕ) → known ≡ named_row (writer_at s c address) → result ≡ has_changed s c address later }
{
    match later {
        Writer::Writes(row) | Writer::MayWrite(row) => !is_row(known, row),
        Writer::Several => true,
        Writer::None => false,
    }
}

/// The point after a row that is named, where that is a row of the thread itself: it is named from
/// there on. Else the point at which it is named.
fn since<F: Findings>(findings: &F, here: ThreadPoint, address: u32, row: u32) -> u32
    requires here { IsThreadPoint (F.shown findings.now) here }
    requires last { AreLastWriters (F.shown findings.now) here.thread address }
    requires named { IsNamed (F.shown findings.now) here address row }
    ensures within { result ≤ here.point }
    ensures named { IsNamed (F.shown findings.now) (at here.thread result) address row }
    ensures least { (low : ℕ) → low < here.point → (IsNamed (F.shown findings.now) (at here.thread low) address row → ⊥) → low < result }
{
    let step = findings.point(row);
    if step.thread == here.thread {
        step.point + 1
    } else {
        here.point
    }
}

/// A point up to this one, before which a byte was written since an earlier point, or may have
/// been; none where it wasn't up to this one. It is as early as the row that is named tells.
/// `known` is the row that is named at the earlier point.
fn changed_by<F: Findings>(
    findings: &F,
    here: ThreadPoint,
    known: Option<u32>,
    point: u32,
    address: u32,
) -> Option<u32>
    requires here { IsThreadPoint (F.shown findings.now) here }
    requires later { IsThreadPoint (F.shown findings.now) (at here.thread point) }
    requires known { known ≡ named_row (writer_at (F.shown findings.now) here address) }
    ensures none { result ≡ None → has_changed (F.shown findings.now) here address (writer_at (F.shown findings.now) (at here.thread point) address) ≡ false }
    ensures within { IfSome result (λ found. found ≤ point) }
    ensures new { IfSome result (λ found. has_changed (F.shown findings.now) here address (writer_at (F.shown findings.now) (at here.thread found) address) ≡ true) }
    ensures least { IfSome result (λ found. (low : ℕ) → low < point → NamesNoOther (F.shown findings.now) here low address → low < found) }
    ensures last { AreLastWriters (F.shown findings.now) here.thread address }
{
    let later = writer_at(findings, point_at(here, point), address);
    if !has_changed(known, later) {
        return None;
    }
    match named_row(later) {
        Some(row) => Some(since(findings, point_at(here, point), address, row)),
        None => Some(point),
    }
}

/// The first point after this one, up to a bound, since whose point before a byte was written, or
/// may have been.
fn first_write<F: Findings>(
    findings: &F,
    here: ThreadPoint,
    bound: u32,
    address: u32,
) -> Option<u32>
    requires here { IsThreadPoint (F.shown findings.now) here }
    requires order { here.point ≤ bound }
    requires bound { IsThreadPoint (F.shown findings.now) (at here.thread bound) }
    ensures value { result ≡ find (λ point. is_touched (F.shown findings.now) (at here.thread point) address) (range_with_len (here.point + 1) (bound - here.point)) }
    ensures within { IfSome result (λ found. (here.point < found) × (found ≤ bound)) }
{
    if here.point == bound {
        return None;
    }
    let known = named_row(writer_at(findings, here, address));
    match changed_by(findings, here, known, bound, address) {
        Some(changed) => Some(first_change(findings, here, known, changed, address)),
        None => None,
    }
}

/// That point, where a byte was written up to a later one. What is named at two points tells
/// whether one lies between them. In turns the point below the later one is asked, which is the
/// last question where one row alone writes, and the one in the middle.
fn first_change<F: Findings>(
    findings: &F,
    here: ThreadPoint,
    known: Option<u32>,
    changed: u32,
    address: u32,
) -> u32
    requires here { IsThreadPoint (F.shown findings.now) here }
    requires known { known ≡ named_row (writer_at (F.shown findings.now) here address) }
    requires order { here.point < changed }
    requires changed { IsThreadPoint (F.shown findings.now) (at here.thread changed) }
    requires new { has_changed (F.shown findings.now) here address (writer_at (F.shown findings.now) (at here.thread changed) address) ≡ true }
    requires last { AreLastWriters (F.shown findings.now) here.thread address }
    ensures value { (bound : ℕ) → changed ≤ bound → Some result ≡ find (λ point. is_touched (F.shown findings.now) (at here.thread point) address) (range_with_len (here.point + 1) (bound - here.point)) }
    ensures within { (here.point < result) × (result ≤ changed) }
{
    let mut low = here.point;
    let mut high = changed;
    let mut near = true;
    while high - low > 1 {
        let point = between(low, high, near);
        near = !near;
        match changed_by(findings, here, known, point, address) {
            Some(changed) => high = changed,
            None => low = point,
        }
    }
    high
}

/// A point between two: the one below the higher, or the one in the middle.
fn between(low: u32, high: u32, near: bool) -> u32
    requires { low + 1 < high }
    ensures { (low < result) × (result < high) }
{
    if near {
        high - 1
    } else {
        low + (high - low) / 2
    }
}

/// The first stop after a point, where the writes of one byte more count: `first` is the first stop
/// without them.
fn earlier<F: Findings>(
    findings: &F,
    here: ThreadPoint,
    first: Option<u32>,
    address: u32,
) -> Option<u32>
    requires here { IsThreadPoint (F.shown findings.now) here }
    requires within { IfSome first (λ found. (here.point < found) × (found ≤ length ((F.shown findings.now).rows here.thread))) }
    ensures value { (test : ℕ → Bool) → first ≡ find test (range_with_len (here.point + 1) (length ((F.shown findings.now).rows here.thread) - here.point)) → result ≡ find (λ point. test point || is_touched (F.shown findings.now) (at here.thread point) address) (range_with_len (here.point + 1) (length ((F.shown findings.now).rows here.thread) - here.point)) }
    ensures within { IfSome result (λ found. (here.point < found) × (found ≤ length ((F.shown findings.now).rows here.thread))) }
{
    match first {
        Some(stop) => {
            let write = first_write(findings, here, stop - 1, address);
            Some(sooner(write, stop))
        }
        None => {
            let last = last_point(findings, here.thread);
            first_write(findings, here, last, address)
        }
    }
}

fn sooner(write: Option<u32>, stop: u32) -> u32
    ensures { Some result ≡ option_or write (Some stop) }
{
    match write {
        Some(point) => point,
        None => stop,
    }
}

/// The first point after this one at which a breakpoint stands, or since whose point before a
/// watched byte was written, or may have been.
fn first_stop<F: Findings>(
    findings: &F,
    breaks: &[u32],
    addresses: &[u32],
    here: ThreadPoint,
) -> Option<u32>
    requires { IsThreadPoint (F.shown findings.now) here }
    ensures value { result ≡ first_stop (F.shown findings.now) breaks.now addresses.now here }
    ensures within { IfSome result (λ found. (here.point < found) × (found ≤ length ((F.shown findings.now).rows here.thread))) }
{
    let mut first = break_after(findings, breaks, here);
    for address in addresses {
        first = earlier(findings, here, first, *address);
    }
    first
}

/// Forward to the first stop, or to the last point.
pub fn continued<F: Findings>(
    findings: &F,
    breaks: &[u32],
    watch: &Watch,
    at: ThreadPoint,
) -> MoveEnd
    requires { IsThreadPoint (F.shown findings.now) at }
    ensures value { result ≡ continued (F.shown findings.now) (wanted breaks.now watch.now) at }
    ensures within { result.point ≤ length ((F.shown findings.now).rows at.thread) }
{
    let first = first_stop(findings, breaks, watch.addresses(), at);
    halt_at(findings, watch, at, first)
}

/// Forward to the first point outside of a range, or to the first stop where that comes before; or
/// to the last point.
pub fn stepped_within<F: Findings>(
    findings: &F,
    breaks: &[u32],
    watch: &Watch,
    range: CodeRange,
    at: ThreadPoint,
) -> MoveEnd
    requires { IsThreadPoint (F.shown findings.now) at }
    ensures value { result ≡ stepped_within (F.shown findings.now) (wanted breaks.now watch.now) range at }
    ensures within { result.point ≤ length ((F.shown findings.now).rows at.thread) }
{
    let outside = first_outside(findings, range, at);
    let stop = first_stop(findings, breaks, watch.addresses(), at);
    halt_at(findings, watch, at, sooner_of(outside, stop))
}

/// The first point after this one whose address is none of a range.
fn first_outside<F: Findings>(findings: &F, range: CodeRange, here: ThreadPoint) -> Option<u32>
    requires { IsThreadPoint (F.shown findings.now) here }
    ensures value { result ≡ first_outside (F.shown findings.now) range here }
    ensures within { IfSome result (λ found. (here.point < found) × (found ≤ length ((F.shown findings.now).rows here.thread))) }
{
    let last = last_point(findings, here.thread);
    for next in here.point + 1..last + 1 {
        if is_outside(findings, range, point_at(here, next)) {
            return Some(next);
        }
    }
    None
}

/// Whether the address at a point is none of a range.
fn is_outside<F: Findings>(findings: &F, range: CodeRange, at: ThreadPoint) -> bool
    requires { IsThreadPoint (F.shown findings.now) at }
    ensures { result ≡ is_outside (F.shown findings.now) range at }
{
    let here = address_at(findings, at);
    !(range.first <= here && here < range.end)
}

/// The lesser of two points.
fn sooner_of(point: Option<u32>, other: Option<u32>) -> Option<u32>
    ensures value { result ≡ sooner_of point other }
    ensures within { (low high : ℕ) → IfSome point (λ p. (low < p) × (p ≤ high)) → IfSome other (λ p. (low < p) × (p ≤ high)) → IfSome result (λ p. (low < p) × (p ≤ high)) }
{
    match (point, other) {
        (None, _) => other,
        (Some(_), None) => point,
        (Some(first), Some(second)) => Some(if first < second { first } else { second }),
    }
}

/// Where a move forward ends that first stops at this point, or nowhere.
fn halt_at<F: Findings>(findings: &F, watch: &Watch, at: ThreadPoint, first: Option<u32>) -> MoveEnd
    requires at { IsThreadPoint (F.shown findings.now) at }
    requires first { IfSome first (λ found. (at.point < found) × (found ≤ length ((F.shown findings.now).rows at.thread))) }
    ensures value { result ≡ halt_at (F.shown findings.now) watch.now at.thread first }
    ensures within { result.point ≤ length ((F.shown findings.now).rows at.thread) }
{
    match first {
        Some(next) => {
            let after = point_at(at, next);
            forward(after, stop_at(findings, watch, after))
        }
        None => MoveEnd {
            point: last_point(findings, at.thread),
            stop: StopReason::End,
        },
    }
}

/// The last point before this one at which a breakpoint stands.
fn break_before<F: Findings>(findings: &F, breaks: &[u32], at: ThreadPoint) -> Option<u32>
    requires { IsThreadPoint (F.shown findings.now) at }
    ensures value { result ≡ break_before (F.shown findings.now) breaks.now at }
    ensures within { IfSome result (λ found. found < at.point) }
{
    let mut left = at.point;
    while left > 0 {
        left -= 1;
        if is_break(findings, breaks, point_at(at, left)) {
            return Some(left);
        }
    }
    None
}

/// The last point before this one at which a row isn't named yet that is named at this one: it is
/// named at each point since.
fn unnamed_before<F: Findings>(
    findings: &F,
    here: ThreadPoint,
    address: u32,
    row: u32,
) -> Option<u32>
    requires here { IsThreadPoint (F.shown findings.now) here }
    requires last { AreLastWriters (F.shown findings.now) here.thread address }
    requires named { IsNamed (F.shown findings.now) here address row }
    ensures value { result ≡ last_below (λ point. not (names (F.shown findings.now) (at here.thread point) address row)) here.point }
    ensures within { IfSome result (λ found. found < here.point) }
{
    if here.point == 0 {
        return None;
    }
    if names(findings, point_at(here, 0), address, row) {
        return None;
    }
    Some(last_unnamed(findings, here, address, row))
}

/// That point, where the row isn't named at point 0. In turns a point in the middle is asked.
fn last_unnamed<F: Findings>(findings: &F, here: ThreadPoint, address: u32, row: u32) -> u32
    requires here { IsThreadPoint (F.shown findings.now) here }
    requires some { 0 < here.point }
    requires last { AreLastWriters (F.shown findings.now) here.thread address }
    requires named { IsNamed (F.shown findings.now) here address row }
    requires unnamed { names (F.shown findings.now) (at here.thread 0) address row ≡ false }
    ensures value { Some result ≡ last_below (λ point. not (names (F.shown findings.now) (at here.thread point) address row)) here.point }
    ensures within { result < here.point }
{
    let mut low = 0;
    let mut high = here.point;
    while high - low > 1 {
        let point = low + (high - low) / 2;
        if names(findings, point_at(here, point), address, row) {
            high = point;
        } else {
            low = point;
        }
    }
    low
}

/// The last point before which a row came that is named.
fn point_before<F: Findings>(findings: &F, at: ThreadPoint, address: u32, row: u32) -> Option<u32>
    requires at { IsThreadPoint (F.shown findings.now) at }
    requires last { AreLastWriters (F.shown findings.now) at.thread address }
    requires named { IsNamed (F.shown findings.now) at address row }
    ensures value { result ≡ point_before (F.shown findings.now) at address (Some row) }
    ensures within { IfSome result (λ found. found < at.point) }
{
    let step = findings.point(row);
    if step.thread == at.thread {
        return before(at.point, step.point);
    }
    unnamed_before(findings, at, address, row)
}

/// A row of the thread, where it is before a point.
pub fn before(point: u32, row: u32) -> Option<u32>
    ensures value { result ≡ before point row }
    ensures within { IfSome result (λ found. found < point) }
{
    if row < point { Some(row) } else { None }
}

/// The later of two points.
fn later(best: Option<LastWrite>, found: Option<u32>, address: u32) -> Option<LastWrite>
    ensures value { result ≡ later best found address }
    ensures within { (n : ℕ) → IfSome best (λ write. write.point < n) → IfSome found (λ point. point < n) → IfSome result (λ write. write.point < n) }
{
    match (best, found) {
        (_, None) => best,
        (None, Some(point)) => Some(LastWrite { point, address }),
        (Some(write), Some(point)) if write.point < point => Some(LastWrite { point, address }),
        (Some(_), Some(_)) => best,
    }
}

/// Whether a row of another thread is named right after a point already. One question tells then
/// that it isn't later than that point.
fn was_named<F: Findings>(
    findings: &F,
    here: ThreadPoint,
    point: u32,
    address: u32,
    row: u32,
) -> bool
    requires here { IsThreadPoint (F.shown findings.now) here }
    requires point { point < here.point }
    ensures { result ≡ true → names (F.shown findings.now) (at here.thread (point + 1)) address row ≡ true }
{
    findings.point(row).thread != here.thread
        && names(findings, point_at(here, point + 1), address, row)
}

/// The later of a write and of the row that is named of a byte.
fn later_row<F: Findings>(
    findings: &F,
    here: ThreadPoint,
    best: Option<LastWrite>,
    address: u32,
    row: u32,
) -> Option<LastWrite>
    requires here { IsThreadPoint (F.shown findings.now) here }
    requires best { IfSome best (λ write. write.point < here.point) }
    requires last { AreLastWriters (F.shown findings.now) here.thread address }
    requires named { IsNamed (F.shown findings.now) here address row }
    ensures value { result ≡ later best (point_before (F.shown findings.now) here address (Some row)) address }
    ensures within { IfSome result (λ write. write.point < here.point) }
{
    if let Some(write) = best {
        if was_named(findings, here, write.point, address, row) {
            return best;
        }
    }
    later(best, point_before(findings, here, address, row), address)
}

/// The later of a write and the last one of a byte that the report names: by its last writer.
fn with_write<F: Findings>(
    findings: &F,
    here: ThreadPoint,
    best: Option<LastWrite>,
    address: u32,
    writer: Writer,
) -> Option<LastWrite>
    requires here { IsThreadPoint (F.shown findings.now) here }
    requires best { IfSome best (λ write. write.point < here.point) }
    requires last { AreLastWriters (F.shown findings.now) here.thread address }
    requires writer { writer ≡ writer_at (F.shown findings.now) here address }
    ensures value { result ≡ later best (write_before (F.shown findings.now) here address) address }
    ensures within { IfSome result (λ write. write.point < here.point) }
{
    match named_row(writer) {
        Some(row) => later_row(findings, here, best, address, row),
        None => best,
    }
}

/// The last of the writes of these bytes that the report names before a point, if there is one.
/// None where rows may have written one of the bytes, and none is named. Each byte is asked for
/// once.
fn named_write<F: Findings>(
    findings: &F,
    at: ThreadPoint,
    addresses: &[u32],
) -> Option<Option<LastWrite>>
    requires { IsThreadPoint (F.shown findings.now) at }
    ensures open { result ≡ None → has_open (F.shown findings.now) at addresses.now ≡ true }
    ensures closed { IfSome result (λ last. has_open (F.shown findings.now) at addresses.now ≡ false) }
    ensures last { IfSome result (λ last. last ≡ last_write (F.shown findings.now) at addresses.now) }
    ensures within { IfSome result (λ last. IfSome last (λ write. write.point < at.point)) }
{
    let mut best = None;
    for address in addresses {
        let writer = writer_at(findings, at, *address);
        if is_open(writer) {
            return None;
        }
        best = with_write(findings, at, best, *address, writer);
    }
    Some(best)
}

/// Whether a write isn't before a breakpoint.
fn is_later(write: LastWrite, found: Option<u32>) -> bool
    ensures { result ≡ is_later write found }
{
    match found {
        Some(point) => point <= write.point,
        None => true,
    }
}

/// A breakpoint at a point, or the begin of the path.
fn break_halt(found: Option<u32>) -> MoveEnd
    ensures value { result ≡ break_halt found }
    ensures within { (n : ℕ) → IfSome found (λ point. point < n) → result.point ≤ n }
{
    match found {
        Some(point) => MoveEnd {
            point,
            stop: StopReason::Step,
        },
        None => MoveEnd {
            point: 0,
            stop: StopReason::Begin,
        },
    }
}

/// Back over the row of a write, which is before a point.
fn back_over<F: Findings>(findings: &F, watch: &Watch, at: ThreadPoint, write: LastWrite) -> MoveEnd
    requires at { IsThreadPoint (F.shown findings.now) at }
    requires write { write.point < at.point }
    ensures value { result ≡ back_over (F.shown findings.now) watch.now at.thread write }
    ensures within { result.point ≤ at.point }
{
    let after = point_at(at, write.point + 1);
    backward(after, write_stop(findings, watch, after, write.address))
}

/// Back over the last write that the report names of a watched byte, or to the last breakpoint; one
/// step back where it names none of a byte that rows may have written.
pub fn continued_back<F: Findings>(
    findings: &F,
    breaks: &[u32],
    watch: &Watch,
    at: ThreadPoint,
) -> MoveEnd
    requires { IsThreadPoint (F.shown findings.now) at }
    ensures value { result ≡ continued_back (F.shown findings.now) (wanted breaks.now watch.now) at }
    ensures within { result.point ≤ at.point }
{
    let Some(last) = named_write(findings, at, watch.addresses()) else {
        return stepped_back(findings, watch, at);
    };
    let found = break_before(findings, breaks, at);
    match last {
        Some(write) => {
            if is_later(write, found) {
                back_over(findings, watch, at, write)
            } else {
                break_halt(found)
            }
        }
        None => break_halt(found),
    }
}
