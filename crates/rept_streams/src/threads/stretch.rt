//! The walk of a stretch.

ghost use Rattle.std.specs.Prelude.{◌≡◌, ◌⊎◌, ◌++◌, ◌<◌, ◌+◌, ◌^◌, ◌∷◌, [], List, ℕ, length, reverse, if◌then◌else◌, OnOk, IfOk, IfErr, IfSome, IfNone, Ok, Some, None, true, false};
ghost use Rattle.rept_isa.specs.declared.row.StepRow.{StepRow};
ghost use Rattle.rept_trace.specs.declared.packet.Packet.{Packet};
ghost use Rattle.rept_trace.specs.Packets.{rest_of, number_of};
ghost use Rattle.rept_trace.specs.Stream.{Hold, AnswersNext};
ghost use Rattle.rept_path.specs.declared.fault.PathFault.TheVariants.{OutOfMemory};
ghost use Rattle.rept_path.specs.Packets.{begins};
ghost use Rattle.rept_path.specs.Program.{code_of};
ghost use Rattle.rept_path.specs.Route.{earlier_by};
ghost use Rattle.rept_path.specs.State.{Stands};
ghost use Rattle.rept_path.specs.Trace.{starts, StopsAt};
ghost use Rattle.rept_streams.specs.Slices.Stamps.{is_start};
ghost use Rattle.rept_streams.specs.Slices.Stretches.{same_stretch, marks};

use crate::slices::telling::is_start;
use rept_path::PathFault;
use rept_path::program::Program;
use rept_path::walk::Walk;
use rept_path::window::{Begin, next_packet};
use rept_trace::{Packet, Packets};
use std::alloc::Global;

/// Whether the packet begins a stretch, where the trace waits or not before it.
fn begins(packet: Packet, waits: bool) -> bool
    ensures { result ≡ begins packet waits }
{
    match packet {
        Packet::Start { .. } => waits,
        _ => false,
    }
}

/// The next packet of bytes that hold whole packets alone, if it is one of the same stretch.
fn next_of_stretch(rest: &mut Packets<'_>, waits: bool) -> Option<Packet>
    requires { (more : List Packet) × Hold (rest_of rest.old) more }
    ensures some { IfSome result (λ packet. AnswersNext (number_of rest.old) (rest_of rest.old) (Ok (Some packet)) (number_of rest.new) (rest_of rest.new)) }
    ensures same { IfSome result (λ packet. begins packet waits ≡ false) }
    ensures none { IfNone result ((more : List Packet) → Hold (rest_of rest.old) more → same_stretch waits more ≡ []) }
{
    let mut after = *rest;
    let packet = match next_packet(&mut after) {
        None => return None,
        Some(packet) => packet,
    };
    if begins(packet, waits) {
        return None;
    }
    *rest = after;
    Some(packet)
}

/// A walk over the packets of a stretch.
#[derive(Drop)]
pub struct StretchWalk {
    pub walk: Walk,
    /// How many rows stand before those of each slice.
    pub marks: Vec<usize>,
}

/// Adds the count of the rows up to a packet, if it is a start packet.
fn add_mark(marks: &mut Vec<usize>, packet: Packet, rows: usize) -> Result<(), PathFault>
    ensures ok { OnOk result (marks.new.items ≡ marks.old.items ++ (if is_start packet then rows ∷ [] else [])) }
    ensures err { IfErr result (λ e. e ≡ OutOfMemory) }
{
    if !is_start(packet) {
        return Ok(());
    }
    if let Err(_) = marks.push(rows) {
        return Err(PathFault::OutOfMemory);
    }
    Ok(())
}

/// A walk over the packets of a stretch, from its first packet on, which may make so many steps.
pub fn walk_stretch(
    alloc: Global,
    program: &Program<'_>,
    room: usize,
    head: Begin<'_>,
) -> Result<StretchWalk, PathFault>
    requires starts { starts (Some head.first) ≡ true }
    requires few { (later : List Packet) × Hold (rest_of head.later) later × (head.number + 1 + length later < 2 ^ 32) }
    ensures ok { (later : List Packet) → Hold (rest_of head.entry.later) later → IfOk result (λ w. (legs : List (List StepRow)) × Stands (code_of program.now) (earlier_by (record { number = head.entry.number; room = room }) (reverse (head.entry.first ∷ same_stretch false later)) legs) w.walk × (w.marks.items ≡ marks (code_of program.now) (reverse (head.entry.first ∷ same_stretch false later)) legs)) }
    ensures err { (later : List Packet) → Hold (rest_of head.entry.later) later → IfErr result (λ e. (e ≡ OutOfMemory) ⊎ StopsAt (code_of program.now) (record { number = head.entry.number; room = room }) (head.entry.first ∷ same_stretch false later) e) }
{
    let mut walk = Walk::begin(alloc, program, head.number, room, head.first)?;
    let mut marks = Vec::new(alloc);
    add_mark(&mut marks, head.first, walk.steps.len() as usize)?;
    let mut rest = head.later;
    let mut number = head.number + 1;
    let mut near = *program;
    while let Some(packet) = next_of_stretch(&mut rest, walk.waiting) {
        near = near.near(walk.at);
        walk.follow(&near, number, packet)?;
        add_mark(&mut marks, packet, walk.steps.len() as usize)?;
        number += 1;
    }
    Ok(StretchWalk { walk, marks })
}
