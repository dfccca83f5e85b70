//! From a trace and a dump to the path.

ghost use Rattle.std.specs.Prelude.{◌≡◌, ◌≢◌, ◌⊎◌, ◌<◌, ◌+◌, ◌^◌, ◌∷◌, [], List, ℕ, length, reverse, IfOk, IfErr, MatchResult, Some, true};
ghost use Rattle.rept_isa.specs.declared.row.StepRow.{StepRow};
ghost use Rattle.rept_dump.specs.Dump.{registers_of};
ghost use Rattle.rept_elf.specs.Header.{word_at};
ghost use Rattle.rept_trace.specs.declared.packet.Packet.{Packet};
ghost use Rattle.rept_trace.specs.declared.fault.TraceFault.{TraceFault};
ghost use Rattle.rept_trace.specs.Packets.{rest_of, number_of};
ghost use Rattle.rept_trace.specs.Stream.{Hold, FailsAfter};
ghost use Rattle.rept_steps.specs.Linked.{AreLinked, EndBefore};
ghost use Rattle.rept_path.specs.declared.fault.PathFault.{PathFault};
ghost use Rattle.rept_path.specs.declared.fault.PathFault.TheVariants.{OutOfMemory};
ghost use Rattle.rept_path.specs.Route.{alone, earlier_by};
ghost use Rattle.rept_path.specs.Rows.{CarryCode};
ghost use Rattle.rept_path.specs.State.{Stands};
ghost use Rattle.rept_path.specs.Stops.{HaveStops};
ghost use Rattle.rept_path.specs.Trace.{starts, StopsAt, IsPath, HasNoPathOfPackets};
ghost use Rattle.rept_path.specs.Program.{code_of};
ghost use Rattle.rept_path.specs.Traced.{pc_of, code_over, IsTracedPath, IsUntraced, IsRefusedBy, raw_of, raw_by};

use crate::fault::PathFault;
use crate::program::Program;
use crate::walk::Walk;
use crate::window::{Begin, go_through, next_packet};
use rept_dump::Dump;
use rept_steps::{LIMIT, Steps};
use rept_trace::Packets;
use std::alloc::Global;

/// The path of a program up to its crash.
#[derive(Drop)]
pub struct Path {
    /// The executed steps, the first one first.
    pub steps: Steps,
    /// How many packets of the trace stand before the start packet with which the path begins.
    pub skipped: u32,
}

/// A walk over the packets of a window.
fn walk_over(alloc: Global, program: &Program<'_>, begin: Begin<'_>) -> Result<Walk, PathFault>
    requires starts { starts (Some begin.first) ≡ true }
    requires few { (later : List Packet) × Hold (rest_of begin.later) later × (begin.number + 1 + length later < 2 ^ 32) }
    ensures ok { (later : List Packet) → Hold (rest_of begin.entry.later) later → IfOk result (λ w. (legs : List (List StepRow)) × Stands (code_of program.now) (earlier_by (alone begin.entry.number) (reverse (begin.entry.first ∷ later)) legs) w) }
    ensures err { (later : List Packet) → Hold (rest_of begin.entry.later) later → IfErr result (λ e. (e ≡ OutOfMemory) ⊎ StopsAt (code_of program.now) (alone begin.entry.number) (begin.entry.first ∷ later) e) }
{
    let mut walk = Walk::begin(alloc, program, begin.number, LIMIT, begin.first)?;
    let mut rest = begin.later;
    let mut number = begin.number + 1;
    let mut near = *program;
    while let Some(packet) = next_packet(&mut rest) {
        near = near.near(walk.at);
        walk.follow(&near, number, packet)?;
        number += 1;
    }
    Ok(walk)
}

/// The path that packets tell of a program.
fn rebuild_program(
    alloc: Global,
    packets: Packets<'_>,
    program: &Program<'_>,
    from: u32,
) -> Result<Path, PathFault>
    requires { length (rest_of packets).bytes < 2 ^ 32 }
    ensures path { IfOk result (λ path. IsTracedPath (raw_by packets.entry program.now from) path.skipped path.steps) }
    ensures some { IfOk result (λ path. 0 < length path.steps) }
    ensures linked { IfOk result (λ path. AreLinked path.steps) }
    ensures ends { IfOk result (λ path. EndBefore path.steps (pc_of program.now.dump)) }
    ensures instructions { IfOk result (λ path. CarryCode (code_of program.now) path.steps) }
    ensures refusal { IfErr result (λ e. (e ≡ OutOfMemory) ⊎ IsUntraced (raw_by packets.entry program.now from) (number_of packets.entry) e) }

    // The bytes hold whole packets alone, or they begin with some and then have a fault.
    ensures whole { ((list : List Packet) × Hold (rest_of packets.entry) list) ⊎ ((list : List Packet) × (refused : TraceFault) × FailsAfter (number_of packets.entry) (rest_of packets.entry) list refused) }
{
    let survey = match go_through(packets, from) {
        Ok(survey) => survey,
        Err(fault) => return Err(PathFault::Packet(fault)),
    };
    let Some(begin) = survey.begin else {
        return Err(PathFault::NoStart(survey.count));
    };
    let mut walk = walk_over(alloc, program, begin)?;
    let pc = program.dump.status().pc;
    let otherwise = PathFault::End(walk.at, pc);
    walk.join(program, survey.count, pc, otherwise)?;
    Ok(Path {
        steps: walk.steps,
        skipped: begin.number,
    })
}

/// The path that packets tell of the program of a dump, where code is or isn't compressed.
fn rebuild_once(
    alloc: Global,
    packets: Packets<'_>,
    dump: &Dump<'_>,
    from: u32,
) -> Result<Path, PathFault>
    requires { length (rest_of packets).bytes < 2 ^ 32 }
    ensures path { IfOk result (λ path. IsTracedPath (raw_of packets.entry dump.now from) path.skipped path.steps) }
    ensures some { IfOk result (λ path. 0 < length path.steps) }
    ensures linked { IfOk result (λ path. AreLinked path.steps) }
    ensures ends { IfOk result (λ path. EndBefore path.steps (pc_of dump.now)) }
    ensures instructions { IfOk result (λ path. CarryCode (code_over packets.entry dump.now) path.steps) }
    ensures refusal { IfErr result (λ e. (e ≡ OutOfMemory) ⊎ IsRefusedBy packets.entry dump.now from e) }

    // The bytes hold whole packets alone, or they begin with some and then have a fault.
    ensures whole { ((list : List Packet) × Hold (rest_of packets.entry) list) ⊎ ((list : List Packet) × (refused : TraceFault) × FailsAfter (number_of packets.entry) (rest_of packets.entry) list refused) }
{
    let program = Program::new(dump, packets.halves());
    rebuild_program(alloc, packets, &program, from)
}

/// The path that a trace means: the steps from the first start packet whose number is `from` or
/// more and after which no packets were lost, to the dump's program counter (Efficient Trace for
/// RISC-V
/// 2.0, reference decoder; `docs/DESIGN.md` explains the rules). `packets` is as `Packets::open`
/// gave it, of fewer than 2^32 bytes; where its `halves` answers true, code may be compressed. A
/// `Packet` fault comes before any other; else the fault is the one that comes first along the
/// trace. `OutOfMemory` alone may come at any time. The memory that is taken grows with the steps,
/// and not with the packets.
pub fn rebuild(
    alloc: Global,
    packets: Packets<'_>,
    dump: &Dump<'_>,
    from: u32,
) -> Result<Path, PathFault>
    requires { length (rest_of packets).bytes < 2 ^ 32 }
    ensures path { IfOk result (λ path. IsTracedPath (raw_of packets.entry dump.now from) path.skipped path.steps) }
    ensures some { IfOk result (λ path. 0 < length path.steps) }
    ensures linked { IfOk result (λ path. AreLinked path.steps) }
    ensures ends { IfOk result (λ path. EndBefore path.steps (pc_of dump.now)) }
    ensures instructions { IfOk result (λ path. CarryCode (code_over packets.entry dump.now) path.steps) }
    ensures refusal { IfErr result (λ e. (e ≡ OutOfMemory) ⊎ IsRefusedBy packets.entry dump.now from e) }

    // The same by index: each packet has its stop on the path.
    ensures stops { IfOk result (λ path. HaveStops (raw_of packets.entry dump.now from) path.skipped path.steps) }

    // There is no other path, and no other refusal. Want of memory is none of the definition's.
    ensures only_path { (skipped : ℕ) (rows : List StepRow) → IsTracedPath (raw_of packets.entry dump.now from) skipped rows → MatchResult result (λ path. (path.skipped ≡ skipped) × (path.steps ≡ rows)) (λ e. e ≡ OutOfMemory) }
    ensures only_refusal { (fault : PathFault) → IsRefusedBy packets.entry dump.now from fault → MatchResult result (λ _. ⊥) (λ e. (e ≡ OutOfMemory) ⊎ (e ≡ fault)) }
    ensures other { (fault : PathFault) → IsRefusedBy packets.entry dump.now from fault → fault ≢ OutOfMemory }

    // There is a path or a refusal.
    ensures decided { ((skipped : ℕ) × (rows : List StepRow) × IsTracedPath (raw_of packets.entry dump.now from) skipped rows) ⊎ ((fault : PathFault) × IsRefusedBy packets.entry dump.now from fault) }
{
    rebuild_once(alloc, packets, dump, from)
}
