//! The path that a trace file of one stream tells.

ghost use Rattle.std.specs.Prelude.{◌≡◌, ◌≢◌, ◌⊎◌, ◌<◌, ◌^◌, [], ◌∷◌, length, IfOk, IfErr, MatchResult};
ghost use Rattle.rept_dump.specs.Dump.{registers_of};
ghost use Rattle.rept_path.specs.declared.fault.PathFault.{PathFault};
ghost use Rattle.rept_path.specs.declared.fault.PathFault.TheVariants.{OutOfMemory};
ghost use Rattle.rept_path.specs.declared.rebuilding.Path.{Path};
ghost use Rattle.rept_found.specs.Crash.{crash_of};
ghost use Rattle.rept_opening.specs.Path.{IsTracePath, HasNoPath};

use rept_dump::Dump;
use rept_path::{Path, PathFault, rebuild};
use rept_trace::Packets;
use std::alloc::Global;

/// The path that a trace file tells of the program of a dump, from the packet of this number on.
pub fn trace_path(
    alloc: Global,
    trace: &[u8],
    dump: &Dump<'_>,
    from: u32,
) -> Result<Path, PathFault>
    requires { length trace.now < 2 ^ 32 }
    ensures path { IfOk result (IsTracePath (crash_of dump.now (registers_of dump.now ∷ [])) trace.now from) }
    ensures refusal { IfErr result (λ e. (e ≡ OutOfMemory) ⊎ HasNoPath (crash_of dump.now (registers_of dump.now ∷ [])) trace.now from e) }

    // There is no other path, and no other refusal. Want of memory is none of the definition's.
    ensures only_path { (other : Path) → IsTracePath (crash_of dump.now (registers_of dump.now ∷ [])) trace.now from other → MatchResult result (λ path. path ≡ other) (λ e. e ≡ OutOfMemory) }
    ensures only_refusal { (fault : PathFault) → HasNoPath (crash_of dump.now (registers_of dump.now ∷ [])) trace.now from fault → MatchResult result (λ _. ⊥) (λ e. (e ≡ OutOfMemory) ⊎ (e ≡ fault)) }
    ensures other { (fault : PathFault) → HasNoPath (crash_of dump.now (registers_of dump.now ∷ [])) trace.now from fault → fault ≢ OutOfMemory }
{
    match Packets::open(trace) {
        Ok(packets) => rebuild(alloc, packets, dump, from),
        Err(fault) => Err(PathFault::Packet(fault)),
    }
}
