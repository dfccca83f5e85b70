//! The last time of a run's untraced prefix.

ghost use Rattle.std.specs.Prelude.{◌≡◌, ◌<◌, ◌^◌, List, length, map, IfOk, IfErr};
ghost use Rattle.std.specs.List.{sum_by};
ghost use Rattle.rept_trace.specs.declared.packet.Packet.{Packet};
ghost use Rattle.rept_steps.specs.declared.run.Run.{Run};
ghost use Rattle.rept_path.specs.declared.fault.PathFault.TheVariants.{OutOfMemory};
ghost use Rattle.rept_streams.specs.Runs.Ended.{HoldsPackets, IsEndedRun};

use crate::slices::ending::last_time;
use rept_path::PathFault;
use rept_steps::Run;
use rept_trace::Streams;
use std::alloc::Global;

/// A run of a trace of several streams, with the last time of its untraced prefix in the place of
/// the time at which that prefix ends. The last time is one tick of the trace's clock less where
/// one stream alone ends the prefix: at that time no window of another stream opens, no slice of
/// another one begins, and none of another one that is skipped ends. Else it is that time. All else
/// stays as it is, and so does a run without an untraced prefix. The definition is
/// `specs/Slices/Ending.antt`.
///
/// `trace` is the bytes of the trace, and `from` the number of the packet of each stream from which
/// on its window may begin. The one refusal is `OutOfMemory`, which lets go of the run.
pub fn end_untraced(alloc: Global, run: Run, trace: &[u8], from: u32) -> Result<Run, PathFault>
    requires few { length trace.now < 2 ^ 32 }
    requires packets { (lists : List (List Packet)) × HoldsPackets trace.now lists }
    ensures ok { IfOk result (IsEndedRun trace.now from run) }

    // There is no other such run.
    ensures only { (other : Run) → IsEndedRun trace.now from run other → IfOk result (λ ended. ended ≡ other) }
    ensures err { IfErr result (λ e. e ≡ OutOfMemory) }
{
    let Some(end) = run.untraced else {
        return Ok(run);
    };
    let streams = match Streams::open(trace) {
        Ok(streams) => streams,
        Err(_) => unreachable!(),
    };
    let last = last_time(alloc, &streams, from, end)?;
    Ok(Run {
        threads: run.threads,
        untraced: Some(last),
        skipped: run.skipped,
    })
}
