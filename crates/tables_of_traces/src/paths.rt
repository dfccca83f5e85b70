//! Paths over a program, and where the walk of a stretch ends.

ghost use Rattle.std.specs.Prelude.{◌<◌, ◌^◌, length};
ghost use Rattle.rept_trace.specs.Packets.{rest_of};

use crate::files::Files;
use crate::rows;
use rept_dump::Dump;
use rept_path::program::Program;
use rept_path::window::go_through;
use rept_path::{Path, PathFault, rebuild};
use rept_steps::LIMIT;
use rept_streams::threads::stretch::walk_stretch;
use rept_trace::Packets;
use std::alloc::{AllocError, Global};
use test_kit::Numbers;

/// The path whose start packet is not before a number, or the walk of the first stretch; or the
/// fault.
pub fn answer(
    alloc: Global,
    asked: &str,
    files: &Files,
    trace: &[u8],
    n: &Numbers,
) -> Result<String, AllocError>
    requires { length trace.now < 2 ^ 32 }
{
    let Some(Ok(dump)) = files.dump(false) else {
        return String::from_str(alloc, "no dump");
    };
    match Packets::open(trace) {
        Err(fault) => format!(in alloc; "{:?}", PathFault::Packet(fault)),
        Ok(packets) if asked == "path" => path(alloc, packets, &dump, n),
        Ok(packets) => walk(alloc, packets, &dump),
    }
}

fn path(
    alloc: Global,
    packets: Packets<'_>,
    dump: &Dump<'_>,
    n: &Numbers,
) -> Result<String, AllocError>
    requires { length (rest_of packets).bytes < 2 ^ 32 }
{
    match rebuild(alloc, packets, dump, n.word(0)) {
        Err(fault) => format!(in alloc; "{fault:?}"),
        Ok(path) => told(alloc, &path, n),
    }
}

/// How many packets are skipped, and the steps, whole or with rounds of so many steps after so many
/// others.
fn told(alloc: Global, path: &Path, n: &Numbers) -> Result<String, AllocError> {
    let (skipped, steps) = (path.skipped, path.steps.rows());
    let (round, before) = (n.word(1) as usize, n.word(2) as usize);
    if round == 0 {
        let rows = rows::told(alloc, steps)?;
        return format!(in alloc; "{skipped} skipped, {:?}", rows.as_slice());
    }
    let rounds = rows::rounds(alloc, steps, before.wrapping_add(round), round)?;
    format!(in alloc; "{skipped} skipped, {rounds}")
}

/// How many steps the walk of the first stretch has, where it ends, and whether the end of the
/// trace is waited for.
fn walked(
    alloc: Global,
    packets: Packets<'_>,
    dump: &Dump<'_>,
) -> Result<Option<(u32, u32, bool)>, PathFault>
    requires { length (rest_of packets).bytes < 2 ^ 32 }
{
    let Ok(survey) = go_through(packets, 0) else {
        return Ok(None);
    };
    let Some(begin) = survey.begin else {
        return Ok(None);
    };
    let program = Program::new(dump, packets.halves());
    let walk = walk_stretch(alloc, &program, LIMIT, begin)?.walk;
    Ok(Some((walk.steps.len(), walk.at, walk.waiting)))
}

fn walk(alloc: Global, packets: Packets<'_>, dump: &Dump<'_>) -> Result<String, AllocError>
    requires { length (rest_of packets).bytes < 2 ^ 32 }
{
    let walked = walked(alloc, packets, dump);
    format!(in alloc; "{walked:?}")
}
