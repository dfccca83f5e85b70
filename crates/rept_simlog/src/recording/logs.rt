//! Logs of one hart, of several, and qemu's.

ghost use Rattle.std.specs.Prelude.{◌<◌, ◌^◌, length, IfOk, IfErr};
ghost use Rattle.rept_simlog.specs.Recorded.{IsRecordedOneHart, IsRefusedOneHart};
ghost use Rattle.rept_simlog.specs.Recording.Logs.{IsRecordedLog, IsRefusedLog};
ghost use Rattle.rept_simlog.specs.Recording.Qemu.{plain_log};

use crate::SimLogRefusal;
use crate::hartlog::names_harts;
use crate::recording::qemu::{is_step_line, plain_log};
use rept_word::Text;
use std::alloc::Global;
use thiserror::Error;

/// Why a log isn't recorded.
#[derive(Clone, Copy, Debug, Error)]
pub enum LogRefusal {
    /// The log is one of one hart.
    #[error("{0}")]
    OneHart(SimLogRefusal),
    /// The log is qemu's. Its lines are numbered as the steps that it tells, from 1 on.
    #[error("{0}; line N of qemu's log is its step N, of one instruction: -singlestep -d exec,nochain")]
    Qemu(SimLogRefusal),
    /// The log is one of several harts.
    #[error("{0}")]
    SeveralHarts(crate::hartlog::HartLogRefusal),
}

/// The trace of a log over an executable. The log is qemu's where it begins with `Trace `, else one
/// of several harts where its first line has a space, and else one of one hart.
pub fn record(alloc: Global, exe: &[u8], log: &[u8]) -> Result<Text, LogRefusal>
    requires { length log.now < 2 ^ 32 }
    ensures ok { IfOk result (λ trace. IsRecordedLog exe.now log.now trace) }
    ensures err { IfErr result (λ refusal. IsRefusedLog exe.now log.now refusal) }
{
    if is_step_line(log) {
        return match record_qemu(alloc, exe, log) {
            Ok(trace) => Ok(trace),
            Err(refusal) => Err(LogRefusal::Qemu(refusal)),
        };
    }
    if names_harts(log) {
        return match crate::hartlog::record(alloc, exe, log) {
            Ok(trace) => Ok(trace),
            Err(refusal) => Err(LogRefusal::SeveralHarts(refusal)),
        };
    }
    match crate::record(alloc, exe, log) {
        Ok(trace) => Ok(trace),
        Err(refusal) => Err(LogRefusal::OneHart(refusal)),
    }
}

/// The trace of qemu's log over an executable.
fn record_qemu(alloc: Global, exe: &[u8], log: &[u8]) -> Result<Text, SimLogRefusal>
    requires { length log.now < 2 ^ 32 }
    ensures ok { IfOk result (λ trace. IsRecordedOneHart exe.now (plain_log log.now) trace) }
    ensures err { IfErr result (λ refusal. IsRefusedOneHart exe.now (plain_log log.now) refusal) }
{
    match plain_log(alloc, log) {
        Ok(plain) => crate::record(alloc, exe, plain.as_slice()),
        Err(_) => Err(SimLogRefusal::OutOfMemory),
    }
}
