//! The line that says why a trace has no path.

ghost use Rattle.std.specs.Prelude.{◌≡◌, ◌++◌, OnOk, codes};
ghost use Rattle.std.specs.Fmt.{decimal};
ghost use Rattle.rept_word.specs.Hex.{hex_word};
ghost use Rattle.rept_opening.specs.Lines.{path_fault_text, trace_fault_text};

use crate::texts::{push_numbered, push_placed};
use rept_path::PathFault;
use rept_trace::TraceFault;
use rept_word::{OutOfMemory, Text};

/// `path`, and the number of the reason why a trace has no path with its arguments.
pub fn push_path_fault(text: &mut Text, fault: &PathFault) -> Result<(), OutOfMemory>
    ensures { OnOk result (text.new ≡ text.old ++ path_fault_text fault.now) }
{
    match fault {
        PathFault::NoStart(k) => push_numbered(text, b"path 1 ", u64::from(*k)),
        PathFault::NotCode(a) => push_placed(text, b"path 2 ", *a),
        PathFault::NotRv32im(a, word) => push_two_places(text, b"path 3 ", *a, *word),
        PathFault::Unaligned(a) => push_placed(text, b"path 4 ", *a),
        PathFault::NoBranchBit(k, a) => push_packet(text, b"path 5 ", *k, *a),
        PathFault::BranchesLeft(k, count) => push_two_numbers(text, b"path 6 ", *k, *count),
        PathFault::JumpInMap(k, a) => push_packet(text, b"path 7 ", *k, *a),
        PathFault::Gap(k, last, start) => push_gap(text, b"path 8 ", *k, *last, *start),
        PathFault::End(last, pc) => push_two_places(text, b"path 9 ", *last, *pc),
        PathFault::TooLong(k) => push_numbered(text, b"path 10 ", u64::from(*k)),
        PathFault::Packet(fault) => push_trace_fault(text, fault),
        PathFault::Trapped(k, a) => push_packet(text, b"path 12 ", *k, *a),
        PathFault::OutOfMemory => text.push(b"out-of-memory"),
        PathFault::TimeBack(k) => push_numbered(text, b"path 14 ", u64::from(*k)),
        PathFault::SliceOverlap(process, time) => push_process(text, b"path 15 ", *process, *time),
        PathFault::UnknownThread(k, process) => push_two_numbers(text, b"path 16 ", *k, *process),
        PathFault::OtherThread(k, process) => push_two_numbers(text, b"path 17 ", *k, *process),
    }
}

/// Words, a packet's number and an address.
fn push_packet(text: &mut Text, words: &[u8], k: u32, a: u32) -> Result<(), OutOfMemory>
    ensures { OnOk result (text.new ≡ text.old ++ (words.now ++ decimal k ++ codes " " ++ hex_word a)) }
{
    push_numbered(text, words, u64::from(k))?;
    push_placed(text, b" ", a)?;
    Ok(())
}

/// Words and two addresses, or an address and the word of code there.
fn push_two_places(text: &mut Text, words: &[u8], a: u32, b: u32) -> Result<(), OutOfMemory>
    ensures { OnOk result (text.new ≡ text.old ++ (words.now ++ hex_word a ++ codes " " ++ hex_word b)) }
{
    push_placed(text, words, a)?;
    push_placed(text, b" ", b)?;
    Ok(())
}

/// Words, a process and a time.
fn push_process(text: &mut Text, words: &[u8], process: u32, time: u64) -> Result<(), OutOfMemory>
    ensures { OnOk result (text.new ≡ text.old ++ (words.now ++ decimal process ++ codes " " ++ decimal time)) }
{
    push_numbered(text, words, u64::from(process))?;
    push_numbered(text, b" ", time)?;
    Ok(())
}

/// Words, a packet's number, and a count or a process.
fn push_two_numbers(text: &mut Text, words: &[u8], k: u32, count: u32) -> Result<(), OutOfMemory>
    ensures { OnOk result (text.new ≡ text.old ++ (words.now ++ decimal k ++ codes " " ++ decimal count)) }
{
    push_numbered(text, words, u64::from(k))?;
    push_numbered(text, b" ", u64::from(count))?;
    Ok(())
}

/// Words, a start packet's number, the last address before it, and its own.
fn push_gap(text: &mut Text, words: &[u8], k: u32, last: u32, start: u32) -> Result<(), OutOfMemory>
    ensures { OnOk result (text.new ≡ text.old ++ (words.now ++ decimal k ++ codes " " ++ hex_word last ++ codes " " ++ hex_word start)) }
{
    push_numbered(text, words, u64::from(k))?;
    push_two_places(text, b" ", last, start)?;
    Ok(())
}

/// The number of a fault of the trace's bytes, with its argument.
fn push_trace_fault(text: &mut Text, fault: &TraceFault) -> Result<(), OutOfMemory>
    ensures { OnOk result (text.new ≡ text.old ++ (codes "path 11 " ++ trace_fault_text fault.now)) }
{
    text.push(b"path 11 ")?;
    match fault {
        TraceFault::BadMagic => text.push(b"1"),
        TraceFault::BadHeader(i) => push_numbered(text, b"2 ", u64::from(*i)),
        TraceFault::Truncated(k) => push_numbered(text, b"3 ", *k),
        TraceFault::Optional(k) => push_numbered(text, b"4 ", *k),
        TraceFault::Trap(k) => push_numbered(text, b"5 ", *k),
        TraceFault::BadSupport(k) => push_numbered(text, b"6 ", *k),
        TraceFault::StreamPastEnd(s) => push_numbered(text, b"7 ", u64::from(*s)),
        TraceFault::Rest(offset) => push_numbered(text, b"8 ", *offset),
    }
}
