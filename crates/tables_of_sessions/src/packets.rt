//! Packets of a debugger, and dialogs of them.

use crate::lines::ports;
use rept_debug::converse;
use rept_elf::{Image, Want};
use rept_findings::Findings;
use rept_ports::MemSource;
use rept_remote::{Arrival, GdbPackets, push_packet};
use rept_stub::{ProcessFiles, ProgramImages, Setting};
use rept_word::Text;
use std::alloc::{AllocError, Global};
use test_kit::Numbers;
use test_kit::lines::files::{core_of_threads, executable};

/// The packet of a text after the one of `OK`.
pub fn framed(alloc: Global, text: &[u8]) -> Result<String, AllocError> {
    let mut packets = Text::new(alloc);
    push_packet(alloc, &mut packets, b"OK")?;
    push_packet(alloc, &mut packets, text)?;
    format!(in alloc; "{:?}", String::from_utf8_lossy(alloc, packets.bytes())?)
}

/// The arrival of an input with the first number, from 1 on, where the read with the second one
/// fails: a packet with the bytes that it carries.
pub fn arrival(alloc: Global, input: &[u8], n: &Numbers) -> Result<String, AllocError> {
    let mut source = MemSource::new(alloc, input, &[u64::from(n.word(1))])?;
    let mut packets = GdbPackets::new();
    let mut last = packets.next(&mut source);
    for _ in 1..n.word(0) {
        last = packets.next(&mut source);
    }
    match last {
        Ok(Arrival::Packet) => {
            let carried = String::from_utf8_lossy(alloc, packets.carried())?;
            format!(in alloc; "packet {carried}")
        }
        _ => format!(in alloc; "{last:?}"),
    }
}

/// Appends the packet of a text to an input.
pub fn push(alloc: Global, input: &mut Vec<u8>, text: &[u8]) -> Result<(), AllocError> {
    let mut packet = Text::new(alloc);
    push_packet(alloc, &mut packet, text)?;
    input.extend_from_slice(packet.bytes())
}

/// What a dialog whose write with this number fails writes, and how it ends: of a crash whose
/// executable has two instructions at 0x30000, and was loaded at 0x957fb000, and whose core file has
/// an auxiliary vector `auxv` and tells `signal` of the signal.
pub fn dialog<F: Findings>(
    alloc: Global,
    findings: &F,
    input: &[u8],
    fail: u32,
) -> Result<String, AllocError> {
    let core = core_of_threads(alloc, &[(1, 0x10000)])?;
    let program = executable(alloc, 0x30000, &[0x2013, 0x6b])?;
    let (Ok(core), Ok(program)) = (
        Image::read(core.as_slice(), Want::Core),
        Image::read(program.as_slice(), Want::Exec),
    ) else {
        return Err(AllocError);
    };
    let files = ProcessFiles {
        core,
        program: ProgramImages::Executable(program),
        auxiliary_vector: b"auxv",
        signal_info: b"signal",
        load_address: Some(0x957f_b000),
    };
    let setting = Setting {
        skipped: 0,
        signal: 11,
        files,
    };
    let (mut source, mut sink) = ports(alloc, input, 0, fail)?;
    let ended = converse(alloc, findings, setting, &mut source, &mut sink);
    format!(in alloc;
        "{} {ended:?}",
        String::from_utf8_lossy(alloc, sink.bytes())?
    )
}

/// What a dialog writes after its last acknowledgment, and how it ends.
pub fn reply<F: Findings>(alloc: Global, findings: &F, input: &[u8]) -> Result<String, AllocError> {
    let told = dialog(alloc, findings, input, 0)?;
    match told.as_str().rsplit_once('+') {
        None => String::from_str(alloc, told.as_str()),
        Some((_, last)) => String::from_str(alloc, last),
    }
}
