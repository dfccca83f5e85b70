//! Lines of a session: what they are, and their answers.

use crate::fixed::two_steps;
use rept_findings::{Findings, KnownBeyond, PremisesTaken, ThreadPoint};
use rept_ports::{MemSink, MemSource};
use rept_session::{Answer, answer_line, serve};
use std::alloc::{AllocError, Global};
use test_kit::Numbers;

/// The answer to a line at a point of the two steps, where such bits are known of each register, and
/// then also seven values and six bytes beyond the report.
fn asked(
    alloc: Global,
    note: Option<(u32, u32)>,
    point: u32,
    line: &str,
) -> Result<Answer, AllocError> {
    let mut findings = two_steps();
    findings.note = note;
    if note.is_some() {
        findings.beyond = Some(KnownBeyond {
            registers: 7,
            bytes: 6,
            premises: PremisesTaken {
                read_only: true,
                answers: false,
                first_memory: true,
                fresh_pages: true,
            },
        });
    }
    let cursor = ThreadPoint {
        thread: 0,
        point: point.min(2),
    };
    answer_line(alloc, &findings, 7, cursor, line.as_bytes())
}

/// The point of the two steps after a line at one of them, whether the session ends there, and the
/// answer: `POINT LINE`, where such bits are known of each register.
pub fn at(
    alloc: Global,
    note: Option<(u32, u32)>,
    said: &str,
    n: &Numbers,
) -> Result<String, AllocError> {
    let (_, line) = said.split_once(' ').unwrap_or((said, ""));
    let answer = asked(alloc, note, n.word(0), line)?;
    let bytes = answer.text.bytes();
    format!(in alloc;
        "at {}, ends {}, {} bytes\n{}",
        answer.cursor.point,
        answer.quit,
        bytes.len(),
        String::from_utf8_lossy(alloc, bytes)?
    )
}

/// How a session ends whose read with the first number fails and whose write with the second one
/// does, and what it writes.
pub fn served<F: Findings>(
    alloc: Global,
    findings: &F,
    input: &[u8],
    n: &Numbers,
) -> Result<String, AllocError> {
    let (mut source, mut sink) = ports(alloc, input, n.word(0), n.word(1))?;
    let served = serve(alloc, findings, 3, &mut source, &mut sink);
    let bytes = sink.bytes();
    format!(in alloc;
        "{served:?}, {} bytes\n{}",
        bytes.len(),
        String::from_utf8_lossy(alloc, bytes)?
    )
}

/// An input whose read with a number fails, and a sink with room for 4000 bytes whose write with a
/// number fails; none for 0.
pub fn ports(
    alloc: Global,
    input: &[u8],
    read: u32,
    write: u32,
) -> Result<(MemSource<'_>, MemSink), AllocError> {
    let source = MemSource::new(alloc, input, &[u64::from(read)])?;
    let sink = MemSink::new(alloc, 4000, &[u64::from(write)])?;
    Ok((source, sink))
}
