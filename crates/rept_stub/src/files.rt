//! What the files of a crash hold besides the report.

ghost use Rattle.std.specs.Prelude.{◌≡◌, ◌∷◌, [], IfOk};
ghost use Rattle.std.specs.List.{list_any};
ghost use Rattle.rept_elf.specs.Image.{segment_of, segments_of};
ghost use Rattle.rept_dump.specs.Memory.{kept_at, may_be_written};
ghost use Rattle.rept_findings.specs.Shown.{IsThreadPoint};
ghost use Rattle.rept_stub.specs.Files.{constant_byte, object_text, offsets_reply};

use crate::description::description;
use crate::pieces::push_big;
use rept_elf::{Image, PF_W, PT_LOAD, Segment};
use rept_findings::{Findings, ThreadPoint};
use rept_maps::Mapped;
use rept_remote::{TargetObject, last_point};
use rept_word::{OutOfMemory, Text};
use std::alloc::Global;

/// The files of a program.
#[derive(Clone, Copy)]
pub enum ProgramImages<'a> {
    /// its executable
    Executable(Image<'a>),
    /// the files that the process had mapped
    Mapped(Mapped<'a>),
}

/// What the files of a crash hold besides the report.
#[derive(Clone, Copy)]
pub struct ProcessFiles<'a> {
    /// the core file
    pub core: Image<'a>,
    /// the files of the program
    pub program: ProgramImages<'a>,
    /// the auxiliary vector by the core file, which has none where this is empty
    pub auxiliary_vector: &'a [u8],
    /// what the system told of the signal, by the core file, which has nothing where this is empty
    pub signal_info: &'a [u8],
    /// the address at which the first segment of the executable was loaded, where that isn't its
    /// own
    pub load_address: Option<u32>,
}

/// Whether a segment is part of memory that could be written, and has this address there.
fn is_written(segment: &Segment<'_>, a: u32) -> bool
    ensures { result ≡ may_be_written a (segment_of segment.now) }
{
    let end = u64::from(segment.vaddr) + u64::from(segment.memsz);
    segment.kind == PT_LOAD && segment.flags & PF_W != 0 && segment.vaddr <= a && u64::from(a) < end
}

/// Whether some segment of a core file is such a one.
fn may_be_written(core: &Image<'_>, a: u32) -> bool
    ensures { result ≡ list_any (may_be_written a) (segments_of core.now) }
{
    for i in 0..core.count() {
        if is_written(&core.segment(i), a) {
            return true;
        }
    }
    false
}

/// The byte at an address, where this segment can't be written and its file has it.
fn byte_in(segment: &Segment<'_>, a: u32) -> Option<u8>
    ensures { result ≡ kept_at (segment_of segment.now ∷ []) a }
{
    if segment.kind != PT_LOAD || segment.flags & PF_W != 0 || a < segment.vaddr {
        return None;
    }
    segment.body.get((a - segment.vaddr) as usize).copied()
}

/// The byte at an address: that of the first segment of an executable that can't be written and has
/// it.
fn kept_at(executable: &Image<'_>, a: u32) -> Option<u8>
    ensures { result ≡ kept_at (segments_of executable.now) a }
{
    for i in 0..executable.count() {
        match byte_in(&executable.segment(i), a) {
            Some(byte) => return Some(byte),
            None => {}
        }
    }
    None
}

/// The byte at an address that the files of the program hold, in a segment that can't be written.
/// None where the core file has the address in memory that could be written.
pub fn constant_byte(files: &ProcessFiles<'_>, a: u32) -> Option<u8>
    ensures { result ≡ constant_byte files.now a }
{
    if may_be_written(&files.core, a) {
        return None;
    }
    match &files.program {
        ProgramImages::Executable(image) => kept_at(image, a),
        ProgramImages::Mapped(mapped) => mapped.byte(a),
    }
}

/// Where the executable was loaded; nothing, where that is where it says.
pub fn offsets(alloc: Global, load_address: Option<u32>) -> Result<Text, OutOfMemory>
    ensures { IfOk result (λ text. text ≡ offsets_reply load_address) }
{
    let mut text = Text::new(alloc);
    if let Some(address) = load_address {
        text.push(b"TextSeg=")?;
        push_big(&mut text, address)?;
    }
    Ok(text)
}

/// The text of which a part is asked at a point of a thread. What is told of the signal is told at
/// the crash alone: at the last point of the thread that crashed.
pub fn object_text<'a, F: Findings>(
    findings: &F,
    files: &ProcessFiles<'a>,
    at: ThreadPoint,
    object: TargetObject,
) -> &'a [u8]
    requires { IsThreadPoint (F.shown findings.now) at }
    ensures { result.now ≡ object_text (F.shown findings.now) files.now at object }
{
    match object {
        TargetObject::Description => description(),
        TargetObject::AuxiliaryVector => files.auxiliary_vector,
        TargetObject::SignalInfo => {
            if at.thread == 0 && at.point == last_point(findings, at.thread) {
                files.signal_info
            } else {
                b""
            }
        }
    }
}
