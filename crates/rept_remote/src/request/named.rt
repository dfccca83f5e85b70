//! Packets that are known by a word.

ghost use Rattle.std.specs.Prelude.{◌≡◌};
ghost use Rattle.rept_remote.specs.Request.Requests.{acted, acted_within, change_begun, move_begun, move_named, query_begun, query_named, thread_begun};

use crate::request::names::{acted_range, acted_thread, thread_after};
use crate::request::request::{CodeRange, GdbRequest, Movement, ThreadName};
use rept_word::is_word;

/// Packets that move.
pub fn move_named(packet: &[u8]) -> Option<GdbRequest>
    ensures { result ≡ move_named packet.now }
{
    if is_word(packet, b"s") {
        Some(GdbRequest::Move(Movement::Step, ThreadName::Selected))
    } else if is_word(packet, b"c") {
        Some(GdbRequest::Move(Movement::Continue, ThreadName::Selected))
    } else if is_word(packet, b"bs") {
        Some(GdbRequest::Move(Movement::StepBack, ThreadName::Selected))
    } else if is_word(packet, b"bc") {
        Some(GdbRequest::Move(Movement::ContinueBack, ThreadName::Selected))
    } else if is_word(packet, b"D") {
        Some(GdbRequest::Detach)
    } else if is_word(packet, b"k") {
        Some(GdbRequest::Kill)
    } else {
        None
    }
}

/// Packets that ask for something of what stands there.
pub fn query_named(packet: &[u8]) -> Option<GdbRequest>
    ensures { result ≡ query_named packet.now }
{
    if is_word(packet, b"?") {
        Some(GdbRequest::Reason)
    } else if is_word(packet, b"g") {
        Some(GdbRequest::Registers)
    } else if is_word(packet, b"qC") {
        Some(GdbRequest::Thread)
    } else if is_word(packet, b"qfThreadInfo") {
        Some(GdbRequest::Threads)
    } else if is_word(packet, b"qsThreadInfo") {
        Some(GdbRequest::MoreThreads)
    } else if is_word(packet, b"QStartNoAckMode") {
        Some(GdbRequest::NoAcknowledgments)
    } else if is_word(packet, b"vCont?") {
        Some(GdbRequest::Moves)
    } else if is_word(packet, b"qOffsets") {
        Some(GdbRequest::Offsets)
    } else {
        None
    }
}

/// A move that `vCont;` asks for.
fn acted(packet: &[u8], way: Movement) -> GdbRequest
    ensures { result ≡ acted packet.now way }
{
    GdbRequest::Move(way, acted_thread(packet))
}

/// A move out of the range that `vCont;r` names.
fn acted_within(packet: &[u8]) -> GdbRequest
    ensures { result ≡ acted_within packet.now }
{
    match acted_range(packet) {
        Some((first, end)) => acted(packet, Movement::StepWithin(CodeRange { first, end })),
        None => GdbRequest::Unknown,
    }
}

/// Packets that move, by how they begin.
pub fn move_begun(packet: &[u8]) -> Option<GdbRequest>
    ensures { result ≡ move_begun packet.now }
{
    if packet.starts_with(b"vCont;s") {
        Some(acted(packet, Movement::Step))
    } else if packet.starts_with(b"vCont;S") {
        Some(acted(packet, Movement::Step))
    } else if packet.starts_with(b"vCont;r") {
        Some(acted_within(packet))
    } else if packet.starts_with(b"vCont;c") {
        Some(acted(packet, Movement::Continue))
    } else if packet.starts_with(b"vCont;C") {
        Some(acted(packet, Movement::Continue))
    } else {
        None
    }
}

/// Packets that ask, by how they begin.
pub fn query_begun(packet: &[u8]) -> Option<GdbRequest>
    ensures { result ≡ query_begun packet.now }
{
    if packet.starts_with(b"qSupported") {
        Some(GdbRequest::Features)
    } else if packet.starts_with(b"qAttached") {
        Some(GdbRequest::Attached)
    } else if packet.starts_with(b"qThreadExtraInfo,") {
        Some(GdbRequest::ThreadText(thread_after(17, packet)))
    } else if packet.starts_with(b"qRcmd,") {
        Some(GdbRequest::Monitor)
    } else {
        None
    }
}

/// Packets that name a thread, by how they begin.
pub fn thread_begun(packet: &[u8]) -> Option<GdbRequest>
    ensures { result ≡ thread_begun packet.now }
{
    if packet.starts_with(b"Hg") {
        Some(GdbRequest::SelectThread(thread_after(2, packet)))
    } else if packet.starts_with(b"Hc") {
        Some(GdbRequest::SelectMoving(thread_after(2, packet)))
    } else if packet.starts_with(b"H") {
        Some(GdbRequest::SelectThread(ThreadName::Unreadable))
    } else if packet.starts_with(b"T") {
        Some(GdbRequest::IsAlive(thread_after(1, packet)))
    } else {
        None
    }
}

/// Packets that change, by how they begin.
pub fn change_begun(packet: &[u8]) -> Option<GdbRequest>
    ensures { result ≡ change_begun packet.now }
{
    if packet.starts_with(b"G") {
        Some(GdbRequest::Change)
    } else if packet.starts_with(b"P") {
        Some(GdbRequest::Change)
    } else if packet.starts_with(b"M") {
        Some(GdbRequest::Change)
    } else if packet.starts_with(b"X") {
        Some(GdbRequest::Change)
    } else {
        None
    }
}
