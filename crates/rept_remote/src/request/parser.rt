//! Reading a packet as a request.

ghost use Rattle.std.specs.Prelude.{◌≡◌, ℕ, drop};
ghost use Rattle.rept_word.specs.Parsing.Numbers.{hexadecimal_of};
ghost use Rattle.rept_remote.specs.Request.Numbers.{pair_of};
ghost use Rattle.rept_remote.specs.Request.Requests.{lettered, name_length, named, numbered, numbered_or_part, request_of, request_at, object_of, with_number, with_pair, with_spot};

use crate::request::named::{
    change_begun, move_begun, move_named, query_begun, query_named, thread_begun,
};
use crate::request::numbers::pair_of;
use crate::request::request::{GdbRequest, TargetObject, WatchKind};
use rept_word::hexadecimal;

/// What a packet asks for. Each packet asks for something; what isn't known is `Unknown`.
pub fn parse(packet: &[u8]) -> GdbRequest
    ensures { result ≡ request_of packet.now }
{
    match named(packet) {
        Some(request) => request,
        None => numbered_or_part(packet),
    }
}

/// A packet that is known by a word.
fn named(packet: &[u8]) -> Option<GdbRequest>
    ensures { result ≡ named packet.now }
{
    if let Some(request) = move_named(packet) {
        return Some(request);
    }
    if let Some(request) = query_named(packet) {
        return Some(request);
    }
    if let Some(request) = move_begun(packet) {
        return Some(request);
    }
    if let Some(request) = query_begun(packet) {
        return Some(request);
    }
    if let Some(request) = thread_begun(packet) {
        return Some(request);
    }
    change_begun(packet)
}

/// A packet with numbers in it, or one that asks for a part of a text.
fn numbered_or_part(packet: &[u8]) -> GdbRequest
    ensures { result ≡ numbered_or_part packet.now }
{
    match object_of(packet) {
        Some(object) => part_of(object, after(packet, name_length(object))),
        None => lettered(packet),
    }
}

/// How many bytes name a text of which a part is asked.
fn name_length(object: TargetObject) -> usize
    ensures { result ≡ name_length object }
{
    match object {
        TargetObject::Description => 31,
        TargetObject::AuxiliaryVector => 17,
        TargetObject::SignalInfo => 20,
    }
}

/// The text of which a packet asks for a part, by how it begins.
fn object_of(packet: &[u8]) -> Option<TargetObject>
    ensures { result ≡ object_of packet.now }
{
    if packet.starts_with(b"qXfer:features:read:target.xml:") {
        Some(TargetObject::Description)
    } else if packet.starts_with(b"qXfer:auxv:read::") {
        Some(TargetObject::AuxiliaryVector)
    } else if packet.starts_with(b"qXfer:siginfo:read::") {
        Some(TargetObject::SignalInfo)
    } else {
        None
    }
}

/// What comes after so many bytes of a packet.
fn after(packet: &[u8], count: usize) -> &[u8]
    ensures { result.now ≡ drop count packet.now }
{
    let start = packet.len().min(count);
    &packet[start..]
}

/// A request for a part of a text, by what comes after its name.
fn part_of(object: TargetObject, rest: &[u8]) -> GdbRequest
    ensures { result ≡ with_pair (GdbRequest.Part object) (pair_of rest.now) }
{
    match pair_of(rest) {
        Some((offset, length)) => GdbRequest::Part(object, offset, length),
        None => GdbRequest::Unknown,
    }
}

fn lettered(packet: &[u8]) -> GdbRequest
    ensures { result ≡ lettered packet.now }
{
    match packet.split_first() {
        Some((letter, rest)) => numbered(*letter, rest),
        None => GdbRequest::Unknown,
    }
}

/// A packet with numbers in it, by its first byte.
fn numbered(letter: u8, rest: &[u8]) -> GdbRequest
    ensures { result ≡ numbered letter rest.now }
{
    match letter {
        b'p' => register_of(rest),
        b'm' => match pair_of(rest) {
            Some((address, length)) => GdbRequest::Memory(address, length),
            None => GdbRequest::Unknown,
        },
        b'x' => match pair_of(rest) {
            Some((address, length)) => GdbRequest::Bytes(address, length),
            None => GdbRequest::Unknown,
        },
        b'Z' => spot_set(rest),
        b'z' => spot_taken(rest),
        _ => GdbRequest::Unknown,
    }
}

fn register_of(rest: &[u8]) -> GdbRequest
    ensures { result ≡ with_number GdbRequest.Register (hexadecimal_of rest.now) }
{
    match hexadecimal(rest) {
        Some(number) => GdbRequest::Register(number),
        None => GdbRequest::Unknown,
    }
}

/// What is set, by what comes after `Z`.
fn spot_set(rest: &[u8]) -> GdbRequest
    ensures { result ≡ with_spot GdbRequest.Break GdbRequest.Watch rest.now }
{
    match spot_of(rest) {
        Some(BreakOrWatch::Code(address)) => GdbRequest::Break(address),
        Some(BreakOrWatch::Bytes(kind, address, length)) => GdbRequest::Watch(
            kind, address, length,
        ),
        None => GdbRequest::Unknown,
    }
}

/// What is taken away, by what comes after `z`.
fn spot_taken(rest: &[u8]) -> GdbRequest
    ensures { result ≡ with_spot GdbRequest.Unbreak GdbRequest.Unwatch rest.now }
{
    match spot_of(rest) {
        Some(BreakOrWatch::Code(address)) => GdbRequest::Unbreak(address),
        Some(BreakOrWatch::Bytes(kind, address, length)) => GdbRequest::Unwatch(
            kind, address, length,
        ),
        None => GdbRequest::Unknown,
    }
}

/// A breakpoint, or bytes whose writes are watched.
#[derive(Clone, Copy)]
enum BreakOrWatch {
    Code(u32),
    Bytes(WatchKind, u32, u32),
}

/// The breakpoint or watchpoint of what comes after `Z` or `z`.
fn spot_of(rest: &[u8]) -> Option<BreakOrWatch>
    ensures { (code : ℕ → GdbRequest) (watched : WatchKind → ℕ → ℕ → GdbRequest) → with_spot code watched rest.now ≡ request_at code watched result }
{
    if rest.starts_with(b"0,") || rest.starts_with(b"1,") {
        let (address, _kind) = pair_of(&rest[2..])?;
        return Some(BreakOrWatch::Code(address));
    }
    if rest.starts_with(b"2,") {
        let (address, length) = pair_of(&rest[2..])?;
        return Some(BreakOrWatch::Bytes(WatchKind::Writes, address, length));
    }
    if rest.starts_with(b"4,") {
        let (address, length) = pair_of(&rest[2..])?;
        return Some(BreakOrWatch::Bytes(WatchKind::Accesses, address, length));
    }
    None
}
