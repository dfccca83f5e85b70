//! A trace file of several streams.

ghost use Rattle.std.specs.Prelude.{◌≡◌, ◌<◌, List, ℕ, length, slice_get, IfOk, IfErr, IfSome, IfNone, MatchOption, Some};
ghost use Rattle.rept_trace.specs.Streams.{IsStreamThen, AreStreamsThen, IsStreamCut, IsCutAfter, OpensStreams};

use crate::fault::TraceFault;
use crate::header::{SEVERAL, read_header};
use crate::packets::Packets;
use byteorder::{ByteOrder, LittleEndian};
use std::marker::Model;

/// The bytes of a stream's length.
const LENGTH: usize = 4;

/// A trace file of several streams of packets, one of each hart, that are all in the file whole.
/// Streams are numbered from 0. Contracts see the list of the streams, each as its bytes, and
/// whether code may be compressed.
#[derive(Drop)]
pub struct Streams<'a> {
    count: u32,
    halves: bool,
    rest: &'a [u8],
}

impl<'a> Model for Streams<'a> {
    ghost use Rattle.std.specs.Prelude.{[]};
    ghost use Rattle.rept_trace.specs.Opened.{streams_in};
    ghost use Rattle.rept_trace.specs.Streams.{StreamFile, AreStreamsThen};

    ghost Value = { StreamFile };

    ghost view = { λ s. record { halves = s.halves; streams = streams_in s.count s.rest.now } };

    ghost invariant = { λ s. AreStreamsThen s.rest.now (streams_in s.count s.rest.now) [] };
}

impl<'a> Streams<'a> {
    ghost use Rattle.std.specs.Prelude.{◌≡◌, ◌<◌, length, slice_get, Some, Result};
    ghost use Rattle.rept_trace.specs.declared.fault.TraceFault.{TraceFault};
    ghost use Rattle.rept_trace.specs.Grammar.{timed};
    ghost use Rattle.rept_trace.specs.Packets.{rest_of, number_of};
    ghost use Rattle.rept_trace.specs.Streams.{StreamFile, OpensStreams};

    /// The streams of a trace file. The file begins with `RTR2`, the count of its streams, 1 to 64,
    /// 1 where code may be compressed or else 0, and two zero bytes, and then has, for each stream,
    /// its length in 32 bits and so many bytes of packets. The refusals are, in this order,
    /// `BadMagic`, `BadHeader`, `StreamPastEnd` of the first stream that isn't whole, and `Rest`.
    /// The packets aren't looked at: a stream of no bytes is a stream. No memory is taken.
    pub fn open(bytes: &'a [u8]) -> Result<Streams<'a>, TraceFault>
        ensures opens { OpensStreams bytes.now result }

        // The bytes are nothing else.
        ensures only { (found : Result StreamFile TraceFault) → OpensStreams bytes.now found → result ≡ found }
    {
        find_streams(bytes)
    }

    /// How many streams there are, 1 to 64.
    pub fn count(&self) -> u32
        ensures { result ≡ length self.now.streams }
    {
        self.count
    }

    /// The packets of the stream of this number, from its first on, with their times and contexts.
    /// `halves` of each answers the same: whether byte 5 of the header is 1.
    pub fn packets(&self, s: u32) -> Packets<'a>
        requires { s < length self.now.streams }
        ensures bytes { slice_get self.now.streams s ≡ Some (rest_of result).bytes }
        ensures widths { (rest_of result).widths ≡ timed self.now.halves }
        ensures first { number_of result ≡ 0 }
    {
        match stream_at(self.rest, s) {
            Some(stream) => Packets::timed(stream, self.halves),
            None => unreachable!(),
        }
    }
}

/// The streams of a trace file.
fn find_streams(bytes: &[u8]) -> Result<Streams<'_>, TraceFault>
    ensures { OpensStreams bytes.now result }
{
    let (heading, rest) = read_header(SEVERAL, bytes)?;
    let count = heading.count;
    let end = after_streams(rest, count)?;
    if end.is_empty() {
        return Ok(Streams {
            count,
            halves: heading.halves,
            rest,
        });
    }
    Err(TraceFault::Rest((bytes.len() - end.len()) as u64))
}

/// The stream that begins these bytes, and the bytes after it. None where it isn't whole.
fn split_stream(bytes: &[u8]) -> Option<(&[u8], &[u8])>
    ensures some { IfSome result (λ parts. IsStreamThen bytes.now parts.0.now parts.1.now) }
    ensures none { IfNone result (IsStreamCut bytes.now) }
{
    if bytes.len() < LENGTH {
        return None;
    }
    let size = LittleEndian::read_u32(bytes) as usize;
    let rest = &bytes[LENGTH..];
    if rest.len() < size {
        return None;
    }
    Some(rest.split_at(size))
}

/// The bytes after so many streams. The fault is `StreamPastEnd` of the first that isn't whole.
fn after_streams(bytes: &[u8], count: u32) -> Result<&[u8], TraceFault>
    ensures ok { IfOk result (λ rest. (streams : List (List ℕ)) × (length streams ≡ count) × AreStreamsThen bytes.now streams rest.now) }
    ensures err { IfErr result (λ fault. (s : ℕ) × (fault ≡ TraceFault.StreamPastEnd s) × (s < count) × IsCutAfter bytes.now s) }
{
    let mut rest = bytes;
    for s in 0..count {
        let Some((_, after)) = split_stream(rest) else {
            return Err(TraceFault::StreamPastEnd(s));
        };
        rest = after;
    }
    Ok(rest)
}

/// The stream of this number. None where it, or one before it, isn't whole.
fn stream_at(bytes: &[u8], s: u32) -> Option<&[u8]>
    ensures { (streams : List (List ℕ)) (rest : List ℕ) → AreStreamsThen bytes.now streams rest → s < length streams →
        MatchOption result ⊥ (λ stream. slice_get streams s ≡ Some stream.now) }
{
    let Ok(rest) = after_streams(bytes, s) else {
        return None;
    };
    match split_stream(rest) {
        Some((stream, _)) => Some(stream),
        None => None,
    }
}
