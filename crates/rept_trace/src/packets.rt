//! The packets of a trace file, one after the other.

ghost use Rattle.std.specs.Prelude.{◌≡◌, ◌⊎◌, ◌<◌, ◌≤◌, ◌+◌, ◌^◌, List, ◌∷◌, ℕ, length};
ghost use Rattle.rept_trace.specs.Stream.{AreAfterZeros};

use crate::fault::TraceFault;
use crate::header::{ONE, read_header};
use crate::packet::Packet;
use crate::parameters::{Parameters, timed, untimed};
use crate::read::packet_of;

/// The packets of a trace that are left to read. It is `Copy`, so a trace may be read again from
/// any place.
#[derive(Clone, Copy)]
pub struct Packets<'a> {
    rest: &'a [u8],
    widths: Parameters,
    number: u64,
    ghost few: { number + length rest.now < 2 ^ 64 },
    ghost bits: { (widths.time_width ≤ 64) × (widths.context_width ≤ 32) },
}

impl<'a> Packets<'a> {
    ghost use Rattle.std.specs.Prelude.{◌≡◌, ◌++◌, ◌↔◌, ℕ, Bool, List, length, IfOk, IfErr, OnErr, Result, Option};
    ghost use Rattle.rept_trace.specs.declared.packet.Packet.{Packet};
    ghost use Rattle.rept_trace.specs.declared.fault.TraceFault.{TraceFault};
    ghost use Rattle.rept_trace.specs.Fits.{FieldsFit};
    ghost use Rattle.rept_trace.specs.Grammar.{timed, IsPacket, Spells};
    ghost use Rattle.rept_trace.specs.Packets.{rest_of, number_of};
    ghost use Rattle.rept_trace.specs.Shortened.{IsShortened};
    ghost use Rattle.rept_trace.specs.Header.{one_stream, IsHeaderFault};
    ghost use Rattle.rept_trace.specs.Stream.{header, plain, AnswersNext, Hold, FailsAfter, Stream};

    /// The packets of a trace file, from its first on. The file begins with `RTR1`, the count 1 of
    /// its streams, 1 where code may be compressed or else 0, and two zero bytes, and then has, for
    /// each packet, a length byte and so many bytes of payload. `BadMagic` and `BadHeader` are the
    /// only refusals.
    pub fn open(bytes: &'a [u8]) -> Result<Packets<'a>, TraceFault>
        ensures ok { IfOk result (λ packets. (halves : Bool) ×
            (bytes.now ≡ header halves ++ (rest_of packets).bytes) × (rest_of packets ≡ plain halves (rest_of packets).bytes) × (number_of packets ≡ 0)) }
        ensures err { IfErr result (λ fault. IsHeaderFault one_stream bytes.now fault) }
        ensures every_fault { (fault : TraceFault) →
            IsHeaderFault one_stream bytes.now fault → result ≡ Err fault }
    {
        let (heading, rest) = read_header(ONE, bytes)?;
        Ok(Packets {
            rest,
            widths: untimed(heading.halves),
            number: 0,
        })
    }

    /// Whether byte 5 of the header is 1: code may be compressed, and addresses are multiples of 2.
    /// Else they are multiples of 4.
    pub fn halves(&self) -> bool
        ensures { result ≡ (rest_of self.now).widths.halves }
    {
        self.widths.halves
    }

    /// The packets of one stream of several, from its first on.
    pub(crate) fn timed(bytes: &'a [u8], halves: bool) -> Packets<'a>
        ensures rest { rest_of result ≡ record { widths = timed halves; bytes = bytes.now } }
        ensures first { number_of result ≡ 0 }
    {
        Packets {
            rest: bytes,
            widths: timed(halves),
            number: 0,
        }
    }

    /// The next packet. `None` comes exactly at the end of the bytes, and a fault exactly where the
    /// next packet has it. Neither changes anything, so the same is answered again. No memory is
    /// taken.
    pub fn next(&mut self) -> Result<Option<Packet>, TraceFault>
        ensures answer { AnswersNext (number_of self.old) (rest_of self.old) result
            (number_of self.new) (rest_of self.new) }

        // There is no other answer.
        ensures only { (answer : Result (Option Packet) TraceFault) (number : ℕ) (rest : Stream) →
            AnswersNext (number_of self.old) (rest_of self.old) answer number rest →
            (result ≡ answer) × (number_of self.new ≡ number) × (rest_of self.new ≡ rest) }
        ensures unchanged { OnErr result (self.new ≡ self.old) }

        // A payload without some equal bits at its end spells what the full one spells.
        ensures shortened { (short full : List ℕ) (number : ℕ) (answer : Result Packet TraceFault) →
            IsShortened short full → Spells (rest_of self.old).widths number short answer ↔ Spells (rest_of self.old).widths number full answer }
        ensures fields { (payload : List ℕ) (packet : Packet) →
            IsPacket (rest_of self.old).widths payload packet → FieldsFit (rest_of self.old).widths packet }
    {
        self.advance()
    }

    /// How many packets are left, or the first fault among them. It goes through the bytes to the
    /// end and takes no memory, so a caller that keeps packets may ask first whether all of them
    /// are whole.
    pub fn count(self) -> Result<u64, TraceFault>
        ensures ok { IfOk result (λ count. (packets : List Packet) ×
            Hold (rest_of self.entry) packets × (count ≡ length packets)) }
        ensures err { IfErr result (λ fault. (packets : List Packet) ×
            FailsAfter (number_of self.entry) (rest_of self.entry) packets fault) }
        ensures every { (packets : List Packet) →
            Hold (rest_of self.entry) packets → result ≡ Ok (length packets) }
        ensures every_fault { (packets : List Packet) (fault : TraceFault) →
            FailsAfter (number_of self.entry) (rest_of self.entry) packets fault → result ≡ Err fault }

        // The bytes hold one list of packets.
        ensures one_list { (packets others : List Packet) →
            Hold (rest_of self.entry) packets → Hold (rest_of self.entry) others → packets ≡ others }

        // Any bytes hold packets, or fail after some.
        ensures decided { ((packets : List Packet) × Hold (rest_of self.entry) packets)
            ⊎ ((packets : List Packet) × (fault : TraceFault) × FailsAfter (number_of self.entry) (rest_of self.entry) packets fault) }
    {
        self.go_through()
    }

    /// Counts the packets one after another.
    fn go_through(self) -> Result<u64, TraceFault>
        ensures ok { IfOk result (λ count. (packets : List Packet) ×
            Hold (rest_of self.entry) packets × (count ≡ length packets)) }
        ensures err { IfErr result (λ fault. (packets : List Packet) ×
            FailsAfter (number_of self.entry) (rest_of self.entry) packets fault) }
    {
        let mut packets = self;
        let mut count = 0u64;
        while let Some(_) = packets.next()? {
            count += 1;
        }
        Ok(count)
    }

    /// Reads the next packet, if there is one, and goes past it.
    fn advance(&mut self) -> Result<Option<Packet>, TraceFault>
        ensures answer { AnswersNext (number_of self.old) (rest_of self.old) result
            (number_of self.new) (rest_of self.new) }
        ensures unchanged { OnErr result (self.new ≡ self.old) }
    {
        let rest = after_zeros(self.rest);
        let Some((size, others)) = rest.split_first() else {
            return Ok(None);
        };
        let size = usize::from(*size);
        if others.len() < size {
            return Err(TraceFault::Truncated(self.number));
        }
        let (payload, rest) = others.split_at(size);
        let packet = packet_of(payload, self.widths, self.number)?;
        self.rest = rest;
        self.number += 1;
        Ok(Some(packet))
    }
}

/// The bytes from the first that is not 0 on.
fn after_zeros(bytes: &[u8]) -> &[u8]
    ensures zeros { AreAfterZeros bytes.now result.now }
    ensures above { (size : ℕ) (others : List ℕ) → result.now ≡ size ∷ others → 0 < size }
{
    let mut rest = bytes;
    while let Some((0, others)) = rest.split_first() {
        rest = others;
    }
    rest
}
