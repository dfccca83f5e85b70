//! A trace that is being written, packet by packet.

ghost use Rattle.std.specs.Prelude.{◌≡◌, ◌≤◌, ◌%◌, ◌⊎◌, Bool, OnOk, IfOk};
ghost use Rattle.rept_trace.specs.declared.packet.Packet.{Packet};
ghost use Rattle.rept_trace.specs.declared.packet.Qual.TheVariants.{EndedRep};
ghost use Rattle.rept_trace.specs.Fits.{FieldsFit};
ghost use Rattle.rept_trace.specs.Grammar.{untimed};
ghost use Rattle.rept_trace.specs.Stream.{header};
ghost use Rattle.rept_encode.specs.State.{AreBits, said, report_packet, IsBegunAt, IsReported, IsReportSent, IsRestarted, IsWaiting, IsMapped, StandsAtRow};
ghost use Rattle.rept_encode.specs.Encoded.{start_at};
ghost use Rattle.rept_encode.specs.Walkable.{alignment_by};
ghost use Rattle.rept_encode.specs.Written.{IsPacketSilent, Appends};

use crate::bits::{PendingBranches, no_bits, with_row};
use crate::branch::{is_branch, start_bit};
use crate::payload::push_packet;
use rept_isa::StepRow;
use rept_trace::{Packet, Qual, Report};
use rept_word::{OutOfMemory, Text};
use std::alloc::Global;

/// What follows the first start packet of a trace that is being written.
#[derive(Drop)]
pub struct Sender {
    /// The bytes so far.
    pub text: Text,
    /// The address that was reported last.
    pub reported: u32,
    /// The branch bits that wait.
    pub bits: PendingBranches,
    /// The row at which a walk over the packets stands.
    pub walked: usize,
    /// The last row that is a branch, or the row at which the walk stands, if that is later.
    pub base: usize,
}

/// A report of an address that lies so far from the one before, with the bits. It notifies, or says
/// that an uninferable jump led there.
fn report_packet(bits: PendingBranches, difference: u32, notify: bool) -> Packet
    requires { AreBits bits 31 }
    ensures packet { result ≡ report_packet bits.count bits.map (said difference notify) }
    ensures fits { (halves : Bool) → difference % alignment_by halves ≡ 0 → FieldsFit (untimed halves) result }
    ensures silent { IsPacketSilent result }
{
    let report = Report {
        difference,
        notify,
        updiscon: !notify,
        irreport: false,
    };
    if bits.count == 0 {
        return Packet::Address { report };
    }
    Packet::MapAddress {
        count: bits.count,
        map: bits.map,
        report,
    }
}

/// A start packet in user mode.
fn start_packet(branch: bool, address: u32) -> Packet
    ensures packet { result ≡ Packet.Start branch 0 address 0 0 }
    ensures fits { (halves : Bool) → address % alignment_by halves ≡ 0 → FieldsFit (untimed halves) result }
    ensures silent { IsPacketSilent result }
{
    Packet::Start {
        branch,
        privilege: 0,
        address,
        time: 0,
        context: 0,
    }
}

/// Adds a start packet at the row.
pub fn push_start(text: &mut Text, halves: bool, row: &StepRow) -> Result<(), OutOfMemory>
    requires { row.now.at % alignment_by halves ≡ 0 }
    ensures { OnOk result (Appends halves text.old text.new (start_at row.now)) }
{
    let packet = start_packet(start_bit(row), row.at);
    push_packet(text, halves, &packet)
}

/// The header of a trace.
pub fn header(alloc: Global, halves: bool) -> Result<Text, OutOfMemory>
    ensures { IfOk result (λ text. text ≡ header halves) }
{
    let mut text = Text::new(alloc);
    text.push(&[0x52, 0x54, 0x52, 0x31, 1, u8::from(halves), 0, 0])?;
    Ok(text)
}

/// What follows the start packet at the row: nothing yet.
pub fn begin(alloc: Global, first: &StepRow) -> Sender
    ensures { IsBegunAt result first.now }
{
    Sender {
        text: Text::new(alloc),
        reported: first.at,
        bits: no_bits(),
        walked: 0,
        base: 0,
    }
}

impl Sender {
    /// Notes that the walk stands at a row of this number and address.
    fn stand(&mut self, address: u32, number: usize)
        ensures { StandsAtRow self.old self.new address number }
    {
        self.reported = address;
        self.bits = no_bits();
        self.walked = number;
        self.base = number;
    }

    /// Reports the address of a row, with all bits that wait.
    pub fn report(
        &mut self,
        halves: bool,
        to: u32,
        notify: bool,
        number: usize,
    ) -> Result<(), OutOfMemory>
        requires bits { AreBits self.old.bits 31 }
        requires even { self.old.reported % alignment_by halves ≡ 0 }
        requires to { to % alignment_by halves ≡ 0 }
        ensures { OnOk result (IsReported halves self.old self.old.bits self.new to notify number) }
    {
        let difference = to.wrapping_sub(self.reported);
        let packet = report_packet(self.bits, difference, notify);
        push_packet(&mut self.text, halves, &packet)?;
        self.stand(to, number);
        Ok(())
    }

    /// Reports the address of a row, with all bits that wait and its own.
    pub fn send(
        &mut self,
        halves: bool,
        next: &StepRow,
        notify: bool,
        number: usize,
    ) -> Result<(), OutOfMemory>
        requires bits { AreBits self.old.bits 30 }
        requires even { self.old.reported % alignment_by halves ≡ 0 }
        requires to { next.now.at % alignment_by halves ≡ 0 }
        ensures { OnOk result (IsReportSent halves self.old self.new next.now notify number) }
    {
        self.bits = with_row(self.bits, next);
        self.report(halves, next.at, notify, number)
    }

    /// Ends the trace after a call, and begins it anew at the row.
    pub fn restart(
        &mut self,
        halves: bool,
        next: &StepRow,
        number: usize,
    ) -> Result<(), OutOfMemory>
        requires { next.now.at % alignment_by halves ≡ 0 }
        ensures { OnOk result (IsRestarted halves self.old self.new next.now number) }
    {
        let packet = Packet::Support {
            enabled: false,
            status: Qual::EndedRep,
        };
        push_packet(&mut self.text, halves, &packet)?;
        push_start(&mut self.text, halves, next)?;
        self.stand(next.at, number);
        Ok(())
    }

    /// Keeps a row: its bit waits, or goes out with the map that it fills.
    pub fn keep(&mut self, halves: bool, next: &StepRow, number: usize) -> Result<(), OutOfMemory>
        requires { AreBits self.old.bits 30 }
        ensures { OnOk result (IsWaiting self.old self.new next.now number ⊎ IsMapped halves self.old self.new next.now number) }
    {
        let bits = with_row(self.bits, next);
        if bits.count == 31 {
            push_packet(&mut self.text, halves, &Packet::Map { map: bits.map })?;
            let address = self.reported;
            self.stand(address, number);
            return Ok(());
        }
        self.bits = bits;
        if is_branch(next) {
            self.base = number;
        }
        Ok(())
    }
}
