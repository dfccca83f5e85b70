//! Packets of one stream, and streams of a file.

use rept_trace::{Packet, Packets, Qual, Report, Streams, TraceFault};
use std::alloc::{AllocError, Global};
use std::fmt;

/// A packet, with its fields in their order.
#[derive(Clone, Copy, Drop)]
struct Told(Packet);

impl fmt::Debug for Told {
    fn fmt<W: fmt::Write>(&self, f: &mut fmt::Formatter<W>) -> fmt::Result {
        match self.0 {
            Packet::Start {
                branch,
                privilege,
                address,
                time,
                context,
            } => write!(
                f,
                "start {branch} {privilege} {address:#x} at {time} of {context}"
            ),
            Packet::Context {
                privilege,
                time,
                context,
            } => write!(f, "context {privilege} at {time} of {context}"),
            Packet::Support { enabled, status } => {
                let number = number_of(status);
                write!(f, "support {enabled} {number}")
            }
            Packet::Address { report } => write!(f, "address {}", Reported(report)),
            Packet::Map { map } => write!(f, "map {map:#x}"),
            Packet::MapAddress { count, map, report } => {
                let reported = Reported(report);
                write!(f, "branches {count} {map:#x} {reported}")
            }
        }
    }
}

/// The number of a status.
fn number_of(status: Qual) -> u8 {
    match status {
        Qual::NoChange => 0,
        Qual::EndedRep => 1,
        Qual::TraceLost => 2,
        Qual::EndedNtr => 3,
    }
}

/// The difference of an address, and whether notify, updiscon and irreport differ from the bit
/// before.
#[derive(Clone, Copy, Drop)]
struct Reported(Report);

impl fmt::Display for Reported {
    fn fmt<W: fmt::Write>(&self, f: &mut fmt::Formatter<W>) -> fmt::Result {
        let Report {
            difference,
            notify,
            updiscon,
            irreport,
        } = self.0;
        write!(f, "{difference:#x} {notify} {updiscon} {irreport}")
    }
}

fn fault_text(alloc: Global, fault: TraceFault) -> Result<String, AllocError> {
    format!(in alloc; "{fault:?}: {fault}")
}

/// The packets of a file of one stream, or its fault.
pub fn of_trace(alloc: Global, bytes: &[u8]) -> Result<String, AllocError> {
    match Packets::open(bytes) {
        Err(fault) => fault_text(alloc, fault),
        Ok(packets) => seen(alloc, packets),
    }
}

/// How many streams a file has, or the packets of one of them; or its fault.
pub fn of_stream(alloc: Global, bytes: &[u8], s: Option<u32>) -> Result<String, AllocError> {
    match (Streams::open(bytes), s) {
        (Err(fault), _) => fault_text(alloc, fault),
        (Ok(streams), Some(s)) if s < streams.count() => seen(alloc, streams.packets(s)),
        (Ok(streams), _) => format!(in alloc; "{}", streams.count()),
    }
}

/// Whether code may be compressed, how many packets there are, and they; what is answered ever
/// after, and how many are left then.
fn seen(alloc: Global, packets: Packets<'_>) -> Result<String, AllocError> {
    let mut rest = packets;
    let mut list = Vec::new(alloc);
    for _ in 0..40u8 {
        if let Ok(Some(packet)) = rest.next() {
            list.push(Told(packet))?;
        }
    }
    let last = after(alloc, &mut rest)?;
    format!(in alloc;
        "{} {:?} {:?} {last} {:?}",
        packets.halves(),
        packets.count(),
        list.as_slice(),
        rest.count()
    )
}

fn after(alloc: Global, rest: &mut Packets<'_>) -> Result<String, AllocError> {
    match rest.next() {
        Err(fault) => fault_text(alloc, fault),
        Ok(None) => String::from_str(alloc, "end"),
        Ok(Some(_)) => String::from_str(alloc, "more"),
    }
}
