//! Calls on the stores of facts, one after another.

use crate::shown::Value;
use rept_versions::{ByteFacts, PlainFacts, SpanFacts};
use std::alloc::{AllocError, Global};
use test_kit::Numbers;

/// Both stores.
#[derive(Drop)]
pub struct Stores {
    plain: PlainFacts,
    spans: SpanFacts,
}

impl Stores {
    /// Stores without a fact.
    pub fn new(alloc: Global) -> Result<Stores, AllocError> {
        let plain = PlainFacts::make(alloc, 100, 8)?;
        let spans = SpanFacts::make(alloc, 100, 8)?;
        Ok(Stores { plain, spans })
    }

    /// What the plain list answers, and what the spans answer.
    pub fn answer(
        &mut self,
        alloc: Global,
        asked: &str,
        n: &Numbers,
    ) -> Result<String, AllocError> {
        let first = ask(alloc, &mut self.plain, asked, n)?;
        let second = ask(alloc, &mut self.spans, asked, n)?;
        format!(in alloc; "{first} and {second}")
    }
}

fn ask<B: ByteFacts>(
    alloc: Global,
    facts: &mut B,
    asked: &str,
    n: &Numbers,
) -> Result<String, AllocError> {
    let (first, second) = (n.word(0), n.word(1));
    match asked {
        "store-learn" => format!(in alloc; "{:?}", facts.learn(first, second, n.byte(2))?),
        "store-known" => format!(in alloc; "{:?}", facts.known(first, second)),
        "store-carry" => carry(alloc, facts, n),
        "store-next" => format!(in alloc; "{:?}", facts.next_stretch(first, second)),
        _ => track(alloc, facts, n.known(0), second),
    }
}

/// Carries what is known at a point, if anything is.
fn carry<B: ByteFacts>(alloc: Global, facts: &mut B, n: &Numbers) -> Result<String, AllocError> {
    let (a, from, to) = (n.word(0), n.word(1), n.word(2));
    match facts.known(from, a) {
        None => String::from_str(alloc, "unknown"),
        Some(_) => format!(in alloc; "{:?}", facts.carry(a, from, to)?),
    }
}

/// Tracks an address, if one is given; and how many are tracked, and the one at an index.
fn track<B: ByteFacts>(
    alloc: Global,
    facts: &mut B,
    a: Option<u32>,
    index: u32,
) -> Result<String, AllocError> {
    if let Some(a) = a {
        facts.track(a)?;
    }
    let k = index as usize;
    let address = if k < facts.count() {
        Some(facts.address(k))
    } else {
        None
    };
    format!(in alloc; "{}, {}", facts.count(), Value(address))
}

/// Learns facts on the byte at 0x20000 in spans with three places, one after another: whether there
/// was room for the last one, and the room that is left. Places that go by points aren't asked for,
/// so that there are no more.
pub fn room(alloc: Global, n: &Numbers) -> Result<String, AllocError> {
    let mut facts = SpanFacts::make(alloc, 0, 1)?;
    let mut had_room = true;
    for k in 0..12usize {
        if let Some(point) = n.known(2 * k) {
            had_room = facts.learn(point, 0x20000, n.byte(2 * k + 1)).is_ok();
        }
    }
    format!(in alloc; "{had_room}, {}", facts.spare())
}
