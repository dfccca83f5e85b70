//! Bytes that go the same ways as another one: what is known of them follows from what is known of
//! that one, and the rows that may write that one may write them.
#![tactic(auto, using(rept_timeline::specs::Paths::lawful))]

ghost use Rattle.rept_timeline.specs.Paths.{timeline};
ghost use Rattle.std.specs.Prelude.{◌≡◌, ◌≤◌, true, IfSome};
ghost use Rattle.rept_facts.specs.State.{state_of};
ghost use Rattle.rept_facts.specs.Inferring.{AreWritings, IsEven};
ghost use Rattle.rept_propagate.specs.Likeness.{IsToldBy, AreHitsShared, IsLikeByte, IsLikeAny};

use super::Propagation;
use crate::pairs::Pairs;
use rept_reason::RowRules;
use rept_span::Transfer;
use rept_versions::ByteFacts;

/// Of so many rows that may write a byte it is looked at whether they may write another one, for
/// each piece in which the same is known of both.
const HITS: usize = 16;

/// A word's bytes begin at a multiple of it.
pub const WORD: u32 = 4;

impl<'a, B: ByteFacts, W: Transfer, R: RowRules> Propagation<'a, B, W, R> {
    /// What is known of a byte at a number, and a number up to which that is so.
    fn known_to(&self, a: u32, from: u32) -> (Option<u8>, u32)
        requires inside { from ≤ (timeline self.now.facts.paths).moments.end }
        ensures value { result.0 ≡ (B.store self.now.facts.known.bytes).fact from a }
        ensures even { IsEven a from result.1 (state_of W.sets W.moves R.rules B.store self.now.facts) }
        ensures order { from ≤ result.1 }
        ensures inside { result.1 ≤ (timeline self.now.facts.paths).moments.end }
    {
        let end = self.facts.end();
        match self.facts.stretch(a, from) {
            None => (None, end),
            Some(stretch) if from < stretch.first => (None, end.min(stretch.first - 1)),
            Some(stretch) => (Some(stretch.value), end.min(stretch.last)),
        }
    }

    /// Whether what is known of a byte at any number tells what is known of another one there.
    /// Answers how many pieces there are in which the same is known of both, if it does.
    fn is_told_by(&self, a: u32, b: u32) -> Option<usize>
        ensures { IfSome result (λ _. IsToldBy a b (state_of W.sets W.moves R.rules B.store self.now.facts)) }
    {
        let end = self.facts.end();
        let mut pairs = Pairs::new();
        let mut pieces = 0_usize;
        let mut from = 0;
        while from <= end {
            let first = self.known_to(a, from);
            let other = self.known_to(b, from);
            if !pairs.fits(first.0, other.0) {
                return None;
            }
            pieces = pieces.saturating_add(1);
            from = first.1.min(other.1) + 1;
        }
        Some(pieces)
    }

    /// Whether each row of the list that may write a byte may write another one: of so many it is
    /// looked at.
    fn are_hits_shared(&self, a: u32, b: u32, most: usize) -> bool
        requires writings { AreWritings (state_of W.sets W.moves R.rules B.store self.now.facts) }
        ensures { result ≡ true → AreHitsShared a b (state_of W.sets W.moves R.rules B.store self.now.facts) }
    {
        let end = self.facts.writing_count();
        let mut k = 0;
        for _ in 0..most {
            let Some(hit) = self.facts.next_hit(k, end, a) else {
                return true;
            };
            let access = self.facts.entry(hit).access;
            if !access.may_hit(b) {
                return false;
            }
            k = hit + 1;
        }
        false
    }

    /// Whether it is seen that a byte is like another one.
    fn is_like(&self, a: u32, b: u32) -> bool
        requires writings { AreWritings (state_of W.sets W.moves R.rules B.store self.now.facts) }
        ensures { result ≡ true → IsLikeByte a b (state_of W.sets W.moves R.rules B.store self.now.facts) }
    {
        match self.is_told_by(a, b) {
            None => false,
            Some(pieces) => self.are_hits_shared(a, b, pieces.saturating_mul(HITS)),
        }
    }

    /// Whether it is seen that a byte is like the first one of its word, and isn't that one.
    pub(super) fn is_like_first(&self, a: u32) -> bool
        requires writings { AreWritings (state_of W.sets W.moves R.rules B.store self.now.facts) }
    {
        a % WORD != 0 && self.is_like(a - a % WORD, a)
    }

    /// Whether it is seen that a byte is like another one, if one is named.
    pub(super) fn is_like_any(&self, leader: Option<u32>, b: u32) -> bool
        requires writings { AreWritings (state_of W.sets W.moves R.rules B.store self.now.facts) }
        ensures { result ≡ true → IsLikeAny leader b (state_of W.sets W.moves R.rules B.store self.now.facts) }
    {
        match leader {
            None => false,
            Some(a) => self.is_like(a, b),
        }
    }
}
