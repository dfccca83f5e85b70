//! What the nearest moment says of a log.

ghost use Rattle.std.specs.Prelude.{ℕ, List, Some, None};
ghost use Rattle.rept_report.specs.declared.nearest.found.NearestValue.{NearestValue};
ghost use Rattle.rept_report.specs.Nearest.Nets.{IsNearest};
ghost use Rattle.rept_reason.specs.declared.fact.Fact.{Fact};
ghost use Rattle.rept_report.specs.Setting.{Setting, HasLaws};
ghost use Rattle.rept_report.specs.Reasons.{IsReached};
ghost use Rattle.rept_report.specs.Why.{IsNearer};
ghost use Rattle.rept_report.specs.Origin.Bridges.{IsLinkBeside};
ghost use Rattle.rept_report.specs.Origin.Logs.{links_in, IsReachedFirst};

use rept_span::Transfer;

/// A law: of a byte of a log, the steps to the nearest moment at which it is known by itself are
/// the fewest uses of the rules that carry it by which it is known; where there is none, it isn't
/// known by any; and at a moment that is one step nearer it needs fewer. The call does nothing.
pub fn steps_are_uses<W: Transfer>()
    ensures nearest { (S : Setting W) (fs : List Fact) (a m : ℕ) (found : NearestValue) → HasLaws S → IsNearest (links_in S fs a) m (Some found) → IsReachedFirst S fs a found.links m }
    ensures none { (S : Setting W) (fs : List Fact) (a m k : ℕ) → HasLaws S → IsNearest (links_in S fs a) m None → IsReached S fs a k m → ⊥ }
    ensures nearer { (S : Setting W) (fs : List Fact) (a m w : ℕ) (found : NearestValue) → HasLaws S → IsNearest (links_in S fs a) m (Some found) → IsLinkBeside (links_in S fs a) m found.links w → IsNearer S fs a w m }
{}
