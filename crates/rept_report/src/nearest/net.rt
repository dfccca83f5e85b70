//! Numbers that are linked.

ghost use Rattle.std.specs.Prelude.{◌≡◌, ◌≤◌, ℕ, true};
ghost use Rattle.rept_report.specs.Nearest.Nets.{Links, IsNextLinked};

/// The numbers from 0 to a last one, some of which have a value, and which of them are linked.
/// `links` names all of it as functions.
pub trait Net {
    ghost links: { Self → Links };

    /// The last number.
    fn last(&self) -> u32
        ensures { result ≡ (links self.now).last };

    /// The value of a number, if it has one.
    fn value(&self, number: u32) -> Option<u8>
        requires { number ≤ (links self.now).last }
        ensures { result ≡ (links self.now).value number };

    /// The least number from `least` on to which this one is linked, if there is one.
    fn next_linked(&self, number: u32, least: u32) -> Option<u32>
        requires { number ≤ (links self.now).last }
        ensures { IsNextLinked (links self.now) number least result };

    ghost inside: { (n : Self) (m w : ℕ) → (links n).linked m w ≡ true → w ≤ (links n).last };
}
