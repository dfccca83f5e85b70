//! Numbers of moments that stand one after the other.

ghost use Rattle.std.specs.Prelude.{◌≡◌, ◌≤◌, ◌<◌, ◌+◌};
ghost use Rattle.rept_report.specs.Timeline.{IsLeastFrom, IsGreatestTo};

/// Numbers of moments one after the other, of which each but the last has the one after it next to
/// it, and no other: from it a byte is carried on there alone. This project's own.
#[derive(Clone, Copy)]
pub struct NumberChain {
    /// The first number.
    pub first: u32,
    /// The last number.
    pub last: u32,
}

/// Numbers of moments, from one on to before another one.
#[derive(Clone, Copy)]
pub struct NumberWindow {
    /// the first number
    pub from: u32,
    /// the number after the last one
    pub to: u32,
}

/// Numbers of a line one after the other, between which the same may act: between each and the one
/// after it the row before which it lies alone, or what may act at the pause, if there is one. So
/// it is decided once for all of them whether another row may write a byte. This project's own.
#[derive(Clone, Copy)]
pub struct Strip {
    /// The first number.
    pub first: u32,
    /// The last number.
    pub last: u32,
    /// The number at which all may act that does at another one, but for the rows before which
    /// these lie.
    pub pause: Option<u32>,
}

/// The least number below a count from two others on.
pub fn least_below(count: u32, low: u32, least: u32) -> Option<u32>
    ensures { IsLeastFrom (λ i. (i < count) × (low ≤ i)) least result }
{
    let from = if low < least { least } else { low };
    if from < count { Some(from) } else { None }
}

/// The greatest number up to one that is below a count and another number.
pub fn greatest_below(count: u32, high: u32, most: u32) -> Option<u32>
    ensures { IsGreatestTo (λ i. (i < count) × (i < high)) most result }
{
    let end = if count < high { count } else { high };
    if most < end {
        Some(most)
    } else if end > 0 {
        Some(end - 1)
    } else {
        None
    }
}
