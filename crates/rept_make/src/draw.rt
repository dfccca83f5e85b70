//! The sequence of numbers from which all is drawn.

ghost use Rattle.std.specs.Prelude.{◌≡◌, ◌<◌, ◌≤◌, ◌+◌};
ghost use Rattle.rept_make.specs.Draws.{drawn, pick, slot_of, after_slot, IsSlot};

/// The next number of the sequence, by a linear congruence.
pub fn drawn(state: u32) -> u32
    ensures { result ≡ drawn state }
{
    ((u64::from(state) * 1_664_525 + 1_013_904_223) % 0x1_0000_0000) as u32
}

/// A number below another one, from the high half of a state.
pub fn pick(state: u32, below: u32) -> u32
    requires { 0 < below }
    ensures value { result ≡ pick state below }
    ensures below { result < below }
{
    state / 0x1_0000 % below
}

/// What is drawn for one slot of the code: which instruction it is, three of the registers x5 to
/// x15, and a number below 2,048.
#[derive(Clone, Copy)]
pub struct Slot {
    pub kind: u32,
    pub target: u8,
    pub first: u8,
    pub second: u8,
    pub number: u32,
}

/// A register of x5 to x15.
fn pick_register(state: u32) -> u8
    ensures value { result ≡ 5 + pick state 11 }
    ensures few { result ≤ 15 }
{
    5 + pick(state, 11) as u8
}

/// What five draws give, and the state after them.
pub fn draw_slot(state: u32) -> (Slot, u32)
    ensures slot { result.0 ≡ slot_of state }
    ensures after { result.1 ≡ after_slot state }
    ensures fits { IsSlot result.0 }
{
    let one = drawn(state);
    let two = drawn(one);
    let three = drawn(two);
    let four = drawn(three);
    let five = drawn(four);
    let slot = Slot {
        kind: pick(one, 16),
        target: pick_register(two),
        first: pick_register(three),
        second: pick_register(four),
        number: pick(five, 2048),
    };
    (slot, five)
}
