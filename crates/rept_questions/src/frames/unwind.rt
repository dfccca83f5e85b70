//! What a return leaves of the calls.

ghost use Rattle.std.specs.Prelude.{◌≡◌, ◌==◌};
ghost use Rattle.rept_questions.specs.Frames.Frames.{unwound};

use crate::frames::frames::Frame;

/// Whether the call is to go on at this address.
fn goes_on_at(frame: &Frame, next: u32) -> bool
    ensures { result ≡ (frame.now.back == next) }
{
    frame.back == next
}

/// Takes off the last call that is to go on at this address, and all after it; all calls where none
/// is.
pub fn unwind(frames: &mut Vec<Frame>, next: u32)
    ensures { frames.new.items ≡ unwound next frames.old.items }
{
    while let Some(frame) = frames.pop() {
        if goes_on_at(&frame, next) {
            return;
        }
    }
}
