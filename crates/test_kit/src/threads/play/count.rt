//! Rows of turns.

ghost use Rattle.std.specs.Prelude.{◌≡◌, ◌≤◌, Some};
ghost use Rattle.test_kit.specs.declared.threads.turns.turn.Turn.{Turn};
ghost use Rattle.test_kit.specs.Threads.Turns.Turns.{all_rows, rows_in, steps_before, turn_at};

use crate::threads::turns::Turn;

/// How many rows all turns have together.
pub fn all_rows(turns: &[Turn]) -> u32
    requires { all_rows turns.now ≤ 65536 }
    ensures { result ≡ all_rows turns.now }
{
    let mut rows = 0;
    for turn in turns {
        rows += turn.count;
    }
    rows
}

/// How many of them are of this thread.
pub fn rows_in(thread: u32, turns: &[Turn]) -> u32
    requires { rows_in thread turns.now ≤ 65536 }
    ensures { result ≡ rows_in thread turns.now }
{
    let mut rows = 0;
    for turn in turns {
        if turn.thread == thread {
            rows += turn.count;
        }
    }
    rows
}

/// How many of the first `k` rows are of this thread.
pub fn steps_before(thread: u32, turns: &[Turn], k: u32) -> u32
    ensures value { result ≡ steps_before thread turns.now k }
{
    let mut steps = 0;
    let mut rest = k;
    for turn in turns {
        if turn.thread == thread {
            steps += rest.min(turn.count);
        }
        rest = rest.saturating_sub(turn.count);
    }
    steps
}

/// The thread of row `k` of all. There must be such a row.
pub fn thread_at(turns: &[Turn], k: u32) -> u32
    requires { (turn : Turn) × (turn_at turns.now k ≡ Some turn) }
    ensures { (turn : Turn) → turn_at turns.now k ≡ Some turn → result ≡ turn.thread }
{
    let mut rest = k;
    for turn in turns {
        if rest < turn.count {
            return turn.thread;
        }
        rest -= turn.count;
    }
    unreachable!()
}
