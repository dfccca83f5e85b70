//! The last line that was answered, and its answer.

ghost use Rattle.std.specs.Prelude.{◌≡◌, ◌&&◌, ◌==◌, IfSome, MatchOption};
ghost use Rattle.rept_session.specs.Serving.Kept.{IsKeptOf};
ghost use Rattle.rept_session.specs.Serving.Replies.{said_of_line};

use crate::Answer;
use rept_findings::ThreadPoint;
use rept_ports::Line;
use rept_word::{Text, is_word};
use std::alloc::Global;

/// A line that was answered, the cursor at which it was asked, and its answer there. Nothing that a
/// session tells changes, so the same line at the same cursor has the same answer.
#[derive(Drop)]
pub struct KeptAnswer {
    /// the cursor before the line
    pub cursor: ThreadPoint,
    /// the bytes of the line
    pub line: Text,
    /// its answer
    pub answer: Answer,
}

/// The answer that is kept, where this very line was asked at this cursor.
pub fn answer_again(kept: Option<KeptAnswer>, cursor: ThreadPoint, line: Line<'_>) -> Option<Answer>
    ensures { IfSome result (λ answer. MatchOption kept ⊥ (λ kept. IsKeptOf kept cursor (said_of_line line.entry) answer)) }
{
    let Line::Text(text) = line else {
        return None;
    };
    let Some(kept) = kept else {
        return None;
    };
    if !is_same_point(kept.cursor, cursor) || !is_word(kept.line.bytes(), text) {
        return None;
    }
    Some(kept.answer)
}

fn is_same_point(a: ThreadPoint, b: ThreadPoint) -> bool
    ensures { result ≡ (a.thread == b.thread && a.point == b.point) }
{
    a.thread == b.thread && a.point == b.point
}

/// Keeps an answer. None where the line is too long, or no memory is left for it.
pub fn keep(
    alloc: Global,
    cursor: ThreadPoint,
    line: Line<'_>,
    answer: Answer,
) -> Option<KeptAnswer>
    ensures { IfSome result (λ kept. IsKeptOf kept cursor (said_of_line line.entry) answer) }
{
    let Line::Text(bytes) = line else {
        return None;
    };
    let mut line = Text::new(alloc);
    if line.push(bytes).is_err() {
        return None;
    }
    Some(KeptAnswer {
        cursor,
        line,
        answer,
    })
}
