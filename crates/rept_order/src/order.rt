//! The order of moments.

ghost use Rattle.std.specs.Prelude.{◌≡◌, ◌↔◌, ℕ, IsTrue};
ghost use Rattle.rept_steps.specs.Runs.{course_of};
ghost use Rattle.rept_steps.specs.Course.{calls, row_of, slices_of, slice_of, TakeRows, IsSoundCourse};
ghost use Rattle.rept_order.specs.Events.{event_slice};
ghost use Rattle.rept_order.specs.Times.{begin_of, ends_by, is_entry, is_return, own_before, sooner, same_part, sooner_or_same, not_later, untraced_before, wholly_before, wholly_after, is_row, has_room, same_moment, is_earlier, may_act_between};
ghost use Rattle.rept_order.specs.Moments.{IsMoment, Earlier, IsAct, stretch, MayAct};
ghost use Rattle.rept_order.specs.Runs.{edge_event, moment_named, moment_beside, act_named};

use crate::edge::{Edge, slice_following, slice_holding};
use crate::moment::{Act, Moment};
use rept_steps::{Run, Slice};

/// The order of a run's moments, by the times of its slices. It takes no memory.
#[derive(Clone, Copy)]
pub struct Order<'a> {
    run: &'a Run,
}

impl<'a> Order<'a> {
    ghost use Rattle.rept_order.specs.Ordered.{course_in};

    /// The order of this run.
    pub fn new(run: &'a Run) -> Order<'a>
        ensures { course_in result ≡ course_of run.now }
    {
        Order { run }
    }

    /// Whether the row is a call.
    fn calls(&self, thread: u32, step: u32) -> bool
        ensures { result ≡ calls (course_in self.now) (row_of thread step) }
    {
        match self.run.threads.all().get(thread as usize) {
            Some(rows) => rows.is_call(step),
            None => false,
        }
    }

    /// The slices of a thread.
    fn slices(&self, thread: u32) -> &[Slice]
        requires { IsSoundCourse (course_in self.now) }
        ensures list { result.now ≡ slices_of (course_in self.now) thread }
        ensures taken { (n : ℕ) × TakeRows 0 result.now n }
    {
        match self.run.threads.all().get(thread as usize) {
            Some(rows) => rows.slices.all(),
            None => &[],
        }
    }

    /// The slice in which the event happens.
    pub fn slice(&self, edge: Edge) -> Option<Slice>
        requires { IsSoundCourse (course_in self.now) }
        ensures { result ≡ event_slice (course_in self.now) (edge_event (course_in self.now) edge) }
    {
        let slices = self.slices(edge.thread);
        if edge.last && self.calls(edge.thread, edge.step) {
            slice_following(slices, edge.step)
        } else {
            slice_holding(slices, edge.step)
        }
    }

    /// The slice that the row is in.
    fn slice_of_row(&self, edge: Edge) -> Option<Slice>
        requires { IsSoundCourse (course_in self.now) }
        ensures { result ≡ slice_of (slices_of (course_in self.now) edge.thread) edge.step }
    {
        slice_holding(self.slices(edge.thread), edge.step)
    }

    /// The time before which the event doesn't happen.
    pub fn begin(&self, edge: Edge) -> u64
        requires { IsSoundCourse (course_in self.now) }
        ensures { result ≡ begin_of (course_in self.now) (edge_event (course_in self.now) edge) }
    {
        match self.slice(edge) {
            Some(slice) => slice.begin,
            None => match self.slice_of_row(edge) {
                Some(slice) => slice.begin,
                None => 0,
            },
        }
    }

    /// Whether the event's slice ends before the time.
    fn ends_before(&self, edge: Edge, time: u64) -> bool
        requires { IsSoundCourse (course_in self.now) }
        ensures { result ≡ ends_by (event_slice (course_in self.now) (edge_event (course_in self.now) edge)) time }
    {
        match self.slice(edge) {
            Some(slice) => slice.end < time,
            None => false,
        }
    }

    /// Whether it is the entry of a call.
    fn is_entry(&self, edge: Edge) -> bool
        ensures { result ≡ is_entry (edge_event (course_in self.now) edge).part }
    {
        let call = self.calls(edge.thread, edge.step);
        !edge.last && call
    }

    /// Whether it is the return of a call.
    fn is_return(&self, edge: Edge) -> bool
        ensures { result ≡ is_return (edge_event (course_in self.now) edge).part }
    {
        let call = self.calls(edge.thread, edge.step);
        edge.last && call
    }

    /// Whether the one event is before the other by their thread.
    fn is_own_before(&self, e: Edge, f: Edge) -> bool
        ensures { result ≡ own_before (edge_event (course_in self.now) e) (edge_event (course_in self.now) f) }
    {
        let entered = self.is_entry(e);
        let returned = self.is_return(f);
        e.thread == f.thread && (e.step < f.step || (e.step == f.step && (entered && returned)))
    }

    /// Whether the order puts the one event before the other.
    fn precedes(&self, e: Edge, f: Edge) -> bool
        requires { IsSoundCourse (course_in self.now) }
        ensures { result ≡ sooner (course_in self.now) (edge_event (course_in self.now) e) (edge_event (course_in self.now) f) }
    {
        let own = self.is_own_before(e, f);
        let begin = self.begin(f);
        let ended = self.ends_before(e, begin);
        own || ended
    }

    /// Whether they are the same part of a row.
    fn is_same_part(&self, e: Edge, f: Edge) -> bool
        ensures { result ≡ same_part (edge_event (course_in self.now) e).part (edge_event (course_in self.now) f).part }
    {
        let one = self.calls(e.thread, e.step);
        let other = self.calls(f.thread, f.step);
        if one {
            if e.last {
                other && f.last
            } else {
                other && !f.last
            }
        } else {
            !other
        }
    }

    /// Whether it is the same event, or before.
    fn precedes_or_is(&self, e: Edge, f: Edge) -> bool
        requires { IsSoundCourse (course_in self.now) }
        ensures { result ≡ sooner_or_same (course_in self.now) (edge_event (course_in self.now) e) (edge_event (course_in self.now) f) }
    {
        let part = self.is_same_part(e, f);
        let sooner = self.precedes(e, f);
        ((e.thread == f.thread && e.step == f.step) && part) || sooner
    }

    /// Whether the order puts the one moment no later than the other.
    pub fn is_not_later(&self, m: Moment, w: Moment) -> bool
        requires { IsSoundCourse (course_in self.now) }
        ensures { result ≡ not_later (course_in self.now) (moment_named m) (moment_named w) }
    {
        match w {
            Moment::Before { thread, step } => self.is_not_later_than(
                m,
                Edge {
                    thread,
                    step,
                    last: false,
                },
            ),
            Moment::After { thread, step } => self.is_not_later_than(
                m,
                Edge {
                    thread,
                    step,
                    last: true,
                },
            ),
            Moment::End => true,
        }
    }

    /// Whether the order puts a moment no later than the moment before a row or after it.
    fn is_not_later_than(&self, m: Moment, edge: Edge) -> bool
        requires { IsSoundCourse (course_in self.now) }
        ensures { result ≡ not_later (course_in self.now) (moment_named m) (moment_beside edge) }
    {
        match m {
            Moment::Before { thread, step } => self.precedes_or_is(
                Edge {
                    thread,
                    step,
                    last: false,
                },
                edge,
            ),
            Moment::After { thread, step } if edge.last => self.precedes_or_is(
                Edge {
                    thread,
                    step,
                    last: true,
                },
                edge,
            ),
            Moment::After { thread, step } => self.precedes(
                Edge {
                    thread,
                    step,
                    last: true,
                },
                edge,
            ),
            Moment::End => false,
        }
    }

    /// Whether the order puts all that the untraced prefix writes before the moment.
    pub fn is_untraced_before(&self, m: Moment) -> bool
        requires { IsSoundCourse (course_in self.now) }
        ensures { result ≡ untraced_before (course_in self.now) (moment_named m) }
    {
        let edge = match m {
            Moment::Before { thread, step } => Edge {
                thread,
                step,
                last: false,
            },
            Moment::After { thread, step } => Edge {
                thread,
                step,
                last: true,
            },
            Moment::End => return true,
        };
        let begin = self.begin(edge);
        match self.run.untraced {
            Some(untraced) => untraced < begin,
            None => false,
        }
    }

    /// Whether the order puts the whole act before the moment.
    fn is_wholly_before(&self, act: Act, m: Moment) -> bool
        requires { IsSoundCourse (course_in self.now) }
        ensures { result ≡ wholly_before (course_in self.now) (act_named act) (moment_named m) }
    {
        match act {
            Act::Row { thread, step } => self.is_not_later(Moment::After { thread, step }, m),
            Act::Untraced => self.is_untraced_before(m),
        }
    }

    /// Whether the order puts the whole act after the moment.
    fn is_wholly_after(&self, act: Act, w: Moment) -> bool
        requires { IsSoundCourse (course_in self.now) }
        ensures { result ≡ wholly_after (course_in self.now) (act_named act) (moment_named w) }
    {
        match act {
            Act::Row { thread, step } => self.is_not_later(w, Moment::Before { thread, step }),
            Act::Untraced => false,
        }
    }

    /// Whether the moment is earlier than the other one. The run must be sound, and have the rows
    /// of both moments.
    pub fn earlier(&self, m: Moment, w: Moment) -> bool
        requires sound { IsSoundCourse (course_in self.now) }
        requires first { IsMoment (course_in self.now) (moment_named m) }
        requires second { IsMoment (course_in self.now) (moment_named w) }
        ensures { IsTrue result ↔ Earlier (course_in self.now) (moment_named m) (moment_named w) }
    {
        self.is_earlier(m, w)
    }

    /// Whether one of any two moments is earlier than the other one.
    fn is_earlier(&self, m: Moment, w: Moment) -> bool
        requires { IsSoundCourse (course_in self.now) }
        ensures { result ≡ is_earlier (course_in self.now) (moment_named m) (moment_named w) }
    {
        let order = self.is_not_later(m, w);
        let same = is_same_moment(m, w);
        order && !same
    }

    /// Whether the act may act between the two moments, if only in part. The run must be sound,
    /// have the rows of both moments and of the Act, and a time of the untraced prefix if the
    /// untraced prefix is asked for.
    pub fn may_act(&self, act: Act, m: Moment, w: Moment) -> bool
        requires sound { IsSoundCourse (course_in self.now) }
        requires act { IsAct (course_in self.now) (act_named act) }
        requires first { IsMoment (course_in self.now) (moment_named m) }
        requires second { IsMoment (course_in self.now) (moment_named w) }
        ensures { IsTrue result ↔ MayAct (course_in self.now) (act_named act) (stretch (moment_named m) (moment_named w)) }
    {
        self.may_act_between(act, m, w)
    }

    /// Whether any act may act between any two moments, if only in part.
    fn may_act_between(&self, act: Act, m: Moment, w: Moment) -> bool
        requires { IsSoundCourse (course_in self.now) }
        ensures { result ≡ may_act_between (course_in self.now) (act_named act) (moment_named m) (moment_named w) }
    {
        let before = self.is_wholly_before(act, m);
        let after = self.is_wholly_after(act, w);
        let room = self.has_room(act, m, w);
        !before && (!after && room)
    }

    /// Whether the moments aren't those of one row that is no call, or the act is that row.
    fn has_room(&self, act: Act, m: Moment, w: Moment) -> bool
        ensures { result ≡ has_room (course_in self.now) (act_named act) (moment_named m) (moment_named w) }
    {
        match m {
            Moment::Before { thread, step } => match w {
                Moment::After {
                    thread: other,
                    step: its,
                } => {
                    let call = self.calls(other, its);
                    let own = is_row(act, other, its);
                    !((thread == other && step == its) && !call) || own
                }
                Moment::Before { .. } => true,
                Moment::End => true,
            },
            Moment::After { .. } => true,
            Moment::End => true,
        }
    }
}

/// Whether the act is that row.
fn is_row(act: Act, thread: u32, step: u32) -> bool
    ensures { result ≡ is_row (act_named act) (row_of thread step) }
{
    match act {
        Act::Row {
            thread: own,
            step: its,
        } => own == thread && its == step,
        Act::Untraced => false,
    }
}

/// Whether the moments are the same.
fn is_same_moment(m: Moment, w: Moment) -> bool
    ensures { result ≡ same_moment (moment_named m) (moment_named w) }
{
    match m {
        Moment::Before { thread, step } => match w {
            Moment::Before {
                thread: other,
                step: its,
            } => thread == other && step == its,
            Moment::After { .. } => false,
            Moment::End => false,
        },
        Moment::After { thread, step } => match w {
            Moment::After {
                thread: other,
                step: its,
            } => thread == other && step == its,
            Moment::Before { .. } => false,
            Moment::End => false,
        },
        Moment::End => match w {
            Moment::End => true,
            Moment::Before { .. } => false,
            Moment::After { .. } => false,
        },
    }
}
