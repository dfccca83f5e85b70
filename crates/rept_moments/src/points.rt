//! The points of a run, their rows, and the times of these.

ghost use Rattle.std.specs.Prelude.{◌≡◌, ◌+◌, ◌<◌, ◌≤◌, ◌||◌, not, length, IfOk, OnOk};
ghost use Rattle.std.specs.Option.{is_some, IsSome};
ghost use Rattle.rept_steps.specs.Course.{row_at, row_of, rows_of, IsSoundCourse};
ghost use Rattle.rept_steps.specs.Runs.{course_of};
ghost use Rattle.rept_order.specs.Events.{event_slice};
ghost use Rattle.rept_order.specs.Legs.{points_before, leg_row};
ghost use Rattle.rept_order.specs.Moments.{stores};
ghost use Rattle.rept_order.specs.Ordered.{course_in};
ghost use Rattle.rept_order.specs.Runs.{edge_event, moment_named};
ghost use Rattle.rept_order.specs.Times.{begin_of, untraced_before, not_later};
ghost use Rattle.rept_moments.specs.Naming.Numbered.{row_on};
ghost use Rattle.rept_moments.specs.Begins.{stands_by};
ghost use Rattle.rept_moments.specs.Edges.{edges_at, edges_in, times_at};
ghost use Rattle.rept_moments.specs.Merging.{untraced_from};
ghost use Rattle.rept_moments.specs.Ordering.{event_at, moment_at_side};
ghost use Rattle.rept_moments.specs.Points.{by_point, place_on, points_in};
ghost use Rattle.rept_moments.specs.Writers.{end_of};

use crate::side::{PointOfThread, PointSide};
use crate::writing::writes_memory;
use rept_isa::StepRow;
use rept_order::{Edge, Moment, Order};
use rept_steps::Run;
use std::alloc::{AllocError as OutOfMemory, Global};
use std::marker::Model;

/// The points of a run, thread by thread: the points of a thread are before each of its rows, and
/// after the last one. Contracts see the course of the run.
#[derive(Drop)]
pub struct Points<'a> {
    run: &'a Run,
    places: Vec<PointOfThread>,
    /// the first point of each thread
    starts: Vec<u32>,
    /// of each point
    edges: Vec<Edges>,
}

/// The time before which a moment of a row doesn't come, and the end of its slice, where it is in
/// one.
#[derive(Clone, Copy)]
pub struct Times {
    pub begin: u64,
    pub end: Option<u64>,
}

/// The times of the moment before a row, and of that after it, and whether the row writes memory,
/// whatever is known of it.
#[derive(Clone, Copy)]
pub struct Edges {
    pub before: Times,
    pub after: Times,
    pub stores: bool,
}

impl<'a> Model for Points<'a> {
    ghost use Rattle.rept_steps.specs.Course.{Course};
    ghost use Rattle.rept_steps.specs.Runs.{course_of};
    ghost use Rattle.rept_moments.specs.Edges.{ArePoints};

    ghost Value = { Course };

    ghost view = { λ p. course_of p.run.now };

    ghost invariant = { λ p. ArePoints (course_of p.run.now) p.places.items p.starts.items p.edges.items };
}

/// How many rows a thread has.
pub fn row_count(run: &Run, thread: usize) -> u32
    requires { thread < length run.now.threads }
    ensures value { result ≡ length (rows_of (course_of run.now) thread) }
    ensures few { result ≤ 65536 }
{
    run.threads.all()[thread].steps.len()
}

/// Adds the points of a thread.
fn add_thread(places: &mut Vec<PointOfThread>, run: &Run, thread: usize) -> Result<(), OutOfMemory>
    requires inside { thread < length run.now.threads }
    requires few { length run.now.threads ≤ 66560 }
    requires before { places.old.items ≡ by_point (place_on (course_of run.now)) (points_before run.now.threads thread) }
    ensures { OnOk result (places.new.items ≡ by_point (place_on (course_of run.now)) (points_before run.now.threads (thread + 1))) }
{
    let rows = row_count(run, thread);
    for step in 0..rows + 1 {
        places.push(PointOfThread {
            thread: thread as u32,
            step,
        })?;
    }
    Ok(())
}

/// The points of all threads.
fn places(alloc: Global, run: &Run) -> Result<Vec<PointOfThread>, OutOfMemory>
    requires { length run.now.threads ≤ 66560 }
    ensures { IfOk result (λ v. v.items ≡ by_point (place_on (course_of run.now)) (points_in (course_of run.now))) }
{
    let mut places = Vec::new(alloc);
    for thread in 0..run.threads.all().len() {
        add_thread(&mut places, run, thread)?;
    }
    Ok(places)
}

/// The first point of each thread.
fn starts(alloc: Global, run: &Run) -> Result<Vec<u32>, OutOfMemory>
    requires { points_in (course_of run.now) ≤ 66560 }
    ensures { IfOk result (λ v. v.items ≡ by_point (points_before run.now.threads) (length run.now.threads)) }
{
    let mut starts = Vec::new(alloc);
    let mut point = 0;
    for thread in 0..run.threads.all().len() {
        let rows = row_count(run, thread);
        starts.push(point)?;
        point += rows + 1;
    }
    Ok(starts)
}

/// The row that leads from the point, if one does.
fn row_from(run: &Run, place: PointOfThread) -> Option<StepRow>
    ensures { result ≡ row_at (course_of run.now) (row_of place.thread place.step) }
{
    match run.threads.all().get(place.thread as usize) {
        Some(rows) => match rows.steps.rows().get(place.step as usize) {
            Some(row) => Some(*row),
            None => None,
        },
        None => None,
    }
}

/// The times of a row's first event, or of its last one.
fn times_of(order: Order<'_>, edge: Edge) -> Times
    requires { IsSoundCourse (course_in order) }
    ensures begin { result.begin ≡ begin_of (course_in order.entry) (edge_event (course_in order.entry) edge) }
    ensures end { result.end ≡ end_of (event_slice (course_in order.entry) (edge_event (course_in order.entry) edge)) }
{
    Times {
        begin: order.begin(edge),
        end: match order.slice(edge) {
            Some(slice) => Some(slice.end),
            None => None,
        },
    }
}

/// Whether the row that leads from a point, if one does, writes memory, whatever is known of it.
fn stores_at(run: &Run, place: PointOfThread) -> bool
    ensures { result ≡ stores (course_of run.now) (row_of place.thread place.step) }
{
    match row_from(run, place) {
        Some(row) => writes_memory(row.instr),
        None => false,
    }
}

/// The times of both moments of the row that leads from a point, and whether it writes memory.
fn edges_of(run: &Run, order: Order<'_>, place: PointOfThread) -> Edges
    requires sound { IsSoundCourse (course_in order) }
    requires run { course_in order ≡ course_of run.now }
    ensures { result ≡ edges_in (course_in order.entry) place }
{
    let PointOfThread { thread, step } = place;
    Edges {
        stores: stores_at(run, place),
        before: times_of(
            order,
            Edge {
                thread,
                step,
                last: false,
            },
        ),
        after: times_of(
            order,
            Edge {
                thread,
                step,
                last: true,
            },
        ),
    }
}

/// The times of all moments of rows, by points.
fn edge_times(
    alloc: Global,
    run: &Run,
    order: Order<'_>,
    places: &[PointOfThread],
) -> Result<Vec<Edges>, OutOfMemory>
    requires sound { IsSoundCourse (course_in order) }
    requires run { course_in order ≡ course_of run.now }
    requires places { places.now ≡ by_point (place_on (course_in order)) (points_in (course_in order)) }
    ensures { IfOk result (λ v. v.items ≡ by_point (edges_at (course_in order.entry)) (points_in (course_in order.entry))) }
{
    let mut edges = Vec::new(alloc);
    for place in places {
        edges.push(edges_of(run, order, *place))?;
    }
    Ok(edges)
}

/// Whether the one moment of a thread is the other one, or comes before it.
fn stands_by(one: PointSide, other: PointSide) -> bool
    ensures { result ≡ stands_by one other }
{
    if one.point == other.point {
        other.is_after || !one.is_after
    } else {
        one.point < other.point
    }
}

impl<'a> Points<'a> {
    /// The points of a sound run that has at most 65,536 rows and 1,024 threads. It takes memory
    /// for one entry a point.
    pub fn new(alloc: Global, run: &'a Run) -> Result<Points<'a>, OutOfMemory>
        requires sound { IsSoundCourse (course_of run.now) }
        requires few { points_in (course_of run.now) ≤ 66560 }
        ensures { IfOk result (λ p. p ≡ course_of run.now) }
    {
        let places = places(alloc, run)?;
        let starts = starts(alloc, run)?;
        let edges = edge_times(alloc, run, Order::new(run), places.as_slice())?;
        Ok(Points {
            run,
            places,
            starts,
            edges,
        })
    }

    /// How many points there are.
    pub fn count(&self) -> u32
        ensures value { result ≡ points_in self.now }
        ensures few { result ≤ 66560 }
        ensures sound { IsSoundCourse self.now }
    {
        self.places.as_slice().len() as u32
    }

    /// The thread and the number in it.
    pub fn place(&self, point: u32) -> PointOfThread
        requires { point < points_in self.now }
        ensures row { row_of result.thread result.step ≡ row_on self.now point }
        ensures value { result ≡ place_on self.now point }
    {
        let places = self.places.as_slice();
        places[point as usize]
    }

    /// How many threads there are.
    pub fn threads(&self) -> u32
        ensures value { result ≡ length self.now.threads }
        ensures sound { IsSoundCourse self.now }
    {
        let starts = self.starts.as_slice();
        starts.len() as u32
    }

    /// The first point of a thread.
    pub fn first(&self, thread: u32) -> u32
        requires { thread < length self.now.threads }
        ensures { result ≡ points_before self.now.threads thread }
    {
        let starts = self.starts.as_slice();
        starts[thread as usize]
    }

    /// How many rows a thread has.
    pub fn rows(&self, thread: u32) -> u32
        requires { thread < length self.now.threads }
        ensures value { result ≡ length (rows_of self.now thread) }
        ensures inside { points_before self.now.threads thread + result < points_in self.now }
        ensures few { points_in self.now ≤ 66560 }
        ensures sound { IsSoundCourse self.now }
    {
        row_count(self.run, thread as usize)
    }

    /// The thread.
    pub fn thread(&self, point: u32) -> u32
        requires { point < points_in self.now }
        ensures { result ≡ (row_on self.now point).thread }
    {
        self.place(point).thread
    }

    /// The row that leads from the point, if one does.
    pub fn row(&self, point: u32) -> Option<StepRow>
        ensures { result ≡ leg_row self.now point }
    {
        match self.places.get(point as usize) {
            Some(place) => row_from(self.run, *place),
            None => None,
        }
    }

    /// Whether a row leads from the point.
    pub fn leads(&self, point: u32) -> bool
        ensures { result ≡ is_some (leg_row self.now point) }
    {
        self.row(point).is_some()
    }

    /// The point after one from which a row leads.
    pub fn next(&self, point: u32) -> u32
        requires { IsSome (leg_row self.now point) }
        ensures { result ≡ point + 1 }
    {
        let _ = &self.places;
        point + 1
    }

    /// Whether the row that leads from the point, if one does, writes memory, whatever is known of
    /// it.
    pub fn stores(&self, point: u32) -> bool
        ensures { result ≡ stores self.now (row_on self.now point) }
    {
        match self.edges.get(point as usize) {
            Some(edges) => edges.stores,
            None => false,
        }
    }

    /// The moment before or after a row.
    pub fn moment(&self, side: PointSide) -> Moment
        requires { side.point < points_in self.now }
        ensures { moment_named result ≡ moment_at_side self.now side }
    {
        let PointOfThread { thread, step } = self.place(side.point);
        if side.is_after {
            Moment::After { thread, step }
        } else {
            Moment::Before { thread, step }
        }
    }

    /// The times of a moment.
    fn times(&self, side: PointSide) -> Times
        requires { side.point < points_in self.now }
        ensures { result ≡ times_at self.now side }
    {
        let edges = self.edges.as_slice();
        let its = edges[side.point as usize];
        if side.is_after { its.after } else { its.before }
    }

    /// The time before which the moment doesn't come.
    pub fn begin(&self, side: PointSide) -> u64
        requires { side.point < points_in self.now }
        ensures { result ≡ begin_of self.now (event_at self.now side) }
    {
        self.times(side).begin
    }

    /// The end of its slice, where it is in one.
    pub fn end(&self, side: PointSide) -> Option<u64>
        requires { side.point < points_in self.now }
        ensures { result ≡ end_of (event_slice self.now (event_at self.now side)) }
    {
        self.times(side).end
    }

    /// Whether a moment of a row isn't later than another one: of one thread by their places, of
    /// two by the times of their slices.
    pub fn is_not_later(&self, one: PointSide, other: PointSide) -> bool
        requires one { IsSome (leg_row self.now one.point) }
        requires other { IsSome (leg_row self.now other.point) }
        ensures { result ≡ not_later self.now (moment_at_side self.now one) (moment_at_side self.now other) }
    {
        let _ = &self.edges;
        if self.thread(one.point) == self.thread(other.point) {
            return stands_by(one, other);
        }
        match self.end(one) {
            Some(end) => end < self.begin(other),
            None => false,
        }
    }

    /// Whether there are writers that aren't told.
    pub fn is_untraced(&self) -> bool
        ensures { result ≡ is_some self.now.untraced }
    {
        self.run.untraced.is_some()
    }

    /// Whether all that isn't told, if there is any, happens before a moment of a row.
    pub fn is_untraced_past(&self, side: PointSide) -> bool
        requires { side.point < points_in self.now }
        ensures { result ≡ (not (is_some self.now.untraced) || untraced_before self.now (moment_at_side self.now side)) }
    {
        match self.run.untraced {
            Some(untraced) => untraced < self.begin(side),
            None => true,
        }
    }

    /// Whether something that isn't told may happen at the time or later.
    pub fn is_untraced_from(&self, time: u64) -> bool
        ensures { result ≡ untraced_from self.now time }
    {
        match self.run.untraced {
            Some(untraced) => time <= untraced,
            None => false,
        }
    }
}
