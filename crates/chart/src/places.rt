// The places of a chart in an array of fixed size.
ghost use Rattle.std.specs.Prelude.{◌≡◌, ◌+◌, ◌<◌, ◌≤◌, IfSome, nat_eq, length};
ghost use Rattle.std.specs.List.{slice_get};
ghost use Rattle.std.specs.Option.{option_copied};
ghost use Rattle.chart_model.specs.Plain.{blank, lighter_of, finishing, place_of};
ghost use Rattle.chart.specs.View.{room, view, put, improve, lightest_in, arrived};

use chart_model::edge::Edge;
use chart_model::place::{Arrival, Entry, Place};
use weighing::Weighing;

// The capacity of a chart, in edges.
pub(crate) const ROOM: usize = 1024;

// The first `taken` slots are places, in the order of arrival; `finished` counts the finished ones, and `full` says that an
// edge was dropped. That `taken` is within the room is kept by `Table`.
#[derive(Drop)]
pub(crate) struct Places {
    pub(crate) slots: [Place; ROOM],
    pub(crate) taken: usize,
    pub(crate) full: bool,
    pub(crate) finished: u16,
}

// The lighter of two open edges, the former in a tie.
fn lighter_of<W: Weighing>(weighing: &W, best: Option<Entry>, edge: Entry) -> Option<Entry>
    ensures { result ≡ lighter_of (W.weights weighing.now).lighter best edge }
{
    match best {
        Some(best) if !weighing.is_lighter(edge.weight, best.weight) => Some(best),
        Some(_) => Some(edge),
        None => Some(edge),
    }
}

impl Places {
    // All slots free.
    pub(crate) fn none() -> Self
        ensures view { view result ≡ blank }
        ensures taken { result.taken ≡ 0 }
    {
        Places {
            slots: [Place::default(); ROOM],
            taken: 0,
            full: false,
            finished: 0,
        }
    }

    // The taken places, by their numbers.
    pub(crate) fn taken_places(&self) -> &[Place]
        requires { self.now.taken ≤ room }
        ensures { result.now ≡ (view self.now).places }
    {
        &self.slots[..self.taken]
    }

    // The place of a number; none if it is not taken.
    pub(crate) fn at(&self, n: usize) -> Option<&Place>
        requires { self.now.taken ≤ room }
        ensures place { option_copied result ≡ slice_get (view self.now).places n }
        ensures within { IfSome result (λ _. n < room) }
    {
        self.taken_places().get(n)
    }

    // The number of an edge's place.
    pub(crate) fn find(&self, edge: Edge) -> Option<usize>
        requires { self.now.taken ≤ room }
        ensures place { result ≡ place_of edge (view self.now).places }
        ensures within { IfSome result (λ at. at < self.now.taken) }
    {
        self.taken_places().iter().position(|place| {
            // Copied first, an edge is compared at once, and not field by field.
            let found = place.edge;
            found == edge
        })
    }

    // The head of the agenda: the lightest open edge; ties go to the lower number.
    pub(crate) fn lightest<W: Weighing>(&self, weighing: &W) -> Option<Entry>
        requires { self.now.taken ≤ room }
        ensures { result ≡ lightest_in (W.weights weighing.now) (view self.now) }
    {
        let mut best = None;
        for (at, place) in self.taken_places().iter().enumerate() {
            if place.is_open() {
                // The number of a place fits 16 bits.
                best = lighter_of(weighing, best, place.entry(at as u16));
            }
        }
        best
    }

    // Whether all slots are taken.
    fn is_used_up(&self) -> bool
        requires { self.now.taken ≤ room }
        ensures taken { result ≡ nat_eq self.now.taken room }
        ensures places { length (view self.now).places ≡ self.now.taken }
    {
        self.taken_places().len() == ROOM
    }

    // Takes the next slot for a new edge.
    fn put(&mut self, arrival: Arrival)
        requires { self.old.taken < room }
        ensures view { view self.new ≡ put (view self.old) arrival }
        ensures taken { self.new.taken ≡ self.old.taken + 1 }
    {
        self.slots[self.taken] = Place::from(arrival);
        self.taken += 1;
    }

    // Decreases the key of the edge at a place.
    fn improve(&mut self, at: usize, arrival: Arrival)
        requires within { at < self.old.taken }
        requires room { self.old.taken ≤ room }
        ensures view { view self.new ≡ improve (view self.old) at arrival }
        ensures taken { self.new.taken ≡ self.old.taken }
    {
        self.slots[at].lighten(arrival);
    }

    // Finishes the edge at a place, which gets the next number.
    pub(crate) fn finish(&mut self, at: usize)
        requires within { at < self.old.taken }
        requires room { self.old.taken ≤ room }
        requires numbers { self.old.finished < room }
        ensures view { view self.new ≡ finishing (view self.old) at }
        ensures taken { self.new.taken ≡ self.old.taken }
    {
        self.finished += 1;
        self.slots[at].finish(self.finished);
    }

    // An arrival: inserts a new edge, or makes an open one lighter. A full chart takes none.
    pub(crate) fn arrive<W: Weighing>(&mut self, weighing: &W, arrival: Arrival)
        requires { self.old.taken ≤ room }
        ensures view { view self.new ≡ arrived (W.weights weighing.now) (view self.old) arrival }
        ensures taken { self.new.taken ≤ room }
    {
        if self.full {
            return;
        }
        match self.find(arrival.edge) {
            Some(at) if !self.slots[at].is_open() => {}
            Some(at) if weighing.is_lighter(arrival.weight, self.slots[at].weight) => {
                self.improve(at, arrival)
            }
            Some(_) => {}
            None if self.is_used_up() => self.full = true,
            None => self.put(arrival),
        }
    }
}
