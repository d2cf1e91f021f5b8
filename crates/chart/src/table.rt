// Tables: places in which premises are finished before their conclusions.
ghost use Rattle.std.specs.Prelude.{◌≡◌, ◌≤◌, true, length, IfSome, Some};
ghost use Rattle.std.specs.List.{slice_get};
ghost use Rattle.chart_model.specs.Plain.{blank, done, carried as carried_plain};
ghost use Rattle.chart_model.specs.Origins.{orderly};
ghost use Rattle.chart.specs.View.{room, view, finished_entry_at, finished_entry_of};
ghost use Rattle.chart.specs.View.{lightest_in, arrived, finishing_next, IsFinished, NamesFinished};

use crate::places::Places;
use chart_model::edge::Edge;
use chart_model::place::{Arrival, Entry, Place};
use weighing::Weighing;

// By `orderly` a walk along origins ends: each premise was finished before its conclusion.
#[derive(Drop)]
pub(crate) struct Table {
    places: Places,
    ghost taken: { places.full ≡ true → room ≤ length (view places).places },
    ghost room: { places.taken ≤ room },
    ghost counted: { done (view places).places ≡ places.finished },
    ghost orderly: { orderly (view places) ≡ true },
}

impl Table {
    ghost use Rattle.chart.specs.Charts.{held};

    // The empty table.
    pub(crate) fn new() -> Self
        ensures { held result ≡ blank }
    {
        let places = Places::none();
        Table { places }
    }

    // Whether an edge was dropped for want of a place.
    pub(crate) fn is_full(&self) -> bool
        ensures { result ≡ (held self.now).full }
    {
        self.places.full
    }

    // How many edges are finished.
    pub(crate) fn count(&self) -> u16
        ensures { result ≡ (held self.now).finished }
    {
        self.places.finished
    }

    // How many places are taken.
    pub(crate) fn len(&self) -> usize
        ensures { result ≡ length (held self.now).places }
    {
        self.places.taken_places().len()
    }

    // The entry of a place, if it is finished.
    pub(crate) fn finished_entry_at(&self, at: usize) -> Option<Entry>
        ensures answer { result ≡ finished_entry_at (held self.now).places at }
        ensures finished { IfSome result (λ s. IsFinished (held self.now) s.at) }
    {
        let place = self.places.at(at)?;
        place.rank?;
        // The number of a place fits 16 bits.
        Some(place.entry(at as u16))
    }

    // The place of a finished edge.
    pub(crate) fn place(&self, at: u16) -> Place
        requires { IsFinished (held self.now) at }
        ensures { slice_get (held self.now).places at ≡ Some result }
    {
        self.places.slots[usize::from(at)]
    }

    // The entry of an edge, if it is finished.
    pub(crate) fn finished_entry_of(&self, edge: Edge) -> Option<Entry>
        ensures answer { result ≡ finished_entry_of edge (held self.now).places }
        ensures finished { IfSome result (λ s. IsFinished (held self.now) s.at) }
    {
        self.finished_entry_at(self.places.find(edge)?)
    }

    // The weight of a finished edge.
    pub(crate) fn carried(&self, edge: Edge) -> Option<u64>
        ensures { result ≡ carried_plain edge (held self.now).places }
    {
        Some(self.finished_entry_of(edge)?.weight)
    }

    // An arrival, whose premises have to be finished.
    pub(crate) fn arrive<W: Weighing>(&mut self, weighing: &W, arrival: Arrival)
        requires { NamesFinished (held self.old) arrival }
        ensures { held self.new ≡ arrived (W.weights weighing.now) (held self.old) arrival }
    {
        self.places.arrive(weighing, arrival);
    }

    // Pops the agenda: finishes the lightest open edge, in a tie the one with the lower place.
    pub(crate) fn finish_lightest<W: Weighing>(&mut self, weighing: &W) -> Option<Entry>
        ensures lightest { result ≡ lightest_in (W.weights weighing.now) (held self.old) }
        ensures view { held self.new ≡ finishing_next (held self.old) result }
        ensures finished { IfSome result (λ s. IsFinished (held self.new) s.at) }
    {
        let lightest = self.places.lightest(weighing)?;
        self.places.finish(usize::from(lightest.at));
        Some(lightest)
    }
}
