// What a run leaves.
ghost use Rattle.std.specs.Prelude.{◌≡◌};
ghost use Rattle.chart_model.specs.Plain.{carried};

use crate::setting::Setting;
use crate::working::WorkingChart;
use chart_model::edge::Edge;
use grammar::Grammar;
use lattice::Lattice;
use weighing::Weighing;

/// A chart after its last call, settled or not. It takes no more calls.
#[derive(Drop)]
pub struct Outcome<G: Grammar, L: Lattice, W: Weighing> {
    pub(crate) chart: WorkingChart<G, L, W>,
}

impl<G: Grammar, L: Lattice, W: Weighing> Outcome<G, L, W> {
    ghost use Rattle.chart.specs.Outcomes.{setting_of, chart};

    /// The weight of an edge, passive or active; none if it is not finished.
    pub fn weight(&self, edge: Edge) -> Option<u64>
        ensures { result ≡ carried edge (chart self.now).places }
    {
        self.chart.table.carried(edge)
    }

    /// How many edges are finished, at most 1,024.
    pub fn finished(&self) -> u16
        ensures { result ≡ (chart self.now).finished }
    {
        self.chart.table.count()
    }

    /// Whether the chart is full: an edge has been dropped for want of a place.
    pub fn is_full(&self) -> bool
        ensures { result ≡ (chart self.now).full }
    {
        self.chart.table.is_full()
    }

    /// Gives back the grammar, the lattice and the weighing.
    pub fn into_setting(self) -> Setting<G, L, W>
        ensures { result ≡ setting_of self }
    {
        let WorkingChart { setting, .. } = self.chart;
        setting
    }
}
