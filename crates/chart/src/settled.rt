// Settled charts, which answer questions for good and are read.
ghost use Rattle.std.specs.Prelude.{◌≡◌, true, length, IfOk};
ghost use Rattle.chart_model.specs.Plain.{stopped, missing_number, settled_answer};
ghost use Rattle.chart_model.specs.Reading.{reading_answer, reading_list};
ghost use Rattle.chart_model.specs.Saying.{SettledSays, ReadingSays};
ghost use Rattle.chart.specs.Refusals.{settled_number, reading_number, by_number};
ghost use Rattle.chart.specs.View.{room, IsFinished};
ghost use Rattle.chart.specs.Working as inner;

use crate::listing::Listing;
use crate::refusal::{ReadingRefusal, SettledRefusal};
use crate::walk::FinishedAt;
use crate::working::WorkingChart;
use chart_model::node::Node;
use chart_model::phrase::Phrase;
use chart_model::place::Entry;
use grammar::Grammar;
use lattice::Lattice;
use weighing::Weighing;

/// A chart at which every step would be refused, as `settle` leaves it.
#[derive(Drop)]
pub struct SettledChart<G: Grammar, L: Lattice, W: Weighing> {
    pub(crate) working: WorkingChart<G, L, W>,
    pub ghost stopped: { stopped (inner.task working) (inner.chart working) ≡ true },
}

impl<G: Grammar, L: Lattice, W: Weighing> SettledChart<G, L, W> {
    ghost use Rattle.chart.specs.Settled.{task, chart};
    ghost use Rattle.chart.specs.Finding.{found_answer};

    // The refusal of an edge that is not finished.
    fn missing(&self) -> SettledRefusal
        ensures { settled_number result ≡ missing_number (chart self.now) }
    {
        if self.working.table.is_full() {
            SettledRefusal::Full
        } else {
            SettledRefusal::NoDerivation
        }
    }

    // The entry of a phrase's edge, if that is finished.
    fn finished(&self, phrase: Phrase) -> Result<Entry, SettledRefusal>
        ensures found { by_number settled_number result
            ≡ found_answer (task self.now) (chart self.now) phrase }
        ensures finished { IfOk result (λ s. IsFinished (chart self.now) s.at) }
    {
        let last = self.working.setting.lattice.last_node();
        let edge = phrase.edge_within(last).ok_or(SettledRefusal::NoSpan)?;
        self.working
            .table
            .finished_entry_of(edge)
            .ok_or(self.missing())
    }

    /// The weight of a phrase's lightest derivation. Refused with 7 if the lattice has no such span, with 9 if there is no
    /// derivation, and with 10 if the chart is full and has not finished the edge.
    pub fn question(&self, phrase: Phrase) -> Result<u64, SettledRefusal>
        ensures answer { by_number settled_number result
            ≡ settled_answer (task self.now) (chart self.now) phrase }
        ensures says { SettledSays (task self.now) room (chart self.now) phrase
            (by_number settled_number result) }
    {
        Ok(self.finished(phrase)?.weight)
    }

    /// The pre-order of a phrase's lightest derivation, over the front of a list; answers its length. Refused with 7, 9 or
    /// 10 like a question, the list untouched; with 12 for more nodes than room, the list then a prefix of the pre-order.
    pub fn reading(&self, phrase: Phrase, nodes: &mut [Node]) -> Result<usize, ReadingRefusal>
        ensures answer { by_number reading_number result
            ≡ reading_answer (task self.now) (chart self.now) phrase (length nodes.old) }
        ensures list { nodes.new ≡ reading_list (task self.now) (chart self.now) phrase nodes.old }
        ensures says { ReadingSays (task self.now) room (chart self.now) phrase nodes.old nodes.new
            (by_number reading_number result) }
    {
        let at = self.finished(phrase)?.at;
        let table = &self.working.table;
        let mut listing = Listing { nodes, filled: 0 };
        FinishedAt { table, at }.walk(&mut listing)?;
        Ok(listing.filled)
    }
}
