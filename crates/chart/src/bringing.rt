// The loop by which numbered things bring arrivals to a table.
ghost use Rattle.std.specs.Prelude.{◌<◌, ℕ};
ghost use Rattle.std.specs.Borrow.{Bor};
ghost use Rattle.chart.specs.declared.table.Table.{Table};
ghost use Rattle.chart.specs.Bringing.{AllBringFinished, Brought};

use crate::setting::Setting;
use crate::table::Table;
use chart_model::place::Arrival;
use grammar::Grammar;
use lattice::Lattice;
use weighing::Weighing;

impl<G: Grammar, L: Lattice, W: Weighing> Setting<G, L, W> {
    // For each number below a count, in order, the arrival that `brings` gives for the table as it is by then.
    pub(crate) fn bring_each<F: Fn(&Table, usize) -> Option<Arrival>>(
        &self,
        table: &mut Table,
        count: usize,
        brings: F,
    )
        requires callable { (t : Bor Table) (n : ℕ) → n < count → F.pre brings t n }
        requires finished { AllBringFinished (F.post brings) (W.weights self.now.weighing) count
            table.old }
        ensures { Brought (F.post brings) (W.weights self.now.weighing) count table.old table.new }
    {
        for n in 0..count {
            if let Some(arrival) = brings(table, n) {
                table.arrive(&self.weighing, arrival);
            }
        }
    }
}
