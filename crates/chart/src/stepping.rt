// Steps: the lightest open edge is finished, and its conclusions arrive.
ghost use Rattle.std.specs.Prelude.{◌≡◌, true};
ghost use Rattle.chart_model.specs.Plain.{count_unless_full, step, step_answer, stopped, settled};
ghost use Rattle.chart.specs.Bringing.{met_at, BringsFinished, FollowingArrived};
ghost use Rattle.chart.specs.View.{room, IsFinished};
ghost use Rattle.chart.specs.Charts.{held};
ghost use Rattle.chart.specs.Settings.{task};
ghost use Rattle.chart.specs.Refusals.{step_number, by_number};

use crate::refusal::StepRefusal;
use crate::setting::Setting;
use crate::table::Table;
use chart_model::place::{Arrival, Entry};
use grammar::Grammar;
use lattice::Lattice;
use weighing::Weighing;

// How many edges are finished; refused with 10 at a full chart.
fn count_unless_full(table: &Table) -> Result<u16, StepRefusal>
    ensures { by_number step_number result ≡ count_unless_full (held table.now) }
{
    if table.is_full() {
        return Err(StepRefusal::Full);
    }
    Ok(table.count())
}

impl<G: Grammar, L: Lattice, W: Weighing> Setting<G, L, W> {
    // The fundamental rule between the edge just finished and that at a place, if it is finished too.
    fn meet_at(&self, table: &Table, at: usize, finished: Entry) -> Option<Arrival>
        ensures brings { result ≡ met_at (task self.now) finished (held table.now).places at }
        ensures finished { IsFinished (held table.now) finished.at →
            BringsFinished (held table.now) result }
    {
        let other = table.finished_entry_at(at)?;
        self.meet(other, finished)
    }

    // The conclusions with the edge just finished arrive: rule starts first, then the fundamental rule, each in order.
    fn spread(&self, table: &mut Table, finished: Entry)
        requires { IsFinished (held table.old) finished.at }
        ensures { FollowingArrived (task self.now) finished table.old table.new }
    {
        // The number of a rule fits 8 bits.
        self.bring_each(
            table,
            self.grammar.len(),
            |_, rule| self.begin(rule as u8, finished),
        );
        let places = table.len();
        self.bring_each(table, places, |table, at| self.meet_at(table, at, finished));
    }

    // One step. Refused with 11 if nothing is open, and with 10 by a chart that is full before or after it.
    pub(crate) fn advance(&self, table: &mut Table) -> Result<u16, StepRefusal>
        ensures view { held table.new ≡ step (task self.now) room (held table.old) }
        ensures answer { by_number step_number result
            ≡ step_answer (task self.now) room (held table.old) }
    {
        count_unless_full(table)?;
        let finished = table
            .finish_lightest(&self.weighing)
            .ok_or(StepRefusal::NothingOpen)?;
        self.spread(table, finished);
        count_unless_full(table)
    }

    // Takes steps until one is refused.
    pub(crate) fn advance_all(&self, table: &mut Table)
        ensures settled { held table.new ≡ settled (task self.now) room (held table.old) }
        ensures stopped { stopped (task self.now) (held table.new) ≡ true }
    {
        while self.advance(table).is_ok() {}
    }
}
