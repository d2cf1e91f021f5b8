// Working charts, which take steps and can be settled.
ghost use Rattle.std.specs.Prelude.{◌≡◌, true, Err};
ghost use Rattle.chart_model.specs.Plain.{opened, step as plain_step, step_answer, settled};
ghost use Rattle.chart_model.specs.Plain.{stopped, stop_number, working_answer};
ghost use Rattle.chart_model.specs.Stands.{Reachable, Fits, Stands, Complete};
ghost use Rattle.chart_model.specs.Saying.{WorkingSays};
ghost use Rattle.chart.specs.View.{room};
ghost use Rattle.chart.specs.Charts.{held};
ghost use Rattle.chart.specs.Refusals.{step_number, question_number, by_number};
ghost use Rattle.chart.specs.Settings as settings;

use crate::refusal::{QuestionRefusal, StepRefusal};
use crate::setting::Setting;
use crate::settled::SettledChart;
use crate::table::Table;
use chart_model::phrase::Phrase;
use grammar::Grammar;
use lattice::Lattice;
use weighing::Weighing;

/// An affine chart of 1,024 places that still takes steps.
#[derive(Drop)]
pub struct WorkingChart<G: Grammar, L: Lattice, W: Weighing> {
    pub(crate) setting: Setting<G, L, W>,
    pub(crate) table: Table,
    pub ghost reachable: { ∥ Reachable (settings.task setting) (held table) ∥₁ },
    // No more places are taken than there are, and all of them if the chart is full.
    pub ghost fits: { Fits room (held table) },
}

impl<G: Grammar, L: Lattice, W: Weighing> WorkingChart<G, L, W> {
    ghost use Rattle.chart.specs.Working.{setting_of, task, chart};
    ghost use Rattle.chart.specs.Settled as final;

    /// Opens a chart: the axioms arrive, words and then empty rules. Never refused; the chart may be full at once.
    pub fn open(setting: Setting<G, L, W>) -> Self
        ensures setting { setting_of result ≡ setting }
        ensures opened { chart result ≡ opened (task result) room }
        ensures stands { Stands (task result) (chart result) }
    {
        let mut table = Table::new();
        setting.word_arrivals(&mut table);
        setting.node_arrivals(&mut table);
        WorkingChart { setting, table }
    }

    /// Pops the agenda and adds its conclusions; answers the count of finished edges. Refused with 11 by an empty agenda,
    /// and with 10 by a chart that is full before it or by it; nothing is undone then.
    pub fn step(&mut self) -> Result<u16, StepRefusal>
        ensures stepped { chart self.new ≡ plain_step (task self.old) room (chart self.old) }
        ensures answer { by_number step_number result
            ≡ step_answer (task self.old) room (chart self.old) }
        ensures stands { Stands (task self.new) (chart self.new) }
        ensures setting { setting_of self.new ≡ setting_of self.old }
    {
        self.setting.advance(&mut self.table)
    }

    /// The weight of a phrase, if its edge is finished. Refused with 7 if the lattice has no such span, else with 8 if the
    /// edge is not finished.
    pub fn question(&self, phrase: Phrase) -> Result<u64, QuestionRefusal>
        ensures answer { by_number question_number result
            ≡ working_answer (task self.now) (chart self.now) phrase }
        ensures says { WorkingSays (task self.now) (chart self.now) phrase
            (by_number question_number result) }
    {
        let last = self.setting.lattice.last_node();
        let edge = phrase.edge_within(last).ok_or(QuestionRefusal::NoSpan)?;
        self.table.carried(edge).ok_or(QuestionRefusal::NotFinished)
    }

    // Takes steps until one is refused.
    fn exhaust(&mut self)
        ensures settled { chart self.new ≡ settled (task self.old) room (chart self.old) }
        ensures stopped { stopped (task self.new) (chart self.new) ≡ true }
        ensures setting { setting_of self.new ≡ setting_of self.old }
    {
        self.setting.advance_all(&mut self.table);
    }

    /// Steps until the agenda is empty or the chart full, which takes at most 1,024 steps. Never refused.
    pub fn settle(mut self) -> SettledChart<G, L, W>
        ensures settled { final.chart result ≡ settled (task self) room (chart self) }
        ensures refuses { step_answer (task self) room (final.chart result)
            ≡ Err (stop_number (final.chart result)) }
        ensures stands { Stands (task self) (final.chart result) }
        ensures complete { Complete (task self) room (final.chart result) }
        ensures setting { final.setting_of result ≡ setting_of self }
    {
        self.exhaust();
        SettledChart { working: self }
    }
}
