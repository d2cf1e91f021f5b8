// From opening to an answer in one call.
ghost use Rattle.std.specs.Prelude.{◌≡◌};
ghost use Rattle.chart.specs.Settings.{task};
ghost use Rattle.chart.specs.Refusals.{settled_number, by_number};
ghost use Rattle.chart.specs.Saying.{weigh_answer, WeighedSays};

use crate::refusal::SettledRefusal;
use crate::setting::Setting;
use crate::working::WorkingChart;
use chart_model::phrase::Phrase;
use grammar::Grammar;
use lattice::Lattice;
use weighing::Weighing;

/// Opens and settles a chart, and answers the weight of a phrase's lightest derivation. Refused with 7 if the lattice has
/// no such span, with 9 if there is no derivation, and with 10 if the chart is full and has not finished the edge.
pub fn weigh<G: Grammar + Drop, L: Lattice + Drop, W: Weighing + Drop>(
    setting: Setting<G, L, W>,
    phrase: Phrase,
) -> Result<u64, SettledRefusal>
    ensures answer { by_number settled_number result ≡ weigh_answer (task setting) phrase }
    ensures says { WeighedSays (task setting) phrase (by_number settled_number result) }
{
    let chart = WorkingChart::open(setting).settle();
    chart.question(phrase)
}
