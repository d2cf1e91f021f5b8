// From opening to a reading in one call.
ghost use Rattle.std.specs.Prelude.{◌≡◌, length};
ghost use Rattle.chart.specs.Settings.{task};
ghost use Rattle.chart.specs.Refusals.{reading_number, by_number};
ghost use Rattle.chart.specs.Saying.{read_answer, read_list, ReadSays};

use crate::refusal::ReadingRefusal;
use crate::setting::Setting;
use crate::working::WorkingChart;
use chart_model::node::Node;
use chart_model::phrase::Phrase;
use grammar::Grammar;
use lattice::Lattice;
use weighing::Weighing;

/// What a reading in one call answers; its nodes are in the caller's list.
#[derive(Clone, Copy, PartialEq, Eq, Debug)]
pub struct Listed {
    /// The weight of the derivation that was read.
    pub weight: u64,
    /// How many nodes it has.
    pub nodes: usize,
}

/// Opens and settles a chart, and writes the pre-order of a phrase's lightest derivation into the caller's list. Refused
/// with 7, 9 or 10, the list untouched, and with 12 for more nodes than room, the list then a prefix of the pre-order.
pub fn read<G: Grammar + Drop, L: Lattice + Drop, W: Weighing + Drop>(
    setting: Setting<G, L, W>,
    phrase: Phrase,
    nodes: &mut [Node],
) -> Result<Listed, ReadingRefusal>
    ensures answer { by_number reading_number result
        ≡ read_answer (task setting) phrase (length nodes.old) }
    ensures list { nodes.new ≡ read_list (task setting) phrase nodes.old }
    ensures says { ReadSays (task setting) phrase nodes.old nodes.new
        (by_number reading_number result) }
{
    let chart = WorkingChart::open(setting).settle();
    let weight = chart.question(phrase)?;
    let nodes = chart.reading(phrase, nodes)?;
    Ok(Listed { weight, nodes })
}
