// The axioms, which arrive at a table when a chart is opened: words and empty rules.
ghost use Rattle.std.specs.Prelude.{◌≡◌};
ghost use Rattle.chart.specs.Bringing.{heard_word, empty_rule, WordsArrived, EmptiesArrived};
ghost use Rattle.chart.specs.Bringing.{NodesArrived};
ghost use Rattle.chart.specs.Settings.{task};

use crate::setting::Setting;
use crate::table::Table;
use chart_model::edge::Edge;
use chart_model::origin::Origin;
use chart_model::place::Arrival;
use grammar::Grammar;
use lattice::Lattice;
use weighing::Weighing;

impl<G: Grammar, L: Lattice, W: Weighing> Setting<G, L, W> {
    // The axiom of a word; none past the last.
    fn word(&self, n: u8) -> Option<Arrival>
        ensures { result ≡ heard_word (task self.now) n }
    {
        let word = self.lattice.word(usize::from(n))?;
        let edge = Edge::Passive {
            symbol: word.symbol,
            from: word.from,
            to: word.to,
        };
        let weight = self.weighing.weigh(word.mark);
        Some(Arrival::new(edge, weight, Origin::Word(n)))
    }

    // The axiom of an empty rule at a node; none of a rule with right symbols.
    fn empty(&self, node: u8, rule: u8) -> Option<Arrival>
        ensures { result ≡ empty_rule (task self.now) node rule }
    {
        if self.grammar.length(usize::from(rule))? != 0 {
            return None;
        }
        let symbol = self.grammar.left(usize::from(rule))?;
        let mark = self.grammar.mark(usize::from(rule))?;
        let edge = Edge::Passive {
            symbol,
            from: node,
            to: node,
        };
        let weight = self.weighing.weigh(mark);
        Some(Arrival::new(edge, weight, Origin::Empty(rule)))
    }

    // The words arrive, in order. Their numbers fit 8 bits, as those of rules do.
    pub(crate) fn word_arrivals(&self, table: &mut Table)
        ensures { WordsArrived (task self.now) table.old table.new }
    {
        self.bring_each(table, self.lattice.len(), |_, n| self.word(n as u8));
    }

    // The empty rules arrive at one node, in order.
    fn empty_arrivals(&self, table: &mut Table, node: u8)
        ensures { EmptiesArrived (task self.now) node table.old table.new }
    {
        self.bring_each(
            table,
            self.grammar.len(),
            |_, rule| self.empty(node, rule as u8),
        );
    }

    // They arrive at all nodes, from 0 to the last.
    pub(crate) fn node_arrivals(&self, table: &mut Table)
        ensures { NodesArrived (task self.now) table.old table.new }
    {
        for node in 0..=self.lattice.last_node() {
            self.empty_arrivals(table, node);
        }
    }
}
