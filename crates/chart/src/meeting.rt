// The inferences from finished edges: the bottom-up start of a rule, and the fundamental rule.
ghost use Rattle.std.specs.Prelude.{◌≡◌};
ghost use Rattle.chart.specs.Bringing.{begun_rule, joined, met, rule_edge_of};
ghost use Rattle.chart.specs.Settings.{task};

use crate::setting::Setting;
use chart_model::edge::Edge;
use chart_model::origin::Origin;
use chart_model::place::{Arrival, Entry};
use grammar::Grammar;
use lattice::Lattice;
use weighing::Weighing;

impl<G: Grammar, L: Lattice, W: Weighing> Setting<G, L, W> {
    // The edge of a rule over a span, the dot after `seen` symbols: passive, of its left, if that is all of them.
    fn rule_edge(&self, rule: u8, seen: u8, from: u8, to: u8) -> Option<Edge>
        ensures { result ≡ rule_edge_of (G.rules self.now.grammar) rule seen from to }
    {
        let length = self.grammar.length(usize::from(rule))?;
        if usize::from(seen) == length {
            let symbol = self.grammar.left(usize::from(rule))?;
            return Some(Edge::Passive { symbol, from, to });
        }
        Some(Edge::Active {
            rule,
            seen,
            from,
            to,
        })
    }

    // The start of a rule whose first right symbol is that of a finished passive edge.
    pub(crate) fn begin(&self, rule: u8, child: Entry) -> Option<Arrival>
        ensures { result ≡ begun_rule (task self.now) child rule }
    {
        let Edge::Passive {
            symbol: found,
            from,
            to,
        } = child.edge
        else {
            return None;
        };
        let Some(symbol) = self.grammar.right(usize::from(rule), 0) else {
            return None;
        };
        if symbol != found {
            return None;
        }
        let edge = self.rule_edge(rule, 1, from, to)?;
        let mark = self.grammar.mark(usize::from(rule))?;
        let weight = self.weighing.join(self.weighing.weigh(mark), child.weight);
        let origin = Origin::First {
            rule,
            child: child.at,
        };
        Some(Arrival::new(edge, weight, origin))
    }

    // The fundamental rule: the dot moves over a passive neighbour.
    fn take(&self, active: Entry, child: Entry) -> Option<Arrival>
        ensures { result ≡ joined (task self.now) active child }
    {
        let Edge::Active {
            rule,
            seen,
            from,
            to: meets,
        } = active.edge
        else {
            return None;
        };
        let Edge::Passive {
            symbol: found,
            from: starts,
            to,
        } = child.edge
        else {
            return None;
        };
        if meets != starts {
            return None;
        }
        let Some(symbol) = self.grammar.right(usize::from(rule), usize::from(seen)) else {
            return None;
        };
        if symbol != found {
            return None;
        }
        let edge = self.rule_edge(rule, seen + 1, from, to)?;
        let weight = self.weighing.join(active.weight, child.weight);
        let origin = Origin::Next {
            active: active.at,
            child: child.at,
        };
        Some(Arrival::new(edge, weight, origin))
    }

    // The same for two finished edges, either of which may be the active one.
    pub(crate) fn meet(&self, one: Entry, other: Entry) -> Option<Arrival>
        ensures { result ≡ met (task self.now) one other }
    {
        self.take(one, other).or(self.take(other, one))
    }
}
