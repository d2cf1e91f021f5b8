// Phrases: what a chart is asked about.
ghost use Rattle.std.specs.Prelude.{◌≡◌, true, false, Some, None};
ghost use Rattle.chart_model.specs.Plain.{edge_of, is_within};

use crate::edge::Edge;

/// A symbol over a span. Any three numbers are a phrase; a chart refuses with 7 where its lattice has no such span.
#[derive(Clone, Copy, PartialEq, Eq, Debug)]
pub struct Phrase {
    /// The symbol, 0 to 255.
    pub symbol: u8,
    /// The node where the span begins.
    pub from: u8,
    /// The node where it ends.
    pub to: u8,
}

impl Phrase {
    /// Its passive edge; none unless from ≤ to ≤ last.
    pub fn edge_within(self, last: u8) -> Option<Edge>
        ensures { result
            ≡ elim (is_within last self) [ true ↦ Some (edge_of self) | false ↦ None ] }
    {
        (self.from <= self.to && self.to <= last).then(|| self.into())
    }
}

impl From<Phrase> for Edge {
    ghost from_gives = { λ phrase r. r ≡ edge_of phrase };

    fn from(phrase: Phrase) -> Edge {
        let Phrase { symbol, from, to } = phrase;
        Edge::Passive { symbol, from, to }
    }
}
