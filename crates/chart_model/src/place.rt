// Places of a chart, and the arrivals that fill them and make them lighter.
ghost use Rattle.std.specs.Prelude.{◌≡◌};
ghost use Rattle.chart_model.specs.Plain.{arriving, unused, fresh, lightened, finished_place};
ghost use Rattle.chart_model.specs.Plain.{entry, is_open};

use crate::edge::Edge;
use crate::origin::Origin;

/// An edge of a chart, with the lightest of its arrivals so far.
#[derive(Clone, Copy, PartialEq, Eq, Debug)]
pub struct Place {
    /// Of its own: no two places of a chart share an edge.
    pub edge: Edge,
    /// A code of the chart's weighing.
    pub weight: u64,
    /// The inference that gave the weight.
    pub origin: Origin,
    /// The position in the order of finishing, from 1; none while the edge is open.
    pub rank: Option<u16>,
}

/// The conclusion of an inference: an edge, the weight that it has by it, and the premises as its origin.
#[derive(Clone, Copy, PartialEq, Eq, Debug)]
pub struct Arrival {
    /// The edge that is concluded.
    pub edge: Edge,
    /// A code of the chart's weighing.
    pub weight: u64,
    /// The inference, with its premises.
    pub origin: Origin,
}

/// An entry of a chart: an edge with its place and its weight.
#[derive(Clone, Copy, PartialEq, Eq, Debug)]
pub struct Entry {
    /// The number of the place, from 0.
    pub at: u16,
    /// The edge that stands there.
    pub edge: Edge,
    /// Its weight, a code of the chart's weighing.
    pub weight: u64,
}

impl Arrival {
    /// The arrival of an edge at a weight.
    pub fn new(edge: Edge, weight: u64, origin: Origin) -> Self
        ensures { result ≡ arriving edge weight origin }
    {
        Arrival {
            edge,
            weight,
            origin,
        }
    }
}

// What fills room that no edge has taken.
impl Default for Place {
    ghost is_default = { λ place. place ≡ unused };

    fn default() -> Self {
        let edge = Edge::Passive {
            symbol: 0,
            from: 0,
            to: 0,
        };
        Place::from(Arrival::new(edge, 0, Origin::Word(0)))
    }
}

// A new edge is open.
impl From<Arrival> for Place {
    ghost from_gives = { λ arrival place. place ≡ fresh arrival };

    fn from(arrival: Arrival) -> Self {
        Place {
            edge: arrival.edge,
            weight: arrival.weight,
            origin: arrival.origin,
            rank: None,
        }
    }
}

impl Place {
    /// Whether the edge may still get lighter.
    pub fn is_open(&self) -> bool
        ensures { result ≡ is_open self.now.rank }
    {
        self.rank.is_none()
    }

    /// The entry, where the number of this place is `at`.
    pub fn entry(&self, at: u16) -> Entry
        ensures { result ≡ entry at self.now }
    {
        Entry {
            at,
            edge: self.edge,
            weight: self.weight,
        }
    }

    /// Takes over the weight and the origin of an arrival; the edge stays.
    pub fn lighten(&mut self, arrival: Arrival)
        ensures { self.new ≡ lightened arrival self.old }
    {
        self.weight = arrival.weight;
        self.origin = arrival.origin;
    }

    /// Finishes the edge, as the one of this number in the order of finishing.
    pub fn finish(&mut self, number: u16)
        ensures { self.new ≡ finished_place number self.old }
    {
        self.rank = Some(number);
    }
}
