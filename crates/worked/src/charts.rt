// Charts that are stepped, questioned, settled and read.
use crate::readings::{BLANK, MOST_NODES, shared};
use chart::setting::Setting;
use chart::settled::SettledChart;
use chart::working::WorkingChart;
use chart_model::node::Node;
use chart_model::phrase::Phrase;
use grammar::Grammar;
use lattice::Lattice;
use records::numbered::Numbered;
use reporting::case::{Answer, by_number};
use reporting::reporter::{Asks, Reporter, Row};
use std::io;
use weighing::Weighing;

// What is asked of a working chart: a step, how many of at most so many steps are not refused, or a weight.
#[derive(Clone, Copy)]
pub(crate) enum Move {
    Step,
    Steps(u16),
    Ask(u8, u8, u8),
}

// What is asked of a settled chart: a weight, a reading into so many nodes of the list, or how many nodes of the list, from
// one on, agree with others, from one of those on.
#[derive(Clone, Copy)]
pub(crate) enum Final {
    Weight(u8, u8, u8),
    Read(u8, u8, u8, usize),
    Nodes(usize, usize, &'static [Node]),
}

// A settled chart, and a list for its readings.
#[derive(Drop)]
pub(crate) struct Settled<G: Grammar, L: Lattice, W: Weighing> {
    chart: SettledChart<G, L, W>,
    nodes: [Node; MOST_NODES],
}

impl<G: Grammar, L: Lattice, W: Weighing> Asks<WorkingChart<G, L, W>> for Move {
    fn ask(&self, chart: &mut WorkingChart<G, L, W>) -> Answer {
        match *self {
            Move::Step => by_number(chart.step()),
            Move::Steps(most) => Ok(u64::from(steps(chart, most))),
            Move::Ask(symbol, from, to) => by_number(chart.question(Phrase { symbol, from, to })),
        }
    }
}

// How many of at most so many steps come before a refused one.
fn steps<G: Grammar, L: Lattice, W: Weighing>(chart: &mut WorkingChart<G, L, W>, most: u16) -> u16 {
    for taken in 0..most {
        if chart.step().is_err() {
            return taken;
        }
    }
    most
}

impl<G: Grammar, L: Lattice, W: Weighing> Asks<Settled<G, L, W>> for Final {
    fn ask(&self, settled: &mut Settled<G, L, W>) -> Answer {
        match *self {
            Final::Weight(symbol, from, to) => {
                by_number(settled.chart.question(Phrase { symbol, from, to }))
            }
            Final::Read(symbol, from, to, room) => settled.read(Phrase { symbol, from, to }, room),
            Final::Nodes(at, from, expected) => {
                let expected = expected.get(from..).unwrap_or(&[]);
                shared(settled.nodes.get(at..).unwrap_or(&[]), expected)
            }
        }
    }
}

impl<G: Grammar, L: Lattice, W: Weighing> Settled<G, L, W> {
    // Reads into the first `room` nodes of the list.
    fn read(&mut self, phrase: Phrase, room: usize) -> Answer {
        let nodes: &mut [Node] = &mut self.nodes;
        let room = room.min(nodes.len());
        match self.chart.reading(phrase, &mut nodes[..room]) {
            Ok(count) => Ok(count as u64),
            Err(refusal) => Err(refusal.number()),
        }
    }
}

// Asks a chart the first rows, settles it, and asks it the others.
pub(crate) fn step_and_settle<P: Print, G: Grammar + Drop, L: Lattice + Drop, W: Weighing + Drop>(
    reporter: &mut Reporter<'_, P>,
    setting: Setting<G, L, W>,
    before: &[Row<Move>],
    after: &[Row<Final>],
) -> io::Result<()> {
    let mut chart = WorkingChart::open(setting);
    reporter.report_all(before, &mut chart)?;
    let mut settled = Settled {
        chart: chart.settle(),
        nodes: [BLANK; MOST_NODES],
    };
    reporter.report_all(after, &mut settled)
}
