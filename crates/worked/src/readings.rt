// Readings in one call, and the comparison of lists of nodes.
use crate::making::node;
use chart::read::read;
use chart::setting::Setting;
use chart_model::node::Node;
use chart_model::phrase::Phrase;
use grammar::Grammar;
use lattice::Lattice;
use records::numbered::Numbered;
use reporting::case::Answer;
use reporting::reporter::Asks;
use weighing::Weighing;

// What is asked of a reading: its weight, its length, how many nodes of the list agree with others from the front on, or
// the same if the reading is as long as those.
#[derive(Clone, Copy)]
pub(crate) enum ReadLook {
    Weight,
    Length,
    Nodes(&'static [Node]),
    Whole(&'static [Node]),
}

// The most nodes of a list.
pub(crate) const MOST_NODES: usize = 13;

// The nodes of a list before it is written, unlike any of a reading here.
pub(crate) const BLANK: Node = node!(Word, 255, 255, 255);

// A reading in one call, and its list.
#[derive(Clone, Copy)]
pub(crate) struct Once {
    weight: Answer,
    length: Answer,
    nodes: [Node; MOST_NODES],
}

// How many nodes two lists have in common from the front on.
pub(crate) fn shared(one: &[Node], other: &[Node]) -> Answer {
    let mut count = 0;
    for node in one {
        match other.get(count) {
            Some(expected) if node == expected => count += 1,
            _ => return Ok(count as u64),
        }
    }
    Ok(count as u64)
}

// Reads a phrase into so many nodes.
pub(crate) fn read_into<G: Grammar + Drop, L: Lattice + Drop, W: Weighing + Drop>(
    setting: Setting<G, L, W>,
    phrase: Phrase,
    room: usize,
) -> Once {
    let mut nodes = [BLANK; MOST_NODES];
    let (weight, length) = match read(setting, phrase, &mut nodes[..room.min(MOST_NODES)]) {
        Ok(listed) => (Ok(listed.weight), Ok(listed.nodes as u64)),
        Err(refusal) => (Err(refusal.number()), Err(refusal.number())),
    };
    Once {
        weight,
        length,
        nodes,
    }
}

impl Asks<Once> for ReadLook {
    fn ask(&self, reading: &mut Once) -> Answer {
        match *self {
            ReadLook::Weight => reading.weight,
            ReadLook::Length => reading.length,
            ReadLook::Nodes(expected) => shared(&reading.nodes, expected),
            ReadLook::Whole(expected) => {
                if reading.length == Ok(expected.len() as u64) {
                    shared(&reading.nodes, expected)
                } else {
                    Err(0)
                }
            }
        }
    }
}
