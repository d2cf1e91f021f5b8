// Cases of readings: the nodes of the lightest derivation, and what becomes of the caller's list.
use crate::charts::Final::{Nodes, Read};
use crate::making::{node, phrase};
use crate::readings::{BLANK, ReadLook};
use crate::script::Script::{Chart, ReadOnce};
use crate::settings::Inputs;
use crate::settings::Rules::{Counts, Ruled};
use crate::settings::Weighed::Sum;
use crate::tables::small::{EMPTIES, ROUND};
use crate::tables::two_boxes::{TWO_BOXES, WHOLE};
use crate::tables::weights::{EQUAL, LIGHTER_FIRST, LIGHTER_LAST};
use crate::theme::Cases::Scripts;
use crate::theme::Theme;
use chart_model::node::Node;
use grammars::count::{LINE, PART};
use reporting::rows;

// The reading of "two box, open one"; the open one has the last four nodes.
const NODES: &[Node] = &[
    node!(Rule, 1, 0, 4),
    node!(Rule, 0, 0, 2),
    node!(Rule, 2, 0, 2),
    node!(Rule, 7, 0, 1),
    node!(Word, 0, 0, 1),
    node!(Word, 1, 1, 2),
    node!(Rule, 9, 2, 2),
    node!(Rule, 3, 2, 4),
    node!(Word, 2, 2, 3),
    node!(Rule, 6, 3, 4),
    node!(Word, 3, 3, 4),
];

// Lists just as long as the reading; longer, with a part read into them after that; too short, which hold the first nodes
// then; and refused questions, which leave the list alone.
const WRITTEN: &[Theme] = &[Theme(
    "reading",
    Scripts(
        Inputs(Counts, TWO_BOXES, Sum),
        &[
            Chart(
                &[],
                rows! {
                    "a list just as long": Read(LINE, 0, 4, 11) => Ok(11);
                    "its nodes": Nodes(0, 0, NODES) => Ok(11);
                },
            ),
            Chart(
                &[],
                rows! {
                    "a longer list": Read(LINE, 0, 4, 13) => Ok(11);
                    "then a part": Read(PART, 2, 4, 13) => Ok(4);
                    "the part's nodes": Nodes(0, 7, NODES) => Ok(4);
                    "the nodes after them": Nodes(4, 4, NODES) => Ok(7);
                    "past the longest": Nodes(11, 0, &[BLANK; 2]) => Ok(2);
                },
            ),
            Chart(
                &[],
                rows! {
                    "a list one shorter": Read(LINE, 0, 4, 10) => Err(12);
                    "the first ten nodes": Nodes(0, 0, NODES) => Ok(10);
                },
            ),
            Chart(
                &[],
                rows! {
                    "a list of one": Read(LINE, 0, 4, 1) => Err(12);
                    "the first node": Nodes(0, 0, NODES) => Ok(1);
                    "an empty list": Read(LINE, 0, 4, 0) => Err(12);
                },
            ),
            Chart(
                &[],
                rows! {
                    "a stretch that runs back": Read(LINE, 4, 0, 3) => Err(7);
                    "past the last node": Read(LINE, 0, 5, 3) => Err(7);
                    "no derivation": Read(LINE, 2, 3, 3) => Err(9);
                    "no derivation, no list": Read(LINE, 2, 3, 0) => Err(9);
                    "the list after these": Nodes(0, 0, &[BLANK; 3]) => Ok(3);
                },
            ),
        ],
    ),
)];

// In one call: a cycle, a symbol of two empty ones, words heard twice, and the line again.
const IN_ONE_CALL: &[Theme] = &[
    Theme(
        "reading",
        Scripts(
            ROUND,
            &[ReadOnce(
                phrase!(5, 0, 1),
                4,
                rows! {
                    "round and round":
                        ReadLook::Whole(&[node!(Rule, 1, 0, 1), node!(Word, 0, 0, 1)]) => Ok(2);
                },
            )],
        ),
    ),
    Theme(
        "reading",
        Scripts(
            EMPTIES,
            &[ReadOnce(
                phrase!(5, 0, 0),
                4,
                rows! {
                    "two of nothing":
                        ReadLook::Whole(&[node!(Rule, 0, 0, 0), node!(Rule, 1, 0, 0), node!(Rule, 1, 0, 0)]) => Ok(3);
                },
            )],
        ),
    ),
    Theme(
        "reading",
        Scripts(
            Inputs(Ruled(&[]), LIGHTER_LAST, Sum),
            &[ReadOnce(
                phrase!(9, 0, 1),
                4,
                rows! {
                    "the lighter word, heard last": ReadLook::Whole(&[node!(Word, 1, 0, 1)]) => Ok(1);
                },
            )],
        ),
    ),
    Theme(
        "reading",
        Scripts(
            Inputs(Ruled(&[]), LIGHTER_FIRST, Sum),
            &[ReadOnce(
                phrase!(9, 0, 1),
                4,
                rows! {
                    "the lighter word, heard first": ReadLook::Whole(&[node!(Word, 0, 0, 1)]) => Ok(1);
                },
            )],
        ),
    ),
    Theme(
        "reading",
        Scripts(
            Inputs(Ruled(&[]), EQUAL, Sum),
            &[ReadOnce(
                phrase!(9, 0, 1),
                4,
                rows! {
                    "the first of equal words": ReadLook::Whole(&[node!(Word, 0, 0, 1)]) => Ok(1);
                },
            )],
        ),
    ),
    Theme(
        "read in one call",
        Scripts(
            Inputs(Counts, TWO_BOXES, Sum),
            &[
                ReadOnce(
                    WHOLE,
                    11,
                    rows! {
                        "its weight": ReadLook::Weight => Ok(109);
                        "its length": ReadLook::Length => Ok(11);
                        "its nodes": ReadLook::Nodes(NODES) => Ok(11);
                    },
                ),
                ReadOnce(
                    WHOLE,
                    10,
                    rows! {
                        "one shorter": ReadLook::Weight => Err(12);
                        "the first ten": ReadLook::Nodes(NODES) => Ok(10);
                    },
                ),
            ],
        ),
    ),
];

pub(crate) fn written() -> &'static [Theme] {
    WRITTEN
}

pub(crate) fn in_one_call() -> &'static [Theme] {
    IN_ONE_CALL
}
