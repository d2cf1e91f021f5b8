// Cases of charts that hold as many edges as they have room for, and of charts that are full.
use crate::charts::Final::{Nodes, Read, Weight};
use crate::charts::Move::{Ask, Step, Steps};
use crate::making::{Words, node, rule, word};
use crate::readings::BLANK;
use crate::runs::Left;
use crate::script::Script::{Chart, Run};
use crate::settings::Inputs;
use crate::settings::Line::Rows;
use crate::settings::Rules::{Counts, Empty};
use crate::settings::Weighed::Sum;
use crate::theme::Cases::Scripts;
use crate::theme::Theme;
use grammars::count::{LINE, ONE};
use reporting::rows;

// 96 empty rules at 10 nodes and 64 words: 1,024 edges.
const JUST_FULL: Inputs = Inputs(
    Empty(rule!(95, 0, [0; 4], 7)),
    Rows(&[Words(64, word!(0, 9, 100, 3), 0, 1)]),
    Sum,
);

// One word more.
const ONE_TOO_MANY: Inputs = Inputs(
    Empty(rule!(95, 0, [0; 4], 7)),
    Rows(&[Words(65, word!(0, 9, 100, 3), 0, 1)]),
    Sum,
);

// 95 empty rules at 10 nodes and 74 words: 1,024 edges; the last rule makes one more, of the first word.
const FILLING: Inputs = Inputs(
    Empty(rule!(200, 1, [100, 0, 0, 0], 0)),
    Rows(&[
        Words(1, word!(0, 9, 100, 5), 0, 0),
        Words(73, word!(0, 9, 101, 3), 0, 1),
    ]),
    Sum,
);

// Numbers in a row, without doubt.
const NUMBERS_20: Inputs = Inputs(Counts, Rows(&[Words(20, word!(0, 1, ONE, 0), 1, 0)]), Sum);

const NUMBERS_31: Inputs = Inputs(Counts, Rows(&[Words(31, word!(0, 1, ONE, 0), 1, 0)]), Sum);

// One word too many makes the chart full when it is opened. `FILLING` gets full at step 74, which is refused and has
// finished the first word: a full chart still reads it. A line of 31 numbers has more edges than a chart has room for;
// which of them are finished before it is full was compared with the model of tools/fuzz.
const THEMES: &[Theme] = &[
    Theme(
        "1,024 edges",
        Scripts(
            JUST_FULL,
            &[Chart(
                rows! {
                    "steps before one is refused": Steps(2_000) => Ok(1_024);
                    "a further step": Step => Err(11);
                },
                rows! {
                    "the first rule at node 0": Weight(0, 0, 0) => Ok(7);
                    "the last rule at node 9": Weight(95, 9, 9) => Ok(7);
                    "the first word": Weight(100, 0, 9) => Ok(3);
                    "the last word": Weight(163, 0, 9) => Ok(3);
                    "none for a word that was not said": Weight(164, 0, 9) => Err(9);
                    "none for a rule over a stretch": Weight(0, 0, 1) => Err(9);
                },
            )],
        ),
    ),
    Theme(
        "1,025 edges",
        Scripts(
            ONE_TOO_MANY,
            &[Chart(
                rows! {
                    "a step": Step => Err(10);
                    "another step": Step => Err(10);
                    "the last word, before settling": Ask(164, 0, 9) => Err(8);
                },
                rows! {
                    "the last word": Weight(164, 0, 9) => Err(10);
                    "the last rule at node 9": Weight(95, 9, 9) => Err(10);
                    "a word that was not said": Weight(200, 0, 9) => Err(10);
                    "what is no stretch": Weight(164, 0, 10) => Err(7);
                },
            )],
        ),
    ),
    Theme(
        "filled by a step",
        Scripts(
            FILLING,
            &[Chart(
                rows! {
                    "steps before": Steps(73) => Ok(73);
                    "its edge before": Ask(100, 0, 9) => Err(8);
                    "the step": Step => Err(10);
                    "its edge": Ask(100, 0, 9) => Ok(5);
                    "further steps": Steps(2_000) => Ok(0);
                    "an open edge": Ask(0, 0, 0) => Err(8);
                },
                rows! {
                    "its edge in the end": Weight(100, 0, 9) => Ok(5);
                    "the open edge in the end": Weight(0, 0, 0) => Err(10);
                    "what was turned away": Weight(200, 0, 9) => Err(10);
                },
            )],
        ),
    ),
    Theme(
        "filled in a run",
        Scripts(
            FILLING,
            &[Run(
                80,
                &[],
                None,
                rows! {
                    "edges finished": Left::Finished => Ok(74);
                    "whether it is full": Left::IsFull => Ok(1);
                    "the last edge finished": Left::Weight(100, 0, 9) => Ok(5);
                    "what was turned away": Left::Weight(200, 0, 9) => Err(0);
                },
            )],
        ),
    ),
    Theme(
        "read when full",
        Scripts(
            FILLING,
            &[Chart(
                &[],
                rows! {
                    "a finished edge": Read(100, 0, 9, 2) => Ok(1);
                    "an open edge": Read(0, 0, 0, 2) => Err(10);
                    "no stretch": Read(0, 0, 10, 2) => Err(7);
                    "the list then": Nodes(0, 0, &[node!(Word, 0, 0, 9), BLANK]) => Ok(2);
                },
            )],
        ),
    ),
    Theme(
        "numbers",
        Scripts(
            NUMBERS_20,
            &[Chart(
                &[],
                rows! {
                    "a line of 20": Weight(LINE, 0, 20) => Ok(158);
                },
            )],
        ),
    ),
    Theme(
        "numbers",
        Scripts(
            NUMBERS_31,
            &[Chart(
                &[],
                rows! {
                    "a line of 31": Weight(LINE, 0, 31) => Err(10);
                    "the first 20 of 31": Weight(LINE, 0, 20) => Err(10);
                    "the last 10 of 31": Weight(LINE, 21, 31) => Ok(78);
                },
            )],
        ),
    ),
];

pub(crate) fn themes() -> &'static [Theme] {
    THEMES
}
