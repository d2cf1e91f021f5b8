// Cases of "two box, open one" by the stock counts: two boxes, and an open one.
use crate::charts::Final::Weight;
use crate::making::{phrase, word};
use crate::script::Script::Chart;
use crate::settings::Inputs;
use crate::settings::Line::{self, Heard};
use crate::settings::Rules::{Counts, Penalized};
use crate::settings::Weighed::{Chance, Sum, Worst};
use crate::theme::Cases::{Scripts, Weights};
use crate::theme::Theme;
use chart_model::phrase::Phrase;
use grammars::count::{BOX, GAP, LINE, NUM, ONE, OPEN, PART, TWO};
use reporting::rows;

// The words as they were heard.
pub(crate) const TWO_BOXES: Line = Heard(&[
    word!(0, 1, TWO, 10),
    word!(1, 2, BOX, 20),
    word!(2, 3, OPEN, 30),
    word!(3, 4, ONE, 40),
]);

// The whole line.
pub(crate) const WHOLE: Phrase = phrase!(LINE, 0, 4);

// The line by each weighing, and then the parts of it in a settled chart.
const THEMES: &[Theme] = &[
    Theme(
        "two boxes, open one",
        Weights(
            WHOLE,
            rows! {
                "doubts added up": Inputs(Counts, TWO_BOXES, Sum) => Ok(109);
                "the worst doubt": Inputs(Counts, TWO_BOXES, Worst) => Ok(40);
                "the chance": Inputs(Counts, TWO_BOXES, Chance) => Ok(2_143_914_145);
                "each part 20 dearer": Inputs(Penalized((PART, 20)), TWO_BOXES, Sum) => Ok(149);
            },
        ),
    ),
    Theme(
        "parts",
        Scripts(
            Inputs(Counts, TWO_BOXES, Sum),
            &[Chart(
                &[],
                rows! {
                    "the word two": Weight(TWO, 0, 1) => Ok(10);
                    "the number two": Weight(NUM, 0, 1) => Ok(10);
                    "two boxes": Weight(PART, 0, 2) => Ok(33);
                    "two open boxes": Weight(PART, 0, 3) => Ok(69);
                    "one that is open": Weight(PART, 2, 4) => Ok(74);
                    "a gap of nothing": Weight(GAP, 2, 2) => Ok(0);
                    "no gap of two words": Weight(GAP, 2, 4) => Err(9);
                    "no line of the word open": Weight(LINE, 2, 3) => Err(9);
                },
            )],
        ),
    ),
];

pub(crate) fn themes() -> &'static [Theme] {
    THEMES
}
