// Cases of refused questions and texts.
use crate::charts::Final::Weight;
use crate::charts::Move::{Ask, Step};
use crate::script::Script::Chart;
use crate::settings::Inputs;
use crate::settings::Rules::Counts;
use crate::settings::Weighed::Sum;
use crate::tables::two_boxes::TWO_BOXES;
use crate::texts::Text::Words;
use crate::theme::Cases::{Scripts, Texts};
use crate::theme::Theme;
use grammars::count::{GAP, LINE, NUM, PART};
use reporting::rows;

// Questions to a chart over "two box, open one", before and after it is settled: 7 comes before 8, and nothing changes by
// asking. Then texts that are of the form, and texts that are not.
const THEMES: &[Theme] = &[
    Theme(
        "working",
        Scripts(
            Inputs(Counts, TWO_BOXES, Sum),
            &[Chart(
                rows! {
                    "the first step": Step => Ok(1);
                    "a stretch that runs back": Ask(LINE, 2, 1) => Err(7);
                    "a stretch past the last node": Ask(LINE, 0, 5) => Err(7);
                    "a node past the last": Ask(LINE, 5, 5) => Err(7);
                    "a stretch that runs back from past the last node": Ask(LINE, 255, 0) => Err(7);
                    "a line that is not finished": Ask(LINE, 0, 4) => Err(8);
                    "what has no derivation": Ask(200, 4, 4) => Err(8);
                    "the second step": Step => Ok(2);
                    "the gap that the second step finished": Ask(GAP, 1, 1) => Ok(0);
                },
                &[],
            )],
        ),
    ),
    Theme(
        "settled",
        Scripts(
            Inputs(Counts, TWO_BOXES, Sum),
            &[Chart(
                &[],
                rows! {
                    "a stretch that runs back": Weight(LINE, 2, 1) => Err(7);
                    "a stretch past the last node": Weight(LINE, 0, 5) => Err(7);
                    "a node past the last": Weight(LINE, 5, 5) => Err(7);
                    "no number over a box": Weight(NUM, 1, 2) => Err(9);
                    "no part over no words": Weight(PART, 4, 4) => Err(9);
                    "a symbol of no rule": Weight(200, 0, 4) => Err(9);
                    "the line, after all these": Weight(LINE, 0, 4) => Ok(109);
                },
            )],
        ),
    ),
    Theme(
        "texts",
        Texts(rows! {
            "two lines": Words(0, b"0 1 17 10\n1 2 19 20\n") => Ok(2);
            "no lines": Words(0, b"") => Ok(0);
            "three numbers in a line": Words(0, b"0 1 17 10\n1 2 19\n") => Err(13);
            "an empty line": Words(0, b"\n") => Err(13);
            "a leading zero": Words(0, b"0 1 17 010\n") => Err(13);
            "a mark of 65,536": Words(0, b"0 1 17 65536\n") => Err(13);
            "128 lines": Words(128, b"") => Ok(128);
            "129 lines": Words(128, b"0 1 7 9\n") => Err(3);
            "a line after 128, before it is looked at": Words(128, b"x 1 7 9\n") => Err(3);
        }),
    ),
];

pub(crate) fn themes() -> &'static [Theme] {
    THEMES
}
