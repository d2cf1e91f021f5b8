// Cases of small charts: no words, a cycle of rules, empty symbols.
use crate::charts::Final::Weight;
use crate::charts::Move::{Ask, Step};
use crate::making::{rule, word};
use crate::script::Script::Chart;
use crate::settings::Inputs;
use crate::settings::Line::{Heard, Typed};
use crate::settings::Rules::{Counts, Ruled};
use crate::settings::Weighed::Sum;
use crate::theme::Cases::Scripts;
use crate::theme::Theme;
use grammars::count::{BOX, GAP, LINE, ONE, OPEN, TWO};
use reporting::rows;

// A symbol that derives itself, over one word.
pub(crate) const ROUND: Inputs = Inputs(
    Ruled(&[rule!(5, 1, [5, 0, 0, 0], 0), rule!(5, 1, [9, 0, 0, 0], 7)]),
    Heard(&[word!(0, 1, 9, 5)]),
    Sum,
);

// A symbol of two empty ones.
pub(crate) const EMPTIES: Inputs = Inputs(
    Ruled(&[rule!(5, 2, [6, 6, 0, 0], 1), rule!(6, 0, [0, 0, 0, 0], 2)]),
    Typed(b""),
    Sum,
);

// Without words the stock counts derive an empty gap, but no line. The symbol of two empty ones takes three steps: the
// empty one, the active edge, and the whole. A typed "two box, open one" has no doubt in its words, so it weighs the marks
// of its rules.
const THEMES: &[Theme] = &[
    Theme(
        "no words",
        Scripts(
            Inputs(Counts, Heard(&[]), Sum),
            &[Chart(
                rows! {
                    "a gap of nothing before the first step": Ask(GAP, 0, 0) => Err(8);
                    "the first step": Step => Ok(1);
                    "the second step": Step => Err(11);
                    "the gap after the second step": Ask(GAP, 0, 0) => Ok(0);
                    "the third step": Step => Err(11);
                },
                rows! {
                    "the gap in the end": Weight(GAP, 0, 0) => Ok(0);
                    "no line": Weight(LINE, 0, 0) => Err(9);
                },
            )],
        ),
    ),
    Theme(
        "round and round",
        Scripts(
            ROUND,
            &[Chart(
                &[],
                rows! {
                    "the symbol that derives itself": Weight(5, 0, 1) => Ok(12);
                    "the word itself": Weight(9, 0, 1) => Ok(5);
                    "not of nothing": Weight(5, 0, 0) => Err(9);
                },
            )],
        ),
    ),
    Theme(
        "two of nothing",
        Scripts(
            EMPTIES,
            &[Chart(
                rows! {
                    "the first step": Step => Ok(1);
                    "the second step": Step => Ok(2);
                    "after two steps": Ask(5, 0, 0) => Err(8);
                    "the third step": Step => Ok(3);
                    "after three steps": Ask(5, 0, 0) => Ok(5);
                    "the fourth step": Step => Err(11);
                },
                &[],
            )],
        ),
    ),
    Theme(
        "typed",
        Scripts(
            Inputs(Counts, Typed(&[TWO, BOX, OPEN, ONE]), Sum),
            &[Chart(
                &[],
                rows! {
                    "two boxes, open one": Weight(LINE, 0, 4) => Ok(9);
                    "its last word": Weight(ONE, 3, 4) => Ok(0);
                },
            )],
        ),
    ),
];

pub(crate) fn themes() -> &'static [Theme] {
    THEMES
}
