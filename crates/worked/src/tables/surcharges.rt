// Cases of penalties on the stock counts: on one symbol, on several, and up to the greatest mark.
use crate::looks::RuleLook::{Count, Mark};
use crate::script::Script::Rules;
use crate::settings::Inputs;
use crate::settings::Rules::{Penalized, ThricePenalized, TwicePenalized};
use crate::settings::Weighed::Sum;
use crate::tables::two_boxes::{TWO_BOXES, WHOLE};
use crate::theme::Cases::{Scripts, Weights};
use crate::theme::Theme;
use grammars::count::{GAP, LINE, PART};
use reporting::rows;

const TWICE: Inputs = Inputs(TwicePenalized((PART, 20), (PART, 5)), TWO_BOXES, Sum);

const PAST: Inputs = Inputs(
    TwicePenalized((PART, 65_000), (PART, 65_000)),
    TWO_BOXES,
    Sum,
);

const ABOVE: Inputs = Inputs(TwicePenalized((PART, 20), (GAP, 5)), TWO_BOXES, Sum);

const BELOW: Inputs = Inputs(TwicePenalized((GAP, 5), (PART, 20)), TWO_BOXES, Sum);

const THREE: Inputs = Inputs(
    ThricePenalized((PART, 20), (GAP, 5), (LINE, 7)),
    TWO_BOXES,
    Sum,
);

// Rule 1 lengthens a line by a part, rule 2 is a number of boxes, rule 7 the number two, and rule 9 the empty gap. The line
// "two box, open one" has two parts, the empty gap, and two rules of a line.
const THEMES: &[Theme] = &[
    Theme(
        "surcharges",
        Scripts(
            TWICE,
            &[Rules(rows! {
                "on a part, 20 and 5": Mark(2) => Ok(28);
                "on a part, no gap": Mark(9) => Ok(0);
            })],
        ),
    ),
    Theme(
        "surcharges",
        Scripts(
            PAST,
            &[Rules(rows! {
                "on a part, past 65,535": Mark(2) => Ok(65_535);
                "on a part, past the last rule": Mark(11) => Err(0);
            })],
        ),
    ),
    Theme(
        "three surcharges",
        Scripts(
            THREE,
            &[Rules(rows! {
                "a part": Mark(2) => Ok(23);
                "a gap": Mark(9) => Ok(5);
                "a line": Mark(1) => Ok(9);
                "a number": Mark(7) => Ok(0);
                "rules": Count => Ok(11);
            })],
        ),
    ),
    Theme(
        "dearer line",
        Weights(
            WHOLE,
            rows! {
                "parts 20": Inputs(Penalized((PART, 20)), TWO_BOXES, Sum) => Ok(149);
                "parts 20, parts 5": TWICE => Ok(159);
                "parts 25": Inputs(Penalized((PART, 25)), TWO_BOXES, Sum) => Ok(159);
                "parts past 65,535": PAST => Ok(131_172);
                "parts 20, gaps 5": ABOVE => Ok(154);
                "gaps 5, parts 20": BELOW => Ok(154);
                "three deep": THREE => Ok(168);
            },
        ),
    ),
];

pub(crate) fn themes() -> &'static [Theme] {
    THEMES
}
