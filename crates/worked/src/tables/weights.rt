// Cases of marks, of joined weights, and of the lightest line by each weighing.
use crate::looks::Code::{Join, Mark};
use crate::making::{phrase, word};
use crate::script::Script::Codes;
use crate::settings::Inputs;
use crate::settings::Line::{self, Heard};
use crate::settings::Rules::{Counts, Ruled};
use crate::settings::Weighed::{Chance, Sum, Worst};
use crate::tables::two_boxes::WHOLE;
use crate::theme::Cases::{Scripts, Weights};
use crate::theme::Theme;
use grammars::count::{BOX, ONE, OPEN, THREE, TWO};
use reporting::rows;

// The chances of one half, and of mark 65,535.
const HALF: u64 = 1_073_741_824;

const LEAST: u64 = 32_768;

// Each word was heard in two ways. "Two box, open one" has the smaller sum, 31,509 against 33,108 of "two box, three box",
// which has the smaller worst mark, 17,000 against 30,000, and the greater chance, 1,205,704,163 against 1,137,781,619.
const TWICE: Line = Heard(&[
    word!(0, 1, TWO, 100),
    word!(0, 1, THREE, 200),
    word!(1, 2, BOX, 1_000),
    word!(1, 2, OPEN, 9_000),
    word!(2, 3, OPEN, 400),
    word!(2, 3, THREE, 17_000),
    word!(3, 4, ONE, 30_000),
    word!(3, 4, BOX, 15_000),
]);

// One word, heard twice.
pub(crate) const LIGHTER_LAST: Line = Heard(&[word!(0, 1, 9, 9), word!(0, 1, 9, 4)]);

pub(crate) const LIGHTER_FIRST: Line = Heard(&[word!(0, 1, 9, 4), word!(0, 1, 9, 9)]);

pub(crate) const EQUAL: Line = Heard(&[word!(0, 1, 9, 4), word!(0, 1, 9, 4)]);

// Codes at the ends of their ranges, and words heard twice.
const THEMES: &[Theme] = &[
    Theme(
        "chance",
        Scripts(
            Inputs(Counts, Heard(&[]), Chance),
            &[Codes(rows! {
                "mark 0 is certainty": Mark(0) => Ok(2_147_483_648);
                "mark 32,768 is one half": Mark(32_768) => Ok(HALF);
                "a half of a half": Join(HALF, HALF) => Ok(536_870_912);
                "next to none, twice": Join(LEAST, LEAST) => Ok(0);
                "past certainty, and a half": Join(u64::MAX, HALF) => Ok(HALF);
            })],
        ),
    ),
    Theme(
        "sum",
        Scripts(
            Inputs(Counts, Heard(&[]), Sum),
            &[Codes(rows! {
                "two doubts": Join(60, 40) => Ok(100);
                "the greatest stays": Join(u64::MAX, 1) => Ok(u64::MAX);
            })],
        ),
    ),
    Theme(
        "worst",
        Scripts(
            Inputs(Counts, Heard(&[]), Worst),
            &[Codes(rows! {
                "two doubts": Join(60, 40) => Ok(60);
            })],
        ),
    ),
    Theme(
        "each word heard twice",
        Weights(
            WHOLE,
            rows! {
                "doubts added up": Inputs(Counts, TWICE, Sum) => Ok(31_509);
                "the worst doubt": Inputs(Counts, TWICE, Worst) => Ok(17_000);
                "the chance": Inputs(Counts, TWICE, Chance) => Ok(1_205_704_163);
            },
        ),
    ),
    Theme(
        "one word heard twice",
        Weights(
            phrase!(9, 0, 1),
            rows! {
                "marks 9 and 4": Inputs(Ruled(&[]), LIGHTER_LAST, Sum) => Ok(4);
                "marks 4 and 9": Inputs(Ruled(&[]), LIGHTER_FIRST, Sum) => Ok(4);
                "mark 4 both times": Inputs(Ruled(&[]), EQUAL, Sum) => Ok(4);
            },
        ),
    ),
];

pub(crate) fn themes() -> &'static [Theme] {
    THEMES
}
