// Cases of runs over "two box, open one".
use crate::making::{phrase, question};
use crate::runs::Left::{Asked, Called, Finished, Weight};
use crate::runs::{Alike, STEP};
use crate::script::Script::{OneByOne, Run};
use crate::settings::Inputs;
use crate::settings::Rules::Counts;
use crate::settings::Weighed::Sum;
use crate::tables::two_boxes::TWO_BOXES;
use crate::theme::Cases::Scripts;
use crate::theme::Theme;
use chart::call::{Call, FinalQuestion};
use grammars::count::{BOX, GAP, LINE, NUM, TWO};
use reporting::rows;

// A question as a call.
macro_rules! ask {
    ($symbol:expr, $from:expr, $to:expr) => {
        Call::Question(question!($symbol, $from, $to))
    };
}

// Five steps finish the empty gaps, and the sixth the word two.
const CALLS: &[Call] = &[
    ask!(GAP, 0, 0),
    STEP,
    ask!(GAP, 0, 0),
    STEP,
    STEP,
    STEP,
    STEP,
    ask!(TWO, 0, 1),
    STEP,
    ask!(TWO, 0, 1),
    ask!(LINE, 4, 0),
    ask!(LINE, 0, 4),
];

// The final questions.
const QUESTIONS: &[FinalQuestion] = &[
    question!(LINE, 0, 4),
    question!(NUM, 0, 1),
    question!(BOX, 0, 1),
    question!(LINE, 0, 5),
];

// A run with final questions; runs that do not settle, that make no call, and that settle without a question.
const THEMES: &[Theme] = &[Theme(
    "run",
    Scripts(
        Inputs(Counts, TWO_BOXES, Sum),
        &[
            OneByOne(
                CALLS,
                QUESTIONS,
                rows! {
                    "calls that answer as one by one": Alike::Calls => Ok(12);
                    "questions that answer as one by one": Alike::Questions => Ok(4);
                },
            ),
            Run(
                0,
                CALLS,
                Some(QUESTIONS),
                rows! {
                    "a gap before the first step": Called(0) => Err(8);
                    "the first step": Called(1) => Ok(1);
                    "a gap after the first step": Called(2) => Ok(0);
                    "the word two before its step": Called(7) => Err(8);
                    "the word two after its step": Called(9) => Ok(10);
                    "what is no stretch": Called(10) => Err(7);
                    "the line in the end": Asked(0) => Ok(109);
                    "a box that was not heard": Asked(2) => Err(9);
                    "the line as a finished edge": Weight(LINE, 0, 4) => Ok(109);
                },
            ),
            Run(
                0,
                CALLS,
                None,
                rows! {
                    "edges finished by six steps": Finished => Ok(6);
                },
            ),
            Run(
                0,
                &[],
                None,
                rows! {
                    "edges finished by no calls": Finished => Ok(0);
                },
            ),
            Run(
                0,
                CALLS,
                None,
                rows! {
                    "the line after six steps": Weight(LINE, 0, 4) => Err(0);
                },
            ),
            Run(
                0,
                &[],
                Some(&[]),
                rows! {
                    "the line where nothing is asked in the end": Weight(LINE, 0, 4) => Ok(109);
                },
            ),
        ],
    ),
)];

pub(crate) fn themes() -> &'static [Theme] {
    THEMES
}
