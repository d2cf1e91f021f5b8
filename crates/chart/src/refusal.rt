// Why charts refuse calls: refusals 7 to 12.
ghost use Rattle.std.specs.Prelude.{◌≡◌};
ghost use Rattle.chart.specs.declared.refusal.ReadingRefusal.TheVariants.{TooShort};
ghost use Rattle.chart.specs.Refusals.{step_number, question_number, settled_number};
ghost use Rattle.chart.specs.Refusals.{reading_number, as_reading};

use crate::listing::NoRoom;
use records::numbered::Numbered;

/// Why a step is refused.
#[derive(Clone, Copy, PartialEq, Eq, Debug)]
pub enum StepRefusal {
    /// 10: the chart is full, before the step or by it; in the second case the popped edge stays finished.
    Full = 10, // before the step, or by it
    /// 11: the agenda is empty, and the chart not full; nothing has changed.
    NothingOpen = 11,
}

/// Why a working chart refuses a question.
#[derive(Clone, Copy, PartialEq, Eq, Debug)]
pub enum QuestionRefusal {
    /// 7: the lattice has no such span.
    NoSpan = 7,
    /// 8: the edge is not finished.
    NotFinished = 8,
}

/// Why a settled chart refuses a question.
#[derive(Clone, Copy, PartialEq, Eq, Debug)]
pub enum SettledRefusal {
    /// 7: the lattice has no such span.
    NoSpan = 7,
    /// 9: the edge has no derivation.
    NoDerivation = 9,
    /// 10: more edges have derivations than the chart has places, and this edge is not among its finished ones.
    Full = 10, // without the edge
}

/// Why a reading is refused.
#[derive(Clone, Copy, PartialEq, Eq, Debug)]
pub enum ReadingRefusal {
    /// 7, 9 or 10, as the question about its phrase is; the list is untouched.
    Unanswered(SettledRefusal),
    /// 12: more nodes than room; the list is a prefix of the pre-order.
    TooShort,
}

// The number of a case is its discriminant.
impl Numbered for StepRefusal {
    ghost number = { step_number };

    fn number(self) -> u8 {
        self as u8 // 10 or 11
    }
}

impl Numbered for QuestionRefusal {
    ghost number = { question_number };

    fn number(self) -> u8 {
        self as u8 // 7 or 8
    }
}

impl Numbered for SettledRefusal {
    ghost number = { settled_number };

    fn number(self) -> u8 {
        self as u8 // 7, 9 or 10
    }
}

impl Numbered for ReadingRefusal {
    ghost number = { reading_number };

    fn number(self) -> u8 {
        match self {
            ReadingRefusal::Unanswered(refusal) => refusal.number(),
            ReadingRefusal::TooShort => 12,
        }
    }
}

impl From<SettledRefusal> for ReadingRefusal {
    ghost from_gives = { λ refusal r. r ≡ as_reading refusal };

    fn from(refusal: SettledRefusal) -> ReadingRefusal {
        ReadingRefusal::Unanswered(refusal)
    }
}

impl From<NoRoom> for ReadingRefusal {
    ghost from_gives = { λ _ r. r ≡ TooShort };

    fn from(_: NoRoom) -> ReadingRefusal {
        ReadingRefusal::TooShort
    }
}
