// Calls on a chart as values, each with room for its answer.
use crate::refusal::{QuestionRefusal, SettledRefusal, StepRefusal};
use chart_model::phrase::Phrase;

/// A question about a phrase, refused with an `E`.
#[derive(Clone, Copy, PartialEq, Eq, Debug)]
pub struct Question<E> {
    pub phrase: Phrase,
    /// The weight or the refusal; none until the question is asked.
    pub answer: Option<Result<u64, E>>,
}

/// A call on a working chart; its answer is none until the call is made.
#[derive(Clone, Copy, PartialEq, Eq, Debug)]
pub enum Call {
    /// A step: the count of finished edges, or refusal 10 or 11.
    Step {
        answer: Option<Result<u16, StepRefusal>>,
    },
    /// A question: a weight, or refusal 7 or 8.
    Question(Question<QuestionRefusal>),
}

/// A question to a settled chart; answers a weight, or 7, 9 or 10.
pub type FinalQuestion = Question<SettledRefusal>;
