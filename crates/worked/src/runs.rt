// Runs, and the same calls one by one.
use crate::making::{phrase, question};
use chart::call::{Call, FinalQuestion, Question};
use chart::outcome::Outcome;
use chart::run::run;
use chart::setting::Setting;
use chart::settled::SettledChart;
use chart::working::WorkingChart;
use chart_model::edge::Edge;
use grammar::Grammar;
use lattice::Lattice;
use records::numbered::Numbered;
use reporting::case::{Answer, by_number, given};
use reporting::reporter::Asks;
use weighing::Weighing;

// What is asked of a run: the answer of a call or of a final question by its number, the count of finished edges, whether
// the chart is full, or the weight of a passive edge.
#[derive(Clone, Copy)]
pub(crate) enum Left {
    Called(usize),
    Asked(usize),
    Finished,
    IsFull,
    Weight(u8, u8, u8),
}

// How many calls of a run, or final questions, answer as they do one by one.
#[derive(Clone, Copy)]
pub(crate) enum Alike {
    Calls,
    Questions,
}

pub(crate) const STEP: Call = Call::Step { answer: None };

// The most calls of a run, and then the most final questions.
const MOST_CALLS: usize = 80;

const MOST_QUESTIONS: usize = 4;

// A run that was made: its calls and final questions with their answers, and its outcome.
#[derive(Drop)]
pub(crate) struct Ran<G: Grammar, L: Lattice, W: Weighing> {
    calls: [Call; MOST_CALLS],
    questions: [FinalQuestion; MOST_QUESTIONS],
    outcome: Outcome<G, L, W>,
}

// How many calls and final questions answer alike.
#[derive(Clone, Copy)]
pub(crate) struct Counts {
    calls: u64,
    questions: u64,
}

// So many steps, and then further calls.
fn calls_to_make(steps: usize, calls: &[Call]) -> [Call; MOST_CALLS] {
    let mut room = [STEP; MOST_CALLS];
    for n in 0..MOST_CALLS {
        if n >= steps
            && let Some(call) = calls.get(n - steps)
        {
            room[n] = *call;
        }
    }
    room
}

// Final questions, up to the most.
fn questions_to_ask(questions: &[FinalQuestion]) -> [FinalQuestion; MOST_QUESTIONS] {
    let mut room = [question!(0, 0, 0); MOST_QUESTIONS];
    for n in 0..MOST_QUESTIONS {
        if let Some(question) = questions.get(n) {
            room[n] = *question;
        }
    }
    room
}

// Makes a run, which settles if there are final questions.
pub(crate) fn make_run<G: Grammar, L: Lattice, W: Weighing>(
    setting: Setting<G, L, W>,
    steps: usize,
    calls: &[Call],
    questions: Option<&[FinalQuestion]>,
) -> Ran<G, L, W> {
    let call_count = steps.saturating_add(calls.len()).min(MOST_CALLS);
    let mut calls = calls_to_make(steps, calls);
    let Some(asked) = questions else {
        return Ran {
            outcome: run(setting, &mut calls[..call_count], None),
            calls,
            questions: questions_to_ask(&[]),
        };
    };
    let question_count = asked.len().min(MOST_QUESTIONS);
    let mut questions = questions_to_ask(asked);
    Ran {
        outcome: run(
            setting,
            &mut calls[..call_count],
            Some(&mut questions[..question_count]),
        ),
        calls,
        questions,
    }
}

// The answer noted of a call; refusal 0 for none.
fn noted(call: &Call) -> Answer {
    match call {
        Call::Step {
            answer: Some(answer),
        } => by_number(*answer),
        Call::Step { answer: None } => Err(0),
        Call::Question(question) => given_to(question),
    }
}

// The answer noted of a final question; refusal 0 for none.
fn given_to<N: Numbered>(question: &Question<N>) -> Answer {
    match question.answer {
        Some(answer) => by_number(answer),
        None => Err(0),
    }
}

impl<G: Grammar, L: Lattice, W: Weighing> Asks<Ran<G, L, W>> for Left {
    fn ask(&self, ran: &mut Ran<G, L, W>) -> Answer {
        match *self {
            Left::Called(n) => match ran.calls.get(n) {
                Some(call) => noted(call),
                None => Err(0),
            },
            Left::Asked(n) => match ran.questions.get(n) {
                Some(question) => given_to(question),
                None => Err(0),
            },
            Left::Finished => Ok(u64::from(ran.outcome.finished())),
            Left::IsFull => Ok(u64::from(ran.outcome.is_full())),
            Left::Weight(symbol, from, to) => {
                given(ran.outcome.weight(Edge::Passive { symbol, from, to }))
            }
        }
    }
}

// The answer of a call made by itself.
fn made<G: Grammar, L: Lattice, W: Weighing>(
    chart: &mut WorkingChart<G, L, W>,
    call: &Call,
) -> Answer {
    match call {
        Call::Step { .. } => by_number(chart.step()),
        Call::Question(question) => by_number(chart.question(question.phrase)),
    }
}

// How many calls of a run have the answer that they get one by one.
fn calls_alike<G: Grammar, L: Lattice, W: Weighing>(
    chart: &mut WorkingChart<G, L, W>,
    calls: &[Call],
) -> u64 {
    let mut alike: u64 = 0;
    for call in calls {
        if made(chart, call) == noted(call) {
            alike = alike.saturating_add(1);
        }
    }
    alike
}

// How many final questions of a run have the answer that they get one by one.
fn questions_alike<G: Grammar, L: Lattice, W: Weighing>(
    chart: &SettledChart<G, L, W>,
    questions: &[FinalQuestion],
) -> u64 {
    let mut alike: u64 = 0;
    for question in questions {
        if by_number(chart.question(question.phrase)) == given_to(question) {
            alike = alike.saturating_add(1);
        }
    }
    alike
}

// Makes a run that settles, and compares it with the same calls one by one.
pub(crate) fn one_by_one<G: Grammar + Drop, L: Lattice + Drop, W: Weighing + Drop>(
    setting: Setting<G, L, W>,
    calls: &[Call],
    questions: &[FinalQuestion],
) -> Counts {
    let call_count = calls.len().min(MOST_CALLS);
    let question_count = questions.len().min(MOST_QUESTIONS);
    let Ran {
        calls,
        questions,
        outcome,
    } = make_run(setting, 0, calls, Some(questions));
    let mut chart = WorkingChart::open(outcome.into_setting());
    Counts {
        calls: calls_alike(&mut chart, &calls[..call_count]),
        questions: questions_alike(&chart.settle(), &questions[..question_count]),
    }
}

impl Asks<Counts> for Alike {
    fn ask(&self, counts: &mut Counts) -> Answer {
        match *self {
            Alike::Calls => Ok(counts.calls),
            Alike::Questions => Ok(counts.questions),
        }
    }
}
