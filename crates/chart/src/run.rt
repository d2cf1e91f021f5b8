// Runs: a new chart, a list of calls on it, and what they leave.
ghost use Rattle.std.specs.Prelude.{◌≡◌, IsSome, is_some};
ghost use Rattle.chart_model.specs.Plain.{opened};
ghost use Rattle.chart_model.specs.Stands.{Stands, Complete};
ghost use Rattle.chart.specs.Calls.{after_call, after_calls, AnswersLightest, Made, AllMade};
ghost use Rattle.chart.specs.Calls.{AllAsked, run_chart, Lent, AllLightest, AllTrue};
ghost use Rattle.chart.specs.Outcomes as outcome;
ghost use Rattle.chart.specs.Settled as final;
ghost use Rattle.chart.specs.View.{room};
ghost use Rattle.chart.specs.Working.{setting_of, task, chart as plain};

use crate::call::{Call, FinalQuestion};
use crate::outcome::Outcome;
use crate::setting::Setting;
use crate::settled::SettledChart;
use crate::working::WorkingChart;
use grammar::Grammar;
use lattice::Lattice;
use weighing::Weighing;

// Makes a call, and notes its answer.
fn make<G: Grammar, L: Lattice, W: Weighing>(chart: &mut WorkingChart<G, L, W>, call: &mut Call)
    ensures made { Made (task chart.old) (plain chart.old) call.old call.new }
    ensures leaves { plain chart.new ≡ after_call (task chart.old) (plain chart.old) call.old }
    ensures lightest { AnswersLightest (task chart.old) call.new }
    ensures setting { setting_of chart.new ≡ setting_of chart.old }
{
    match call {
        Call::Step { answer } => *answer = Some(chart.step()),
        Call::Question(question) => question.answer = Some(chart.question(question.phrase)),
    }
}

// Makes calls in order, and notes their answers.
fn make_all<G: Grammar, L: Lattice, W: Weighing>(
    chart: &mut WorkingChart<G, L, W>,
    calls: &mut [Call],
)
    ensures made { AllMade (task chart.old) (plain chart.old) calls.old calls.new }
    ensures leaves { plain chart.new ≡ after_calls (task chart.old) (plain chart.old) calls.old }
    ensures lightest { AllLightest (task chart.old) calls.new }
    ensures setting { setting_of chart.new ≡ setting_of chart.old }
{
    for call in calls.iter_mut() {
        make(chart, call);
    }
}

// Asks questions in order, and notes their answers.
fn ask_all<G: Grammar, L: Lattice, W: Weighing>(
    chart: &SettledChart<G, L, W>,
    questions: &mut [FinalQuestion],
)
    ensures asked { AllAsked (final.task chart.now) (final.chart chart.now)
        questions.old questions.new }
    ensures truth { AllTrue (final.task chart.now) (final.chart chart.now) questions.new }
{
    for question in questions.iter_mut() {
        question.answer = Some(chart.question(question.phrase));
    }
}

// Opens a chart, and makes calls on it.
fn open_and_make<G: Grammar, L: Lattice, W: Weighing>(
    setting: Setting<G, L, W>,
    calls: &mut [Call],
) -> WorkingChart<G, L, W>
    ensures setting { setting_of result ≡ setting }
    ensures made { AllMade (task result) (opened (task result) room) calls.old calls.new }
    ensures leaves { plain result
        ≡ after_calls (task result) (opened (task result) room) calls.old }
    ensures lightest { AllLightest (task result) calls.new }
    ensures stands { Stands (task result) (plain result) }
{
    let mut chart = WorkingChart::open(setting);
    make_all(&mut chart, calls);
    chart
}

/// Opens a chart and makes calls on it, in order; given a list of questions, even an empty one, settles it then and asks
/// them. Each answer, refusals too, is noted beside its call or question. Never refused.
pub fn run<G: Grammar, L: Lattice, W: Weighing>(
    setting: Setting<G, L, W>,
    calls: &mut [Call],
    questions: Option<&mut [FinalQuestion]>,
) -> Outcome<G, L, W>
    ensures setting { outcome.setting_of result ≡ setting }
    ensures stands { Stands (outcome.task result) (outcome.chart result) }
    ensures complete { IsSome questions.entry →
        Complete (outcome.task result) room (outcome.chart result) }
    ensures lightest { AllLightest (outcome.task result) calls.new }
    ensures truth { Lent (λ _ after. AllTrue (outcome.task result) (outcome.chart result) after)
        questions.entry questions.exit }
    ensures leaves { outcome.chart result
        ≡ run_chart (outcome.task result) calls.old (is_some questions.entry) }
    ensures made { AllMade (outcome.task result) (opened (outcome.task result) room)
        calls.old calls.new }
    ensures asked { Lent (AllAsked (outcome.task result) (outcome.chart result))
        questions.entry questions.exit }
{
    let chart = open_and_make(setting, calls);
    let Some(questions) = questions else {
        return Outcome { chart };
    };
    let chart = chart.settle();
    ask_all(&chart, questions);
    Outcome {
        chart: chart.working,
    }
}
