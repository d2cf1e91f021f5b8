// Worked cases, proved by evaluation of the definitions: small tasks, and what their charts come to.
#![tactic(auto)]

ghost use Rattle.std.specs.List.{AllByRecursion};
ghost use Rattle.weighings.specs.Weighings.{chance_weights};
ghost use Rattle.grammars.specs.Count.{count_rules};
ghost use Rattle.chart_model.specs.Task.{Sound};
ghost use Rattle.worked_cases.specs.Cases.{ComesOut, cases, two_boxes};

/// The worked cases come out, and the laws of the chart hold of something: one of the cases is a sound task.
#[tactic(auto, using(weighings::specs::Chances::chance_lawful), unfolding(chart_model::specs::Plain::steps))]
pub fn worked_cases()
    ensures come_out { AllByRecursion ComesOut cases }
    ensures lawful { Sound (two_boxes count_rules chance_weights) }
{}
