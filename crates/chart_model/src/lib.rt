// The theory of charts: derivations, the plain chart, and the laws that connect them.
#![tactic(auto)]

ghost use Rattle.std.specs.Prelude.{◌≡◌, ℕ};
ghost use Rattle.chart_model.specs.Task.{Task, Sound};
ghost use Rattle.chart_model.specs.Plain.{Chart, opened, steps};
ghost use Rattle.chart_model.specs.Stands.{Reachable, Fits, LawOfTheLightest};
ghost use Rattle.chart_model.specs.Origins.{WellFounded};
ghost use Rattle.chart_model.specs.Reading.{LawOfReadings};
ghost use Rattle.chart_model.specs.Saying.{LawOfAnswers};

pub mod edge;
pub mod node;
pub mod origin;
pub mod phrase;
pub mod place;

/// The law of the lightest, of every sound task.
pub fn lightest_law()
    ensures { (t : Task) → Sound t → LawOfTheLightest t }
{}

/// Origins of every reachable chart name inferences whose premises were finished first.
pub fn origins_law()
    ensures { (t : Task) → Sound t → (c : Chart) → Reachable t c → WellFounded t c }
{}

/// Origins of every reachable chart spell out a derivation of each finished passive edge, of just its weight.
pub fn readings_law()
    ensures { (t : Task) → Sound t → LawOfReadings t }
{}

/// Answers of every reachable chart to questions and readings mean what `Saying` defines.
pub fn answers_law()
    ensures { (t : Task) → Sound t → LawOfAnswers t }
{}

/// How a reachable chart came about can be found from the chart itself: by as many steps as it has finished edges, all with
/// a capacity that it fits.
pub fn reachable_law()
    ensures again { (t : Task) (c : Chart) → ∥ Reachable t c ∥₁ → Reachable t c }
    ensures room { (t : Task) (capacity : ℕ) (c : Chart) → Reachable t c → Fits capacity c →
        c ≡ steps t capacity c.finished (opened t capacity) }
{}
