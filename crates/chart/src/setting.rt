// Settings: what a chart is opened over.
ghost use Rattle.std.specs.Prelude.{◌≡◌};
ghost use Rattle.chart_model.specs.Task.{Sound};
ghost use Rattle.chart.specs.Charts.{task_of};

use grammar::Grammar;
use lattice::Lattice;
use weighing::Weighing;

/// A grammar, a lattice and a weighing. A chart takes them over and never changes them.
#[derive(Drop)]
pub struct Setting<G: Grammar, L: Lattice, W: Weighing> {
    /// The rules.
    pub grammar: G,
    /// The words.
    pub lattice: L,
    /// What marks weigh.
    pub weighing: W,
    // The three are sound together; definitions over the type name what they mean by this field.
    pub ghost sound: { ∥ Sound (task_of G.Grammar L.Lattice W.Weighing
        grammar lattice weighing) ∥₁ },
}

impl<G: Grammar, L: Lattice, W: Weighing> Setting<G, L, W> {
    /// Puts the three together, and shows that they are sound. Never refused.
    #[tactic(auto, using(crate::proofs::Soundness::sound_parts))]
    pub fn new(grammar: G, lattice: L, weighing: W) -> Self
        ensures grammar { result.grammar ≡ grammar }
        ensures lattice { result.lattice ≡ lattice }
        ensures weighing { result.weighing ≡ weighing }
    {
        Setting {
            grammar,
            lattice,
            weighing,
        }
    }
}
