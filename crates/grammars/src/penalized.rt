// A layer over any grammar that makes the rules of one left symbol more doubtful.
ghost use Rattle.std.specs.Prelude.{◌≡◌, ◌≤◌, length};
ghost use Rattle.grammar.specs.Rules.{most_rules};
ghost use Rattle.grammars.specs.Penalties.{penalized, AddsUp, Commutes};

use grammar::Grammar;

/// A decorator: the penalty is added to marks of one left symbol, saturating at 65,535, and the rest delegated.
#[derive(Drop)]
pub struct Penalized<G: Grammar> {
    grammar: G,
    symbol: u8,
    penalty: u16,
    // The rules underneath keep their limit; definitions over the type name them by this field.
    ghost few: { length (G.rules grammar) ≤ most_rules },
}

impl<G: Grammar> Penalized<G> {
    ghost use Rattle.grammars.specs.Meaning.{penalized_rules};

    /// Puts a penalty, 0 to 65,535, on the rules of a left symbol. Never refused.
    #[tactic(auto, using(crate::proofs::Penalizing::penalties_add, crate::proofs::Penalizing::penalties_commute))]
    pub fn new(grammar: G, symbol: u8, penalty: u16) -> Self
        ensures rules { penalized_rules result ≡ penalized symbol penalty (G.rules grammar) }
        ensures adds { AddsUp symbol penalty (penalized_rules result) (G.rules grammar) }
        ensures commutes { Commutes symbol penalty (penalized_rules result) (G.rules grammar) }
    {
        Penalized {
            grammar,
            symbol,
            penalty,
        }
    }
}

impl<G: Grammar> Grammar for Penalized<G> {
    ghost use Rattle.grammars.specs.Meaning.{penalized_rules, penalized_keeps};

    ghost rules = { penalized_rules };

    ghost limits = { penalized_keeps };

    fn len(&self) -> usize {
        self.grammar.len()
    }

    fn left(&self, rule: usize) -> Option<u8> {
        self.grammar.left(rule)
    }

    fn mark(&self, rule: usize) -> Option<u16> {
        let mark = self.grammar.mark(rule)?;
        let left = self.grammar.left(rule)?;
        if left == self.symbol {
            Some(mark.saturating_add(self.penalty))
        } else {
            Some(mark)
        }
    }

    fn length(&self, rule: usize) -> Option<usize> {
        self.grammar.length(rule)
    }

    fn right(&self, rule: usize, at: usize) -> Option<u8> {
        self.grammar.right(rule, at)
    }
}
