// Grammars: context-free rules, each with a mark of doubt.
#![tactic(auto)]

ghost use Rattle.std.specs.Prelude.{◌≡◌, List, length as list_length};
ghost use Rattle.grammar.specs.Rules.{Rule, Limits, left_of, mark_of, length_of, right_of};

/// A context-free grammar. `None` stands for what there is not. Limits: 96 rules, 4 right symbols of each.
pub trait Grammar {
    /// The rules, in order.
    ghost rules: { Self → List Rule };

    /// The limits, proved by each implementation.
    ghost limits: { (g : Self) → Limits (rules g) };

    /// How many rules there are, at most 96.
    fn len(&self) -> usize
        ensures { result ≡ list_length (rules self.now) };

    /// The left symbol of a rule; none past the last rule.
    fn left(&self, rule: usize) -> Option<u8>
        ensures { result ≡ left_of (rules self.now) rule };

    /// The mark of a rule; none past the last rule.
    fn mark(&self, rule: usize) -> Option<u16>
        ensures { result ≡ mark_of (rules self.now) rule };

    /// How many right symbols a rule has, at most 4; none past the last rule.
    fn length(&self, rule: usize) -> Option<usize>
        ensures { result ≡ length_of (rules self.now) rule };

    /// A right symbol of a rule, from 0; none past its last, or past the last rule.
    fn right(&self, rule: usize, at: usize) -> Option<u8>
        ensures { result ≡ right_of (rules self.now) rule at };
}
