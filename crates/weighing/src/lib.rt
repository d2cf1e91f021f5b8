// Weighings: the ordered monotone operations by which derivations are compared.
#![tactic(auto)]

ghost use Rattle.std.specs.Prelude.{◌≡◌};
ghost use Rattle.weighing.specs.Laws.{Weights, Lawful};

/// Weights as codes of 64 bits: an operation that joins them, and a strict total order. No method changes the weighing.
pub trait Weighing {
    /// The three methods as functions on codes.
    ghost weights: { Self → Weights };

    /// The weight of a mark of doubt.
    fn weigh(&self, mark: u16) -> u64
        ensures { result ≡ (weights self.now).weigh mark };

    /// a ⊗ b: the weight a so far, with one more premise of weight b.
    fn join(&self, a: u64, b: u64) -> u64
        ensures { result ≡ (weights self.now).join a b };

    /// Whether a comes before b in the order; equal weights are not lighter.
    fn is_lighter(&self, a: u64, b: u64) -> bool
        ensures { result ≡ (weights self.now).lighter a b };

    /// The laws, proved by each implementation.
    ghost lawful: { (w : Self) → Lawful (weights w) };
}
