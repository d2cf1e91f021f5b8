// The weighing by which the worst doubt counts.
ghost use Rattle.std.specs.Prelude.{◌≡◌, max, nat_lt};
ghost use Rattle.weighings.specs.Weighings.{worst_weights};
ghost use Rattle.std.proofs.Common.{rules};

use weighing::Weighing;

/// The greatest mark of a derivation is its weight; the smaller weight is lighter.
#[derive(Clone, Copy, PartialEq, Eq, Debug, Default)]
pub struct Worst;

impl Weighing for Worst {
    ghost weights = { λ _. worst_weights };

    ghost lawful = { Prim.search rules };

    fn weigh(&self, mark: u16) -> u64
        ensures { result ≡ mark }
    {
        u64::from(mark)
    }

    fn join(&self, a: u64, b: u64) -> u64
        ensures { result ≡ max a b }
    {
        a.max(b)
    }

    fn is_lighter(&self, a: u64, b: u64) -> bool
        ensures { result ≡ nat_lt a b }
    {
        a < b
    }
}
