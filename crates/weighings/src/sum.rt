// The weighing that adds doubts up.
ghost use Rattle.std.specs.Prelude.{◌≡◌, ◌+◌, ◌-◌, ◌^◌, min, nat_lt};
ghost use Rattle.weighings.specs.Weighings.{sum_weights};
ghost use Rattle.std.proofs.Common.{rules};

use weighing::Weighing;

/// Marks add up and saturate at 2^64 - 1; the smaller weight is lighter.
#[derive(Clone, Copy, PartialEq, Eq, Debug, Default)]
pub struct Sum;

impl Weighing for Sum {
    ghost weights = { λ _. sum_weights };

    ghost lawful = { Prim.search rules };

    fn weigh(&self, mark: u16) -> u64
        ensures { result ≡ mark }
    {
        u64::from(mark)
    }

    fn join(&self, a: u64, b: u64) -> u64
        ensures { result ≡ min (a + b) (2 ^ 64 - 1) }
    {
        a.saturating_add(b)
    }

    fn is_lighter(&self, a: u64, b: u64) -> bool
        ensures { result ≡ nat_lt a b }
    {
        a < b
    }
}
