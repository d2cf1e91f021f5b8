// The weighing that multiplies chances.
ghost use Rattle.std.specs.Prelude.{◌≡◌, ◌-◌, ◌*◌, nat_lt};
ghost use Rattle.weighings.specs.Weighings.{chance_weights, chance_join};
ghost use Rattle.weighings.specs.Chances.{chance_lawful};

use weighing::Weighing;

// The code of certainty, 2^31.
const CERTAIN: u64 = 2_147_483_648;

/// Probabilities in units of 2^-31: mark 0 weighs 2^31, certainty, and each unit of a mark 32,768 less. They multiply,
/// rounded down, and the larger one is lighter.
#[derive(Clone, Copy, PartialEq, Eq, Debug, Default)]
pub struct Chance;

impl Weighing for Chance {
    ghost weights = { λ _. chance_weights };

    ghost lawful = { λ w. chance_lawful };

    fn weigh(&self, mark: u16) -> u64
        ensures { result ≡ (65536 - mark) * 32768 }
    {
        (65_536 - u64::from(mark)) * 32_768
    }

    fn join(&self, a: u64, b: u64) -> u64
        ensures { result ≡ chance_join a b }
    {
        a.min(CERTAIN) * b.min(CERTAIN) / CERTAIN
    }

    fn is_lighter(&self, a: u64, b: u64) -> bool
        ensures { result ≡ nat_lt b a }
    {
        a > b
    }
}
