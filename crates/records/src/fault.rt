// What is wrong with a list of records: its length, or the first record at fault.
ghost use Rattle.std.specs.Prelude.{ℕ};
ghost use Rattle.records.specs.Faults.{number_and_place};

use crate::numbered::Numbered;

/// The fault of a record, with the number that refuses a list of too many such records.
pub trait RecordFault: Numbered {
    ghost TOO_MANY: { ℕ };

    /// The number of `ListFault::TooMany` for these records.
    const TOO_MANY: u8;
}

/// Why a list of records is refused.
#[derive(Clone, Copy, PartialEq, Eq, Debug)]
pub enum ListFault<F> {
    /// The list is too long; its number is `F::TOO_MANY`.
    TooMany,
    /// The first record at fault, by its place from 0; the number is that of its fault.
    At { at: usize, fault: F },
}

impl<F: RecordFault> Numbered for ListFault<F> {
    ghost number = { λ f. (number_and_place F.TOO_MANY F.number f).0 };

    fn number(self) -> u8 {
        match self {
            ListFault::TooMany => F::TOO_MANY,
            ListFault::At { fault, .. } => fault.number(),
        }
    }
}
