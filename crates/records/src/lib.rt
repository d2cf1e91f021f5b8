// Records that are checked one by one, and the check of a list of them.
#![tactic(auto)]

ghost use Rattle.std.specs.Prelude.{◌≡◌, ℕ, Bool, true, Option, OnOk};
ghost use Rattle.std.specs.Option.{option_map};
ghost use Rattle.std.specs.Result.{result_err};
ghost use Rattle.std.specs.List.{list_all};
ghost use Rattle.records.specs.Lists.{first_refusal};
ghost use Rattle.records.specs.Faults.{number_and_place};

pub mod checked;
pub mod fault;
pub mod numbered;
#[cfg(test)]
mod tests;

use fault::{ListFault, RecordFault};

/// A record of a list. It defines the number by which it is refused, and what it keeps to if it is accepted.
pub trait Record: Copy {
    /// Why a record is refused.
    type Fault: RecordFault;

    ghost MOST: { ℕ };

    /// The most records of a list.
    const MOST: usize;

    /// The number by which a record is refused; none where it is accepted.
    ghost refusal: { Self → Option ℕ };

    /// What an accepted record keeps to.
    ghost within: { Self → Bool };

    /// Accepts the record, or refuses it with its fault.
    fn check(self) -> Result<(), Self::Fault>
        ensures refused { option_map Self.Fault.number (result_err result) ≡ refusal self }
        ensures accepted { OnOk result (within self ≡ true) };
}

/// What can be checked by itself, whatever its fault is and whether or not lists of it have a limit. Each `Record` can.
pub trait Checkable: Copy {
    /// Why it is refused.
    type Fault;

    /// The number of a fault.
    ghost number: { Self.Fault → ℕ };

    /// The number by which it is refused; none where it is accepted.
    ghost refusal: { Self → Option ℕ };

    /// What it keeps to if it is accepted.
    ghost within: { Self → Bool };

    /// Accepts it, or refuses it with its fault.
    fn check(self) -> Result<(), Self::Fault>
        ensures refused { option_map number (result_err result) ≡ refusal self }
        ensures accepted { OnOk result (within self ≡ true) };
}

impl<R: Record> Checkable for R {
    type Fault = R::Fault;

    ghost number = { R.Fault.number };

    ghost refusal = { R.refusal };

    ghost within = { R.within };

    fn check(self) -> Result<(), R::Fault> {
        Record::check(self)
    }
}

/// Checks items in order, however many. Refused with the first fault and the place of its item, from 0.
pub fn check_records<C: Checkable>(records: &[C]) -> Result<(), ListFault<C::Fault>>
    ensures refused { (too_many : ℕ) → option_map (number_and_place too_many C.number)
        (result_err result) ≡ first_refusal C.refusal 0 records.now }
    ensures accepted { OnOk result (list_all C.within records.now ≡ true) }
{
    for (at, item) in records.iter().enumerate() {
        item.check().map_err(|fault| ListFault::At { at, fault })?;
    }
    Ok(())
}
