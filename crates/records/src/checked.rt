// Lists of records that passed their check, so that nothing made of them is refused.
ghost use Rattle.std.specs.Prelude.{◌≡◌, ◌≤◌, true, length, Ok, Err, IfOk};
ghost use Rattle.std.specs.List.{list_all};
ghost use Rattle.records.specs.Faults.{MatchesListRefusal};

use crate::fault::{ListFault, RecordFault};
use crate::{Record, check_records};

/// A caller's list of at most `R::MOST` records, each of which passed its check.
#[derive(Drop)]
pub struct Checked<'a, R: Record> {
    /// The records, in the caller's order.
    pub records: &'a [R],
    pub ghost few: { length records.now ≤ R.MOST },
    pub ghost within: { list_all R.within records.now ≡ true },
}

impl<'a, R: Record> Checked<'a, R> {
    /// Checks a list. Refused with `TooMany` for more than `R::MOST` records, else with the first fault and its place.
    pub fn new(records: &'a [R]) -> Result<Self, ListFault<R::Fault>>
        ensures refused { MatchesListRefusal R.MOST R.Fault.TOO_MANY R.Fault.number R.refusal
            records.now result }
        ensures records { IfOk result (λ checked. checked.records.now ≡ records.now) }
    {
        if records.len() > R::MOST {
            return Err(ListFault::TooMany);
        }
        check_records(records)?;
        Ok(Checked { records })
    }

    /// Replaces the list by another that passes the check. Refused as by `new`; the former list stays then.
    pub fn check(&mut self, records: &'a [R]) -> Result<(), ListFault<R::Fault>>
        ensures refused { MatchesListRefusal R.MOST R.Fault.TOO_MANY R.Fault.number R.refusal
            records.now result }
        ensures records { self.new.records.now
            ≡ elim result [ Ok _ ↦ records.now | Err _ ↦ self.old.records.now ] }
    {
        *self = Checked::new(records)?;
        Ok(())
    }
}
