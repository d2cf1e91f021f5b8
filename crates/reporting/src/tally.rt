// The count of cases, and of right ones.
ghost use Rattle.std.specs.Prelude.{◌≡◌};

use crate::case::Case;
use std::fmt;

/// A count of cases; both numbers saturate at 2^32 - 1.
#[derive(Clone, Copy, Default)]
pub struct Tally {
    /// How many cases there were.
    pub cases: u32,
    /// How many of them were right.
    pub right: u32,
}

impl Tally {
    ghost use Rattle.reporting.specs.Counting.{counted};

    // Counts a case.
    pub(crate) fn count(&mut self, case: &Case)
        ensures { self.new ≡ counted self.old case.now }
    {
        self.cases = self.cases.saturating_add(1);
        if case.is_right() {
            self.right = self.right.saturating_add(1);
        }
    }
}

// The last line of a report, without its line feed.
impl fmt::Display for Tally {
    ghost use Rattle.std.specs.Prelude.{Some};
    ghost use Rattle.reporting.specs.Printing.{tally_text};

    ghost output = { λ tally. Some (tally_text tally) };

    fn fmt<W: fmt::Write>(&self, f: &mut fmt::Formatter<W>) -> fmt::Result {
        write!(
            f,
            "{} of {} cases as they should be",
            self.right, self.cases
        )
    }
}
