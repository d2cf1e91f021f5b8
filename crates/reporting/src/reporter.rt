// Reports on tables, row by row.
ghost use Rattle.std.specs.Prelude.{◌≡◌, OnOk, ℕ, Result};

use crate::case::{Answer, Case};
use crate::tally::Tally;
use std::io;

/// A row of a table: the name of a case, what is asked, and what should come out.
pub struct Row<T>(pub &'static str, pub T, pub Answer);

/// Rows of a table, a line for each: `"its name": what is asked => what should come out;`.
#[macro_export]
macro_rules! rows {
    ($($name:literal: $asked:expr => $expected:expr;)*) => {
        &[$($crate::reporter::Row($name, $asked, $expected)),*]
    };
}

/// What a row can ask of a subject.
pub trait Asks<S> {
    /// What may come out, and what may be left of the subject, as far as that is promised.
    ghost answers: { Self → S → Result ℕ ℕ → S → Type 0 } = { λ _ _ _ _. Unit {0} };

    /// Asks it; the subject may change.
    fn ask(&self, subject: &mut S) -> Answer
        ensures { answers self.now subject.old result subject.new };
}

/// Prints a line for each case, and counts them.
#[derive(Drop)]
pub struct Reporter<'a, P> {
    /// Where lines are printed.
    pub rt: &'a P,
    /// What the cases of the present table are about.
    pub theme: &'static str,
    /// All cases so far.
    pub tally: Tally,
}

impl<'a, P: Print> Reporter<'a, P> {
    ghost use Rattle.std.specs.List.{FoldsTo};
    ghost use Rattle.reporting.specs.Counting.{answered, RowCounted};

    /// Prints what came out of a row, and counts it. Fails where printing does.
    pub fn report<T>(&mut self, row: &Row<T>, got: Answer) -> io::Result<()>
        ensures { OnOk result (self.new.tally ≡ answered self.old.tally row.now.2 got) }
    {
        let case = Case {
            theme: self.theme,
            name: row.0,
            expected: row.2,
            got,
        };
        self.tally.count(&case);
        println!(self.rt; "{case}")
    }

    /// Asks a subject what each row says, in order, and reports what comes out. Fails where printing does.
    pub fn report_all<S, T: Asks<S>>(&mut self, rows: &[Row<T>], subject: &mut S) -> io::Result<()>
        ensures { OnOk result (FoldsTo (RowCounted T.answers)
            (subject.old, self.old.tally) rows.now (subject.new, self.new.tally)) }
    {
        for row in rows {
            self.report(row, row.1.ask(subject))?;
        }
        Ok(())
    }
}
