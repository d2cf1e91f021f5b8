// Refusals by number, and answers as programs print them.
ghost use Rattle.std.specs.Prelude.{◌≡◌, ℕ};

use std::fmt;

/// A refusal that has a number.
pub trait Numbered: Copy {
    ghost number: { Self → ℕ };

    /// The number of the refusal.
    fn number(self) -> u8
        ensures { result ≡ number self };
}

/// An answer as a program prints it: the text of its value, or `refused` and the number.
#[derive(Drop)]
pub struct Printed<T, N>(pub Result<T, N>);

impl<T: fmt::Display, N: Numbered> fmt::Display for Printed<T, N> {
    ghost use Rattle.std.specs.Prelude.{Some, Ok, Err};
    ghost use Rattle.records.specs.Printing.{refused_text};

    ghost output = { λ printed. elim printed.0 [
      | Ok answer ↦ T.output answer
      | Err refusal ↦ Some (refused_text (N.number refusal))
    ] };

    fn fmt<W: fmt::Write>(&self, f: &mut fmt::Formatter<W>) -> fmt::Result {
        match &self.0 {
            Ok(answer) => answer.fmt(f),
            Err(refusal) => write!(f, "refused {}", refusal.number()),
        }
    }
}
