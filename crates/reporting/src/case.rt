// Cases: what a call should answer, and what it does.
ghost use Rattle.std.specs.Prelude.{◌≡◌, ◌↔◌, IsTrue, Ok, Err, IsOkAnd, MatchOption, MatchResult};
ghost use Rattle.reporting.specs.Answers.{right};

use records::numbered::Numbered;
use std::fmt;

/// What a call answers: a value, or the number of its refusal; 0 stands for none.
pub type Answer = Result<u64, u8>;

/// One case of a table.
#[derive(Clone, Copy)]
pub struct Case {
    /// What the cases of its table are about.
    pub theme: &'static str,
    /// Its name among them.
    pub name: &'static str,
    /// What should come out.
    pub expected: Answer,
    /// What comes out.
    pub got: Answer,
}

// An answer as a report prints it.
#[derive(Clone, Copy)]
struct Shown(Answer);

impl fmt::Display for Shown {
    ghost use Rattle.std.specs.Prelude.{Some};
    ghost use Rattle.reporting.specs.Printing.{answer_text};

    ghost output = { λ shown. Some (answer_text shown.0) };

    fn fmt<W: fmt::Write>(&self, f: &mut fmt::Formatter<W>) -> fmt::Result {
        match self.0 {
            Ok(value) => write!(f, "{value}"),
            Err(refusal) => write!(f, "refused {refusal}"),
        }
    }
}

/// The answer of a call whose refusals have numbers.
pub fn by_number<T: Into<u64>, N: Numbered>(answer: Result<T, N>) -> Answer
    ensures { MatchResult answer (λ value. IsOkAnd result (T.converts value))
        (λ refusal. result ≡ Err (N.number refusal)) }
{
    match answer {
        Ok(value) => Ok(value.into()),
        Err(refusal) => Err(refusal.number()),
    }
}

/// An answer that may be none, which becomes refusal 0: no refusal has that number.
pub fn given<T: Into<u64>>(answer: Option<T>) -> Answer
    ensures { MatchOption answer (result ≡ Err 0) (λ value. IsOkAnd result (T.converts value)) }
{
    match answer {
        Some(value) => Ok(value.into()),
        None => Err(0),
    }
}

/// The answer of a call that gives nothing back: 0 if it is accepted.
pub fn unit_by_number<N: Numbered>(answer: Result<(), N>) -> Answer
    ensures { result ≡ elim answer [ Ok _ ↦ Ok 0 | Err refusal ↦ Err (N.number refusal) ] }
{
    by_number(answer.map(|()| 0_u64))
}

impl Case {
    /// Whether what comes out is what should come out.
    pub fn is_right(&self) -> bool
        ensures same { IsTrue result ↔ (self.now.expected ≡ self.now.got) }
        ensures right { result ≡ right self.now }
    {
        self.expected == self.got
    }
}

// One line of a report, without its line feed.
impl fmt::Display for Case {
    ghost use Rattle.std.specs.Prelude.{Some};
    ghost use Rattle.reporting.specs.Printing.{case_text};

    ghost output = { λ case. Some (case_text case) };

    fn fmt<W: fmt::Write>(&self, f: &mut fmt::Formatter<W>) -> fmt::Result {
        if self.is_right() {
            return write!(f, "ok {}: {}", self.theme, self.name);
        }
        let expected = Shown(self.expected);
        let got = Shown(self.got);
        write!(
            f,
            "WRONG {}: {}: expected {expected}, got {got}",
            self.theme, self.name
        )
    }
}
