// What is asked of checks of lists, and what a refused check keeps.
use crate::making::{Words, listed};
use grammars::rule::RuleRecord;
use lattice::word::Word;
use lattices::typed::TypedLine;
use records::Record;
use records::checked::Checked;
use records::fault::ListFault;
use records::numbered::Numbered;
use reporting::case::{Answer, unit_by_number};
use reporting::reporter::Asks;

// How many copies of a word are accepted as a list, or the place of the first word at fault.
#[derive(Clone, Copy)]
pub(crate) enum WordCheck {
    Accepts(usize, Word),
    FirstBad(&'static [Words]),
}

// The same of rules.
#[derive(Clone, Copy)]
pub(crate) enum RuleCheck {
    Accepts(usize, RuleRecord),
    FirstBad(&'static [RuleRecord]),
}

// Checked records, and a list that is too long for them.
#[derive(Drop)]
pub(crate) struct Kept<'a, R: Record> {
    pub(crate) checked: Checked<'a, R>,
    pub(crate) too_many: &'a [R],
}

// Checks a further list.
pub(crate) struct Next<R: 'static>(pub(crate) &'static [R]);

// Checks the list that is too long.
pub(crate) struct TooMany;

// Types a further line.
pub(crate) struct Bytes(pub(crate) &'static [u8]);

// The most copies: one more than a lattice takes.
const MOST: usize = 129;

fn accepted<R: Record>(records: &[R]) -> Answer {
    match Checked::new(records) {
        Ok(checked) => Ok(checked.records.len() as u64),
        Err(fault) => Err(fault.number()),
    }
}

fn first_bad<R: Record>(records: &[R]) -> Answer {
    match Checked::new(records) {
        Ok(_) => Ok(0),
        Err(ListFault::At { at, .. }) => Ok(at as u64),
        Err(fault) => Err(fault.number()),
    }
}

impl Asks<()> for WordCheck {
    fn ask(&self, _: &mut ()) -> Answer {
        match *self {
            WordCheck::Accepts(count, word) => accepted(&[word; MOST][..count.min(MOST)]),
            WordCheck::FirstBad(rows) => first_bad(&listed(rows)),
        }
    }
}

impl Asks<()> for RuleCheck {
    fn ask(&self, _: &mut ()) -> Answer {
        match *self {
            RuleCheck::Accepts(count, rule) => accepted(&[rule; MOST][..count.min(MOST)]),
            RuleCheck::FirstBad(rules) => first_bad(rules),
        }
    }
}

impl<'a, R: Record> Asks<Kept<'a, R>> for Next<R> {
    fn ask(&self, kept: &mut Kept<'a, R>) -> Answer {
        unit_by_number(kept.checked.check(self.0))
    }
}

impl<'a, R: Record> Asks<Kept<'a, R>> for TooMany {
    fn ask(&self, kept: &mut Kept<'a, R>) -> Answer {
        unit_by_number(kept.checked.check(kept.too_many))
    }
}

impl<'a> Asks<TypedLine<'a>> for Bytes {
    fn ask(&self, line: &mut TypedLine<'a>) -> Answer {
        unit_by_number(line.set(self.0))
    }
}
