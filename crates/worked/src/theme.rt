// Themes: tables of cases about one subject.
use crate::checks::{Bytes, Kept, Next, RuleCheck, TooMany, WordCheck};
use crate::looks::{RuleLook, WordLook};
use crate::making::{rule, word};
use crate::script::Script;
use crate::settings::Inputs;
use crate::texts::Text;
use chart_model::phrase::Phrase;
use grammars::checked::no_rules;
use grammars::list::RuleList;
use grammars::rule::RuleRecord;
use lattice::checked::no_words;
use lattice::word::Word;
use lattices::heard::HeardLattice;
use lattices::typed::TypedLine;
use reporting::reporter::{Reporter, Row};
use std::io;

// A theme by its name, and its cases.
#[derive(Clone, Copy)]
pub(crate) struct Theme(pub(crate) &'static str, pub(crate) Cases);

#[derive(Clone, Copy)]
pub(crate) enum Cases {
    // Scripts over a setting.
    Scripts(Inputs, &'static [Script]),
    // The weight of one phrase over several settings.
    Weights(Phrase, &'static [Row<Inputs>]),
    // Checks of lists.
    Words(&'static [Row<WordCheck>]),
    Rules(&'static [Row<RuleCheck>]),
    // Lists checked in turn, the last of them too long, and what is kept.
    KeptWords(&'static [Row<Next<Word>>], &'static [Row<TooMany>], &'static [Row<WordLook>]),
    KeptRules(&'static [Row<Next<RuleRecord>>], &'static [Row<TooMany>], &'static [Row<RuleLook>]),
    KeptBytes(&'static [Row<Bytes>], &'static [Row<WordLook>]),
    Texts(&'static [Row<Text>]),
}

impl Theme {
    // Asks its rows, and reports what comes out.
    pub(crate) fn play<P: Print>(&self, reporter: &mut Reporter<'_, P>) -> io::Result<()> {
        reporter.theme = self.0;
        match self.1 {
            Cases::Scripts(inputs, scripts) => play_all(reporter, &inputs, scripts),
            Cases::Weights(phrase, rows) => weigh_all(reporter, phrase, rows),
            Cases::Words(rows) => reporter.report_all(rows, &mut ()),
            Cases::Rules(rows) => reporter.report_all(rows, &mut ()),
            Cases::KeptWords(lists, last, rows) => keep_words(reporter, lists, last, rows),
            Cases::KeptRules(lists, last, rows) => keep_rules(reporter, lists, last, rows),
            Cases::KeptBytes(lines, rows) => keep_bytes(reporter, lines, rows),
            Cases::Texts(rows) => reporter.report_all(rows, &mut ()),
        }
    }
}

fn play_all<P: Print>(
    reporter: &mut Reporter<'_, P>,
    inputs: &Inputs,
    scripts: &[Script],
) -> io::Result<()> {
    for script in scripts {
        inputs.play(reporter, script)?;
    }
    Ok(())
}

fn weigh_all<P: Print>(
    reporter: &mut Reporter<'_, P>,
    phrase: Phrase,
    rows: &'static [Row<Inputs>],
) -> io::Result<()> {
    for row in rows {
        row.1.play(reporter, &Script::Weigh(phrase, row))?;
    }
    Ok(())
}

// 129 words are too many, and below 97 rules.
fn keep_words<P: Print>(
    reporter: &mut Reporter<'_, P>,
    lists: &[Row<Next<Word>>],
    last: &[Row<TooMany>],
    rows: &[Row<WordLook>],
) -> io::Result<()> {
    let too_many = [word!(0, 1, 7, 9); 129];
    let mut kept = Kept {
        checked: no_words(),
        too_many: &too_many,
    };
    reporter.report_all(lists, &mut kept)?;
    reporter.report_all(last, &mut kept)?;
    reporter.report_all(rows, &mut HeardLattice::new(kept.checked))
}

fn keep_rules<P: Print>(
    reporter: &mut Reporter<'_, P>,
    lists: &[Row<Next<RuleRecord>>],
    last: &[Row<TooMany>],
    rows: &[Row<RuleLook>],
) -> io::Result<()> {
    let too_many = [rule!(9, 1, [1, 2, 3, 4], 5); 97];
    let mut kept = Kept {
        checked: no_rules(),
        too_many: &too_many,
    };
    reporter.report_all(lists, &mut kept)?;
    reporter.report_all(last, &mut kept)?;
    reporter.report_all(rows, &mut RuleList::new(kept.checked))
}

fn keep_bytes<P: Print>(
    reporter: &mut Reporter<'_, P>,
    lines: &[Row<Bytes>],
    rows: &[Row<WordLook>],
) -> io::Result<()> {
    let mut line = TypedLine::empty();
    reporter.report_all(lines, &mut line)?;
    reporter.report_all(rows, &mut line)
}
