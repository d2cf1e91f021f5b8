// Settings, as tables name them.
use crate::making::{Words, empty_rules, heard, listed, ruled, typed};
use crate::script::{Script, play};
use chart::setting::Setting;
use grammar::Grammar;
use grammars::count::CountGrammar;
use grammars::penalized::Penalized;
use grammars::rule::RuleRecord;
use lattice::Lattice;
use lattice::word::Word;
use reporting::reporter::Reporter;
use std::io;
use weighings::chance::Chance;
use weighings::sum::Sum;
use weighings::worst::Worst;

// The stock counts, without penalties or with up to three, the lowest first; a list of rules; or 95 empty rules and a last
// one.
#[derive(Clone, Copy)]
pub(crate) enum Rules {
    Counts,
    Penalized((u8, u16)),
    TwicePenalized((u8, u16), (u8, u16)),
    ThricePenalized((u8, u16), (u8, u16), (u8, u16)),
    Ruled(&'static [RuleRecord]),
    Empty(RuleRecord),
}

// Heard words, listed or in rows, or typed bytes.
#[derive(Clone, Copy)]
pub(crate) enum Line {
    Heard(&'static [Word]),
    Rows(&'static [Words]),
    Typed(&'static [u8]),
}

#[derive(Clone, Copy)]
pub(crate) enum Weighed {
    Sum,
    Worst,
    Chance,
}

#[derive(Clone, Copy)]
pub(crate) struct Inputs(pub(crate) Rules, pub(crate) Line, pub(crate) Weighed);

impl Inputs {
    // Plays a script over the setting.
    pub(crate) fn play<P: Print>(
        &self,
        reporter: &mut Reporter<'_, P>,
        script: &Script,
    ) -> io::Result<()> {
        match self.0 {
            Rules::Counts => self.with(reporter, CountGrammar, script),
            Rules::Penalized(one) => {
                self.with(reporter, Penalized::new(CountGrammar, one.0, one.1), script)
            }
            Rules::TwicePenalized(one, two) => {
                let below = Penalized::new(CountGrammar, one.0, one.1);
                self.with(reporter, Penalized::new(below, two.0, two.1), script)
            }
            Rules::ThricePenalized(one, two, three) => {
                let lowest = Penalized::new(CountGrammar, one.0, one.1);
                let below = Penalized::new(lowest, two.0, two.1);
                self.with(reporter, Penalized::new(below, three.0, three.1), script)
            }
            Rules::Ruled(rules) => self.with(reporter, ruled(rules), script),
            Rules::Empty(last) => self.with(reporter, ruled(&empty_rules(last)), script),
        }
    }

    fn with<P: Print, G: Grammar + Drop>(
        &self,
        reporter: &mut Reporter<'_, P>,
        grammar: G,
        script: &Script,
    ) -> io::Result<()> {
        match self.1 {
            Line::Heard(words) => self.with_lattice(reporter, grammar, heard(words), script),
            Line::Rows(rows) => self.with_lattice(reporter, grammar, heard(&listed(rows)), script),
            Line::Typed(bytes) => self.with_lattice(reporter, grammar, typed(bytes), script),
        }
    }

    fn with_lattice<P: Print, G: Grammar + Drop, L: Lattice + Drop>(
        &self,
        reporter: &mut Reporter<'_, P>,
        grammar: G,
        lattice: L,
        script: &Script,
    ) -> io::Result<()> {
        match self.2 {
            Weighed::Sum => play(reporter, Setting::new(grammar, lattice, Sum), script),
            Weighed::Worst => play(reporter, Setting::new(grammar, lattice, Worst), script),
            Weighed::Chance => play(reporter, Setting::new(grammar, lattice, Chance), script),
        }
    }
}
