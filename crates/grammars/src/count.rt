// The built-in grammar of spoken stock counts: lines of parts such as "two box" and "open one".
ghost use Rattle.std.specs.Prelude.{◌≡◌};
ghost use Rattle.grammars.specs.Count.{count_rules, count_limits};
ghost use Rattle.grammars.specs.Meaning.{listed_rules};

use crate::list::RuleList;
use crate::rule::RuleRecord;
use grammar::Grammar;
use records::checked::Checked;

/// The symbol of a whole line.
pub const LINE: u8 = 1;

/// The symbol of a part of a line.
pub const PART: u8 = 2;

/// The symbol of a number.
pub const NUM: u8 = 3;

/// The symbol of a gap between two parts: nothing, or "um".
pub const GAP: u8 = 4;

/// The symbol of the word "one".
pub const ONE: u8 = 16;

/// The symbol of the word "two".
pub const TWO: u8 = 17;

/// The symbol of the word "three".
pub const THREE: u8 = 18;

/// The symbol of the word "box".
pub const BOX: u8 = 19;

/// The symbol of the word "open".
pub const OPEN: u8 = 20;

/// The symbol of the word "um".
pub const UM: u8 = 21;

const RULES: [RuleRecord; 11] = [
    RuleRecord {
        left: LINE,
        length: 1,
        symbols: [PART, 0, 0, 0],
        mark: 0,
    },
    RuleRecord {
        left: LINE,
        length: 3,
        symbols: [LINE, GAP, PART, 0],
        mark: 2,
    },
    RuleRecord {
        left: PART,
        length: 2,
        symbols: [NUM, BOX, 0, 0],
        mark: 3,
    },
    RuleRecord {
        left: PART,
        length: 2,
        symbols: [OPEN, NUM, 0, 0],
        mark: 4,
    },
    RuleRecord {
        left: PART,
        length: 3,
        symbols: [NUM, BOX, OPEN, 0],
        mark: 9,
    },
    RuleRecord {
        left: PART,
        length: 1,
        symbols: [NUM, 0, 0, 0],
        mark: 6,
    },
    RuleRecord {
        left: NUM,
        length: 1,
        symbols: [ONE, 0, 0, 0],
        mark: 0,
    },
    RuleRecord {
        left: NUM,
        length: 1,
        symbols: [TWO, 0, 0, 0],
        mark: 0,
    },
    RuleRecord {
        left: NUM,
        length: 1,
        symbols: [THREE, 0, 0, 0],
        mark: 0,
    },
    RuleRecord {
        left: GAP,
        length: 0,
        symbols: [0, 0, 0, 0],
        mark: 0,
    },
    RuleRecord {
        left: GAP,
        length: 1,
        symbols: [UM, 0, 0, 0],
        mark: 1,
    },
];

// The rules as a grammar over records.
fn table() -> RuleList<'static>
    ensures rules { listed_rules result ≡ count_rules }
{
    RuleList::new(Checked { records: &RULES })
}

/// The eleven rules of spoken stock counts, numbered 0 to 10.
#[derive(Clone, Copy, PartialEq, Eq, Debug, Default)]
pub struct CountGrammar;

impl Grammar for CountGrammar {
    ghost rules = { λ _. count_rules };

    ghost limits = { λ _. count_limits };

    fn len(&self) -> usize {
        table().len()
    }

    fn left(&self, rule: usize) -> Option<u8> {
        table().left(rule)
    }

    fn mark(&self, rule: usize) -> Option<u16> {
        table().mark(rule)
    }

    fn length(&self, rule: usize) -> Option<usize> {
        table().length(rule)
    }

    fn right(&self, rule: usize, at: usize) -> Option<u8> {
        table().right(rule, at)
    }
}
