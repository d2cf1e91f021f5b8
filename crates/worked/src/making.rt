// Short forms of words, rules, nodes and questions, and what is made of them. Tables are constants, so their forms are
// macros.
use arrayvec::ArrayVec;
use grammars::checked::{CheckedRules, no_rules};
use grammars::list::RuleList;
use grammars::rule::RuleRecord;
use lattice::checked::{CheckedWords, no_words};
use lattice::word::Word;
use lattices::heard::HeardLattice;
use lattices::typed::TypedLine;

// A word between two nodes.
macro_rules! word {
    ($from:expr, $to:expr, $symbol:expr, $mark:expr) => {
        lattice::word::Word { from: $from, to: $to, symbol: $symbol, mark: $mark }
    };
}

// A rule of the first `length` symbols.
macro_rules! rule {
    ($left:expr, $length:expr, $symbols:expr, $mark:expr) => {
        grammars::rule::RuleRecord { left: $left, length: $length, symbols: $symbols, mark: $mark }
    };
}

// A symbol over a span.
macro_rules! phrase {
    ($symbol:expr, $from:expr, $to:expr) => {
        chart_model::phrase::Phrase { symbol: $symbol, from: $from, to: $to }
    };
}

// A node of a reading.
macro_rules! node {
    ($kind:ident, $number:expr, $from:expr, $to:expr) => {
        chart_model::node::Node { kind: chart_model::node::Kind::$kind, number: $number, from: $from, to: $to }
    };
}

// A question without its answer yet.
macro_rules! question {
    ($symbol:expr, $from:expr, $to:expr) => {
        chart::call::Question { phrase: phrase!($symbol, $from, $to), answer: None }
    };
}

pub(crate) use node;
pub(crate) use phrase;
pub(crate) use question;
pub(crate) use rule;
pub(crate) use word;

// A row of words: how many, the first, and by how many nodes and symbols each is after the one before.
#[derive(Clone, Copy)]
pub(crate) struct Words(pub(crate) u8, pub(crate) Word, pub(crate) u8, pub(crate) u8);

// The words of all rows. There is room for one more than a lattice takes.
pub(crate) fn listed(rows: &[Words]) -> ArrayVec<Word, 129> {
    let mut words = ArrayVec::new();
    for Words(count, first, nodes, symbols) in rows {
        let mut word = *first;
        for _ in 0..*count {
            let _ = words.try_push(word);
            word.from = word.from.saturating_add(*nodes);
            word.to = word.to.saturating_add(*nodes);
            word.symbol = word.symbol.saturating_add(*symbols);
        }
    }
    words
}

// 95 empty rules of mark 7, whose left symbols are their numbers, and a last rule.
pub(crate) fn empty_rules(last: RuleRecord) -> [RuleRecord; 96] {
    let mut rules = [last; 96];
    for left in 0..95 {
        rules[usize::from(left)] = rule!(left, 0, [0; 4], 7);
    }
    rules
}

// The lattice of words. Refused ones leave it empty, which the cases over it show; so below.
pub(crate) fn heard(words: &[Word]) -> HeardLattice<'_> {
    HeardLattice::new(CheckedWords::new(words).unwrap_or(no_words()))
}

// The lattice of bytes.
pub(crate) fn typed(bytes: &[u8]) -> TypedLine<'_> {
    TypedLine::new(bytes).unwrap_or(TypedLine::empty())
}

// The grammar of rules.
pub(crate) fn ruled(rules: &[RuleRecord]) -> RuleList<'_> {
    RuleList::new(CheckedRules::new(rules).unwrap_or(no_rules()))
}
