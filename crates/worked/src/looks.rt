// What is asked of weighings, grammars and lattices.
use grammar::Grammar;
use lattice::Lattice;
use reporting::case::{Answer, given};
use reporting::reporter::Asks;
use weighing::Weighing;

// The weight of a mark, or two weights joined.
#[derive(Clone, Copy)]
pub(crate) enum Code {
    Mark(u16),
    Join(u64, u64),
}

// The number of rules, or the mark, the length or a right symbol of one of them.
#[derive(Clone, Copy)]
pub(crate) enum RuleLook {
    Count,
    Mark(usize),
    Length(usize),
    Right(usize, usize),
}

// The number of words, the last node, or the end or the symbol of a word.
#[derive(Clone, Copy)]
pub(crate) enum WordLook {
    Count,
    LastNode,
    End(usize),
    Symbol(usize),
}

impl<W: Weighing> Asks<W> for Code {
    fn ask(&self, weighing: &mut W) -> Answer {
        match *self {
            Code::Mark(mark) => Ok(weighing.weigh(mark)),
            Code::Join(a, b) => Ok(weighing.join(a, b)),
        }
    }
}

impl<G: Grammar> Asks<G> for RuleLook {
    fn ask(&self, grammar: &mut G) -> Answer {
        match *self {
            RuleLook::Count => Ok(grammar.len() as u64),
            RuleLook::Mark(rule) => given(grammar.mark(rule)),
            RuleLook::Length(rule) => match grammar.length(rule) {
                Some(length) => Ok(length as u64),
                None => Err(0),
            },
            RuleLook::Right(rule, at) => given(grammar.right(rule, at)),
        }
    }
}

impl<L: Lattice> Asks<L> for WordLook {
    fn ask(&self, lattice: &mut L) -> Answer {
        match *self {
            WordLook::Count => Ok(lattice.len() as u64),
            WordLook::LastNode => Ok(u64::from(lattice.last_node())),
            WordLook::End(n) => match lattice.word(n) {
                Some(word) => Ok(u64::from(word.to)),
                None => Err(0),
            },
            WordLook::Symbol(n) => match lattice.word(n) {
                Some(word) => Ok(u64::from(word.symbol)),
                None => Err(0),
            },
        }
    }
}
