// Tests of rules at their limits, and of penalties on penalties.
use crate::checked::{CheckedRules, no_rules};
use crate::count::*;
use crate::fault::*;
use crate::list::RuleList;
use crate::penalized::Penalized;
use crate::rule::RuleRecord;
use grammar::Grammar;
use records::numbered::Numbered;
use std::test::Fail;

fn rule(length: u8) -> RuleRecord {
    RuleRecord {
        left: 9,
        length,
        symbols: [1, 2, 3, 4],
        mark: 65_000,
    }
}

#[test]
fn most_rules(rt: HostRuntime) {
    let rules = [rule(4); 97];
    let mut checked = no_rules();
    assert_eq!(rt; checked.check(&rules), Err(GrammarFault::TooMany));
    assert_eq!(rt; checked.check(&rules[0..96]), Ok(()));
    assert_eq!(rt; RuleList::new(checked).len(), 96);
}

#[test]
fn longest_rule(rt: HostRuntime) {
    let rules = [rule(4), rule(0), rule(5), rule(6)];
    let fault = GrammarFault::At {
        at: 2,
        fault: RuleFault::TooLong,
    };
    let mut checked = no_rules();
    assert_eq!(rt; checked.check(&rules), Err(fault));
    assert_eq!(rt; fault.number(), 5);
    assert_eq!(rt;
        RuleList::new(checked).len(),
        0,
        "a refusal keeps what was there"
    );
}

#[test]
fn past_the_end(rt: HostRuntime) -> Result<(), Fail> {
    let rules = [rule(3)];
    let list = RuleList::new(CheckedRules::new(&rules)?);
    assert_eq!(rt; list.right(0, 2), Some(3));
    assert_eq!(rt;
        list.right(0, 3),
        None,
        "a symbol past the length is ignored"
    );
    assert_eq!(rt; list.length(0), Some(3));
    assert_eq!(rt; list.left(1), None);
    assert_eq!(rt; list.mark(1), None);
    assert_eq!(rt; list.length(1), None);
    assert_eq!(rt; list.right(1, 0), None);
    Ok(())
}

#[test]
fn counts(rt: HostRuntime) {
    assert_eq!(rt; CountGrammar.len(), 11);
    assert_eq!(rt; CountGrammar.left(4), Some(PART));
    assert_eq!(rt; CountGrammar.right(4, 2), Some(OPEN));
    assert_eq!(rt; CountGrammar.mark(4), Some(9));
    assert_eq!(rt; CountGrammar.length(9), Some(0));
    assert_eq!(rt; CountGrammar.left(11), None);
}

#[test]
fn three_penalties(rt: HostRuntime) {
    let below = Penalized::new(CountGrammar, PART, 20);
    let pile = Penalized::new(Penalized::new(below, GAP, 5), PART, 65_535);
    assert_eq!(rt; pile.mark(2), Some(65_535));
    assert_eq!(rt; pile.mark(9), Some(5));
    assert_eq!(rt; pile.mark(0), Some(0));
    assert_eq!(rt; pile.left(2), Some(PART));
    assert_eq!(rt; pile.right(2, 1), Some(BOX));
    assert_eq!(rt; pile.mark(11), None);
}
