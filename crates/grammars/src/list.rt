// A grammar over a caller's list of rule records.
ghost use Rattle.std.specs.Prelude.{◌≡◌, ◌≤◌, IfSome};
ghost use Rattle.std.specs.List.{slice_get};
ghost use Rattle.std.specs.Option.{option_map};
ghost use Rattle.grammar.specs.Rules.{most_symbols};
ghost use Rattle.grammars.specs.Records.{rule_of, rules_of};

use crate::checked::CheckedRules;
use crate::rule::RuleRecord;
use grammar::Grammar;

/// The rules of a caller's list that passed the check, numbered by their places.
#[derive(Drop)]
pub struct RuleList<'a> {
    checked: CheckedRules<'a>,
}

impl<'a> RuleList<'a> {
    ghost use Rattle.grammars.specs.Meaning.{listed_records, listed_rules};

    /// Makes a grammar of checked rules. Never refused.
    pub fn new(checked: CheckedRules<'a>) -> Self
        ensures records { listed_records result ≡ checked.entry.records.now }
        ensures rules { listed_rules result ≡ rules_of checked.entry.records.now }
    {
        RuleList { checked }
    }

    // The record of a rule.
    fn record(&self, rule: usize) -> Option<RuleRecord>
        ensures meaning { option_map rule_of result ≡ slice_get (listed_rules self.now) rule }
        ensures within { IfSome result (λ x. x.length ≤ most_symbols) }
    {
        self.checked.records.get(rule).copied()
    }
}

impl<'a> Grammar for RuleList<'a> {
    ghost use Rattle.grammars.specs.Meaning.{listed_rules, listed_keeps};

    ghost rules = { listed_rules };

    ghost limits = { listed_keeps };

    fn len(&self) -> usize {
        self.checked.records.len()
    }

    fn left(&self, rule: usize) -> Option<u8> {
        Some(self.record(rule)?.left)
    }

    fn mark(&self, rule: usize) -> Option<u16> {
        Some(self.record(rule)?.mark)
    }

    fn length(&self, rule: usize) -> Option<usize> {
        Some(usize::from(self.record(rule)?.length))
    }

    fn right(&self, rule: usize, at: usize) -> Option<u8> {
        let record = self.record(rule)?;
        record
            .symbols
            .get(..usize::from(record.length))?
            .get(at)
            .copied()
    }
}
