// The check of rules, and lists of rules that passed it.
ghost use Rattle.std.specs.Prelude.{◌≡◌, []};
ghost use Rattle.grammar.specs.Rules.{most_rules};
ghost use Rattle.grammars.specs.Records.{record_within};
ghost use Rattle.grammars.specs.Checking.{rule_refusal};

use crate::fault::RuleFault;
use crate::rule::RuleRecord;
use records::Record;
use records::checked::Checked;

// The most right symbols of a rule.
const MOST_SYMBOLS: u8 = 4;

impl Record for RuleRecord {
    type Fault = RuleFault;

    ghost MOST = { most_rules };

    const MOST: usize = 96;

    ghost refusal = { rule_refusal };

    ghost within = { record_within };

    fn check(self) -> Result<(), RuleFault> {
        if self.length > MOST_SYMBOLS {
            return Err(RuleFault::TooLong);
        }
        Ok(())
    }
}

/// At most 96 rules, each of at most four right symbols.
pub type CheckedRules<'a> = Checked<'a, RuleRecord>;

/// The list of no rules, which `check` may fill.
pub fn no_rules<'a>() -> CheckedRules<'a>
    ensures { result.records.now ≡ [] }
{
    Checked { records: &[] }
}
