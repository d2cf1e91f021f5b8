// Why rules make no grammar: refusals 5 and 6.
ghost use Rattle.grammars.specs.Faults.{rule_number, too_many_rules};

use records::fault::{ListFault, RecordFault};
use records::numbered::Numbered;

/// Why a rule is refused.
#[derive(Clone, Copy, PartialEq, Eq, Debug)]
pub enum RuleFault {
    /// 5: its length is above four.
    TooLong = 5,
}

// The number of a case is its discriminant.
impl Numbered for RuleFault {
    ghost number = { rule_number };

    fn number(self) -> u8 {
        self as u8
    }
}

impl RecordFault for RuleFault {
    ghost TOO_MANY = { too_many_rules };

    const TOO_MANY: u8 = 6;
}

/// Why a list of rules is refused: 6 for more than 96, else 5 with the place of the first rule at fault, from 0.
pub type GrammarFault = ListFault<RuleFault>;
