// The check of words, and lists of words that passed it.
ghost use Rattle.std.specs.Prelude.{◌≡◌, []};
ghost use Rattle.lattice.specs.Words.{greatest_node, most_words, word_within};
ghost use Rattle.lattice.specs.Checking.{word_refusal};

use crate::fault::WordFault;
use crate::word::Word;
use records::Record;
use records::checked::Checked;

/// The greatest node of any lattice.
pub const GREATEST_NODE: u8 = 31;

impl Record for Word {
    type Fault = WordFault;

    ghost MOST = { most_words };

    const MOST: usize = 128;

    ghost refusal = { word_refusal };

    ghost within = { word_within greatest_node };

    fn check(self) -> Result<(), WordFault> {
        if self.from >= self.to {
            return Err(WordFault::NotForward);
        }
        if self.to > GREATEST_NODE {
            return Err(WordFault::EndsTooLate);
        }
        Ok(())
    }
}

/// At most 128 words, each of which leads to a later node, 31 at most.
pub type CheckedWords<'a> = Checked<'a, Word>;

/// The list of no words, which `check` may fill.
pub fn no_words<'a>() -> CheckedWords<'a>
    ensures { result.records.now ≡ [] }
{
    Checked { records: &[] }
}
