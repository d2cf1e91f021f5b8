// Why words make no lattice: refusals 1 to 3.
ghost use Rattle.lattice.specs.Faults.{word_number, too_many_words};

use records::fault::{ListFault, RecordFault};
use records::numbered::Numbered;

/// Why a word is refused.
#[derive(Clone, Copy, PartialEq, Eq, Debug)]
pub enum WordFault {
    /// 1: it leads to no later node.
    NotForward = 1,
    /// 2: it leads past node 31.
    EndsTooLate = 2,
}

// The number of a case is its discriminant.
impl Numbered for WordFault {
    ghost number = { word_number };

    fn number(self) -> u8 {
        self as u8
    }
}

impl RecordFault for WordFault {
    ghost TOO_MANY = { too_many_words };

    const TOO_MANY: u8 = 3;
}

/// Why a list of words is refused: 3 for more than 128, else 1 or 2 with the place of the first word at fault, from 0.
pub type LatticeFault = ListFault<WordFault>;
