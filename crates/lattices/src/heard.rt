// A lattice over a caller's list of words.
ghost use Rattle.std.specs.Prelude.{◌≡◌};
ghost use Rattle.lattices.specs.Heard.{largest_end};

use lattice::Lattice;
use lattice::checked::CheckedWords;
use lattice::word::Word;

/// A lattice that borrows a checked list of words. N = max({0} ∪ ends), computed once.
#[derive(Drop)]
pub struct HeardLattice<'a> {
    checked: CheckedWords<'a>,
    last: u8,
    ghost largest: { last ≡ largest_end checked.records.now },
}

impl<'a> HeardLattice<'a> {
    ghost use Rattle.lattices.specs.Meaning.{heard_words};

    /// Makes a lattice of checked words. Never refused.
    pub fn new(checked: CheckedWords<'a>) -> Self
        ensures words { heard_words result ≡ checked.entry.records.now }
    {
        let last = largest_end(checked.records);
        HeardLattice { checked, last }
    }
}

// The maximum of the words' ends.
fn largest_end(words: &[Word]) -> u8
    ensures { result ≡ largest_end words.now }
{
    words.iter().fold(0, |largest, word| largest.max(word.to))
}

impl<'a> Lattice for HeardLattice<'a> {
    ghost use Rattle.lattices.specs.Meaning.{heard_words, heard_keeps};

    ghost last = { λ lattice. largest_end (heard_words lattice) };

    ghost words = { heard_words };

    ghost limits = { heard_keeps };

    fn last_node(&self) -> u8 {
        self.last
    }

    fn len(&self) -> usize {
        self.checked.records.len()
    }

    fn word(&self, n: usize) -> Option<Word> {
        self.checked.records.get(n).copied()
    }
}
