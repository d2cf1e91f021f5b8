// Word lattices: the words that a recogniser may have heard, between numbered nodes.
#![tactic(auto)]

ghost use Rattle.std.specs.Prelude.{◌≡◌, ℕ, List, length};
ghost use Rattle.std.specs.List.{slice_get};
ghost use Rattle.lattice.specs.declared.word.Word.{Word};
ghost use Rattle.lattice.specs.Words.{Limits};

pub mod checked;
pub mod fault;
pub mod word;

use word::Word;

/// An acyclic graph whose arcs are words. Limits: node 31, 128 words. All methods are pure.
pub trait Lattice {
    /// What `last_node` answers.
    ghost last: { Self → ℕ };

    /// The words, in order.
    ghost words: { Self → List Word };

    /// The limits, proved by each implementation.
    ghost limits: { (l : Self) → Limits (last l) (words l) };

    /// The last node, 0 to 31; no word ends after it.
    fn last_node(&self) -> u8
        ensures { result ≡ last self.now };

    /// How many words there are, at most 128.
    fn len(&self) -> usize
        ensures { result ≡ length (words self.now) };

    /// A word by its number, from 0; none past the last.
    fn word(&self, n: usize) -> Option<Word>
        ensures { result ≡ slice_get (words self.now) n };
}
