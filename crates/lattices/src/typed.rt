// A lattice over a caller's bytes, one word to a byte.
ghost use Rattle.std.specs.Prelude.{◌≡◌, ◌≤◌, [], length, IfOk, OnOk, OnErr};
ghost use Rattle.std.specs.Option.{option_map};
ghost use Rattle.std.specs.Result.{result_err};
ghost use Rattle.lattice.specs.Words.{greatest_node};
ghost use Rattle.lattices.specs.Faults.{typed_number, typed_refusal};
ghost use Rattle.lattices.specs.Typed.{typed_words};

use crate::fault::TypedFault;
use lattice::Lattice;
use lattice::checked::GREATEST_NODE;
use lattice::word::Word;

/// A lattice without branches: each of a caller's bytes, at most 31, is a symbol without doubt that leads one node on.
#[derive(Drop)]
pub struct TypedLine<'a> {
    bytes: &'a [u8],
    ghost short: { length bytes.now ≤ greatest_node },
}

impl<'a> TypedLine<'a> {
    ghost use Rattle.lattices.specs.Meaning.{typed_bytes};

    /// The line without bytes, which `set` may fill.
    pub fn empty() -> Self
        ensures bytes { typed_bytes result ≡ [] }
    {
        TypedLine { bytes: &[] }
    }

    /// Makes a line of bytes. Refused with 4 for more than 31.
    pub fn new(bytes: &'a [u8]) -> Result<Self, TypedFault>
        ensures refused { option_map typed_number (result_err result) ≡ typed_refusal bytes.now }
        ensures bytes { IfOk result (λ line. typed_bytes line ≡ bytes.now) }
    {
        if bytes.len() > usize::from(GREATEST_NODE) {
            return Err(TypedFault::TooLong);
        }
        Ok(TypedLine { bytes })
    }

    /// Replaces the line by another. Refused with 4 for more than 31 bytes; the former line stays then.
    pub fn set(&mut self, bytes: &'a [u8]) -> Result<(), TypedFault>
        ensures refused { option_map typed_number (result_err result) ≡ typed_refusal bytes.now }
        ensures bytes { OnOk result (typed_bytes self.new ≡ bytes.now) }
        ensures kept { OnErr result (typed_bytes self.new ≡ typed_bytes self.old) }
    {
        *self = TypedLine::new(bytes)?;
        Ok(())
    }
}

impl<'a> Lattice for TypedLine<'a> {
    ghost use Rattle.lattices.specs.Meaning.{typed_bytes, typed_keeps};

    ghost last = { λ line. length (typed_bytes line) };

    ghost words = { λ line. typed_words (typed_bytes line) };

    ghost limits = { typed_keeps };

    fn last_node(&self) -> u8 {
        // At most 31, which fits 8 bits.
        self.bytes.len() as u8
    }

    #[tactic(auto, using(crate::specs::Typed::length_typed))]
    fn len(&self) -> usize {
        self.bytes.len()
    }

    fn word(&self, n: usize) -> Option<Word> {
        let symbol = *self.bytes.get(n)?;
        // Below the length, so at most 30.
        let from = n as u8;
        Some(Word {
            from,
            to: from + 1,
            symbol,
            mark: 0,
        })
    }
}
