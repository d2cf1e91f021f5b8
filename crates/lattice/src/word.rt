// One word of a lattice.

/// A word that was heard between two nodes. What a lattice asks of it is checked by `CheckedWords`.
#[derive(Clone, Copy, PartialEq, Eq, Debug, Default)]
pub struct Word {
    /// The node where the word starts, before `to`.
    pub from: u8,
    /// The node where it ends, at most 31.
    pub to: u8,
    /// What was heard, as a symbol, 0 to 255.
    pub symbol: u8,
    /// How doubtful the word is: 0, no doubt, to 65,535.
    pub mark: u16,
}
