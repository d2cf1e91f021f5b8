// A rule as it stands in a caller's list.

/// A rule in a record of fixed size. What a grammar asks of it is checked by `CheckedRules`.
#[derive(Clone, Copy, PartialEq, Eq, Debug, Default)]
pub struct RuleRecord {
    /// The left symbol, 0 to 255.
    pub left: u8,
    /// How many right symbols the rule has, at most 4.
    pub length: u8,
    /// The right symbols in order, 0 to 255 each; those past the length are not read.
    pub symbols: [u8; 4],
    /// How doubtful the rule is: 0, no doubt, to 65,535.
    pub mark: u16,
}
