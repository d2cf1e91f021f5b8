// Origins: the inferences by which edges got their weights.

/// The lightest inference of an edge so far. Words and rules go by their numbers, premises by their places in the chart.
#[derive(Clone, Copy, PartialEq, Eq, Debug)]
pub enum Origin {
    /// A word of the lattice.
    Word(u8),
    /// A rule without right symbols.
    Empty(u8),
    /// The start of a rule with its first child.
    First { rule: u8, child: u16 },
    /// The fundamental rule: an active edge and the child that it wanted next.
    Next { active: u16, child: u16 },
}
